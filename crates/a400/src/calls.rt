// The calls on a register record: a fresh one, one step, a run.
ghost use Rattle.std.specs.Prelude.{◌≡◌, [], ◌∷◌};
ghost use Rattle.a400.specs.Calls.{fresh_call, step_call, run_call, Answers, Calls, RunCalls};

use crate::BAD_CALL;
use crate::record::write_record;
use acts::record::{RECORD_WORDS, Registers};
use machine::run::run;

#[unsafe(no_mangle)]
#[tactic(auto, unfolding(crate::specs::Calls::fresh_call))]
pub extern "C" fn a400_fresh(words: &mut [u16]) -> u32
    ensures { Answers (fresh_call words.old) result words.new }
{
    if words.len() != RECORD_WORDS {
        return BAD_CALL;
    }
    write_record(Registers::fresh(), words);
    0
}

// The reply's number, and the count: what goes back to C.
#[derive(Clone, Copy)]
struct Made {
    reply: u32,
    count: u32,
}

// A run of the record in words. A step is a run of one: both go by this function, so that the machine's own, the
// lane among them, are drawn into it, up to the fetch of a general step.
fn call(words: &mut [u16], pages: &mut [u16], memory: &mut [u16], budget: u32) -> Made
    ensures { RunCalls (run_call words.old pages.old memory.old budget (0 ∷ [])) pages.old result.reply words.new pages.new memory.new (result.count ∷ []) }
{
    let Some(r) = Registers::from_words(words) else {
        return Made {
            reply: BAD_CALL,
            count: 0,
        };
    };
    let ran = run(budget, r, pages, memory);
    write_record(ran.registers, words);
    Made {
        reply: u32::from(ran.reply),
        count: ran.count,
    }
}

#[unsafe(no_mangle)]
pub extern "C" fn a400_step(words: &mut [u16], pages: &mut [u16], memory: &mut [u16]) -> u32
    ensures { Calls (step_call words.old pages.old memory.old) pages.old result words.new pages.new memory.new }
{
    let made = call(words, pages, memory, 1);
    made.reply
}

#[unsafe(no_mangle)]
pub extern "C" fn a400_run(
    words: &mut [u16],
    pages: &mut [u16],
    memory: &mut [u16],
    budget: u32,
    count: &mut [u32],
) -> u32
    ensures { RunCalls (run_call words.old pages.old memory.old budget count.old) pages.old result words.new pages.new memory.new count.new }
{
    if count.len() != 1 {
        return BAD_CALL;
    }
    let made = call(words, pages, memory, budget);
    count[0] = made.count;
    made.reply
}
