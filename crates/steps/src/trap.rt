// The word of a trap cell.
ghost use Rattle.std.specs.Prelude.{◌≡◌};
ghost use Rattle.word.specs.Sums.{address};
ghost use Rattle.acts.specs.Record.{with_p, with_trap};
ghost use Rattle.acts.specs.Acts.{Performs, fin, save, follow as following};
ghost use Rattle.rules.specs.Rules.{trap_rule};

use acts::record::Registers;
use acts::replies::{Refusal, Stop};
use acts::stores::put_last;
use code::instructions::Operation;
use maps::pages::Map;
use rules::memory::memory_word;
use word::sums::past;

// P goes on elsewhere, and no trap waits.
fn leave_trap(to: u16, r: Registers) -> Registers
    ensures { result ≡ with_trap (with_p r to) 0 }
{
    Registers {
        p: to,
        trap: 0,
        ..r
    }
}

fn trap_jump(word: u16, r: Registers, pages: &[u16], memory: &[u16]) -> Result<Registers, Stop>
    ensures { Performs pages.now (following word (λ m. fin (λ s. with_trap (with_p s m) 0))) r memory.now result memory.now }
{
    let at = r.follow(word, pages, memory)?;
    Ok(leave_trap(at, r))
}

// The trap cell's JSB: P itself is stored.
fn trap_jump_saving(
    word: u16,
    r: Registers,
    pages: &[u16],
    memory: &mut [u16],
) -> Result<Registers, Stop>
    ensures { Performs pages.now (following word (λ m. save Map.Execute m r.p (fin (λ s. with_trap (with_p s (address m 1)) 0)))) r memory.old result memory.new }
{
    let at = r.follow(word, pages, memory)?;
    let s = leave_trap(past(at, 1), r);
    put_last(r.p, Map::Execute, at, s, pages, memory)
}

// JMP and JSB on page 0 are carried out, and no other word.
pub(crate) fn carry_out_trap(
    word: u16,
    r: Registers,
    pages: &[u16],
    memory: &mut [u16],
) -> Result<Registers, Stop>
    ensures { Performs pages.now (trap_rule word r) r memory.old result memory.new }
{
    let operation = word / 0o4000 % 16 * 0o4000;
    let at = memory_word(
        word / 0o100000 % 2 == 1,
        word / 0o2000 % 2 == 1,
        word % 0o2000,
        0,
    );
    if operation == u16::from(Operation::Jmp) {
        return trap_jump(at, r, pages, memory);
    }
    if operation == u16::from(Operation::Jsb) {
        return trap_jump_saving(at, r, pages, memory);
    }
    Err(Stop::Refused(Refusal::TrapCell))
}
