// A run of steps, with a budget.
ghost use Rattle.std.specs.Prelude.{◌≡◌, true, eqb, length};
ghost use Rattle.machine.specs.Step.{good_call, running, Leaves, Runs, Goes};
ghost use Rattle.machine.specs.Turns.{ended_by, Turned};

use crate::step::is_good_call;
use acts::record::Registers;
use acts::replies::{Ran, Reply, Stepped, Stop, settle};
use lane::lane::lane;
use steps::perform::fetch;

// How a run ends with a step that stopped: a violation is counted.
fn end_by(stop: Stop, r: Registers) -> Ran
    ensures { result ≡ ended_by stop r }
{
    let Stepped { reply, registers } = settle(Err(stop), r);
    Ran {
        reply,
        count: u32::from(stop == Stop::Violation),
        registers,
    }
}

// One step by the general way: the registers that the run goes on with, or how it ended with this step. The call is good.
// Drawn into the run, and the fetch is a call: what the call gives back then is a record or a stop, with no room for a run's answer.
#[inline(always)]
fn take_turn(r: Registers, pages: &[u16], memory: &mut [u16]) -> Result<Registers, Ran>
    requires { good_call (length pages.now) (length memory.old) r ≡ true }
    ensures { Turned pages.now r memory.old result memory.new }
{
    match fetch(r, pages, memory) {
        Ok(s) => Ok(s),
        Err(stop) => Err(end_by(stop, r)),
    }
}

// The steps of a good call: a step keeps the call good, so it is not tested again. A trap that waits is met by the
// first step and by no later one. Frequent steps go by the lane, and what it leaves by the general step, so that a turn
// of the loop takes any number of steps.
pub(crate) fn go(budget: u32, r: Registers, pages: &[u16], memory: &mut [u16]) -> Ran
    requires { good_call (length pages.now) (length memory.old) r ≡ true }
    ensures { Goes (running pages.now budget r memory.old) result memory.new }
{
    let mut s = r;
    let mut count: u32 = 0;
    if r.trap != 0 {
        if budget == 0 {
            return Ran {
                reply: Reply::Completed,
                count: 0,
                registers: r,
            };
        }
        match take_turn(r.apart(), pages, memory) {
            Ok(t) => s = t.apart(),
            Err(ran) => return ran,
        }
        count = 1;
    }
    while count < budget {
        let l = lane(budget - count, s, pages, memory);
        s = l.registers;
        count += l.count;
        if count >= budget {
            return Ran {
                reply: Reply::Completed,
                count,
                registers: s,
            };
        }
        match take_turn(s.apart(), pages, memory) {
            Ok(t) => s = t.apart(),
            Err(ran) => {
                return Ran {
                    count: count + ran.count,
                    ..ran
                };
            }
        }
        count += 1;
    }
    Ran {
        reply: Reply::Completed,
        count,
        registers: s,
    }
}

// A run of up to so many steps.
pub fn run(budget: u32, r: Registers, pages: &mut [u16], memory: &mut [u16]) -> Ran
    ensures { Runs pages.old budget r memory.old result pages.new memory.new }
{
    if is_good_call(pages.len(), memory.len(), r) {
        if budget <= 1000000 {
            return go(budget, r, pages, memory);
        }
    }
    Ran {
        reply: Reply::BadCall,
        count: 0,
        registers: r,
    }
}
