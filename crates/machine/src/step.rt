// One step: the test of the call, and a run of one.
ghost use Rattle.std.specs.Prelude.{◌≡◌};
ghost use Rattle.machine.specs.Step.{good_call, Steps};

use crate::run::go;
use acts::record::Registers;
use acts::replies::{Stepped, Stop, settle};

// Whether page registers and memory of these lengths, and the record, make a good call.
pub(crate) fn is_good_call(registers: usize, words: usize, r: Registers) -> bool
    ensures { result ≡ good_call registers words r }
{
    let whole = (words % 1024 == 0) & (1024 <= words) & (words <= 16777216);
    (registers == 1024) & whole & r.is_valid()
}

// One step: a run of one.
pub fn step(r: Registers, pages: &mut [u16], memory: &mut [u16]) -> Stepped
    ensures { Steps pages.old r memory.old result pages.new memory.new }
{
    if is_good_call(pages.len(), memory.len(), r) {
        let ran = go(1, r, pages, memory);
        return Stepped {
            reply: ran.reply,
            registers: ran.registers,
        };
    }
    settle(Err(Stop::BadCall), r)
}
