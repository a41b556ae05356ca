// A step from its fetch on: what the word asks for is carried out.
ghost use Rattle.std.specs.Prelude.{cond, ◌&&◌};
ghost use Rattle.maps.specs.Pages.{protecting};
ghost use Rattle.code.specs.Codes.{privileged};
ghost use Rattle.acts.specs.Acts.{Performs, violate as violating, stop};
ghost use Rattle.effects.specs.Group.{PerformsAlone};
ghost use Rattle.rules.specs.Rules.{act, step_act};

use crate::trap::carry_out_trap;
use acts::record::Registers;
use acts::replies::{Refusal, Stop};
use code::codes::is_privileged;
use effects::group::{
    alter_skip, copy_from_index, copy_to_index, exchange, input_output, long_rotate, shift_rotate,
    step_index,
};
use effects::ways::{Way, at_address};
use maps::pages::{Map, is_protecting};
use rules::actions::{Action, Operand, action_of};
use strings::moves::move_string;
use strings::strings::{compare, load_byte, mask_bits, store_byte};
use word::sums::{decrement, increment, past};

// An instruction goes its way at the address that its address word leads to. With bit 15 clear an address word is the
// address.
fn go_way(
    way: Way,
    from: Operand,
    r: Registers,
    pages: &[u16],
    memory: &mut [u16],
) -> Result<Registers, Stop>
    ensures { Performs pages.now (act (Action.At way from) r) r memory.old result memory.new }
{
    let (word, words) = match from {
        Operand::Made(word) => (word, 1),
        Operand::Next => (r.read(Map::Execute, past(r.p, 1), pages, memory)?, 2),
    };
    let at = if word < 0o100000 {
        word
    } else {
        r.follow(word, pages, memory)?
    };
    at_address(way, at, words, r, pages, memory)
}

// A word that isn't built: with protection on, 105700 to 105711 are violations.
#[tactic(auto, unfolding(acts::specs::Acts::exec))]
fn not_built(w: u16, r: Registers) -> Result<Registers, Stop>
    ensures { PerformsAlone (cond (protecting r.wmap && privileged w) violating (stop Refusal.NotBuilt)) r result }
{
    if is_protecting(r.wmap) & is_privileged(w) {
        return Err(Stop::Violation);
    }
    Err(Stop::Refused(Refusal::NotBuilt))
}

// What was asked for is carried out.
#[tactic(auto, unfolding(acts::specs::Acts::exec))]
fn perform(
    action: Action,
    r: Registers,
    pages: &[u16],
    memory: &mut [u16],
) -> Result<Registers, Stop>
    ensures { Performs pages.now (act action r) r memory.old result memory.new }
{
    match action {
        Action::At(way, from) => go_way(way, from, r, pages, memory),
        Action::ShiftRotate(fields) => Ok(shift_rotate(fields, r)),
        Action::AlterSkip(fields) => Ok(alter_skip(fields, r)),
        Action::InputOutput(fields) => input_output(fields, r),
        Action::LongShift(kind, places) => Ok(long_rotate(kind, places, r)),
        Action::CopyToIndex(g, i) => Ok(copy_to_index(g, i, r)),
        Action::CopyFromIndex(g, i) => Ok(copy_from_index(g, i, r)),
        Action::Exchange(g, i) => Ok(exchange(g, i, r)),
        Action::CountUp(i) => Ok(step_index(i, increment(r.index(i)).word, r)),
        Action::CountDown(i) => Ok(step_index(i, decrement(r.index(i)).word, r)),
        Action::LoadByte => load_byte(r, pages, memory),
        Action::StoreByte => store_byte(r, pages, memory),
        Action::Move(u) => move_string(u, r, pages, memory),
        Action::Compare(u) => compare(u, r, pages, memory),
        Action::Mask(x) => mask_bits(x, r, pages, memory),
        Action::NotBuilt(w) => not_built(w, r),
    }
}

// The fetch, through Execute: at P, or at the waiting trap. A call of its own: see machine's take_turn.
#[inline(never)]
pub fn fetch(r: Registers, pages: &[u16], memory: &mut [u16]) -> Result<Registers, Stop>
    ensures { Performs pages.now (step_act r) r memory.old result memory.new }
{
    if r.trap == 0 {
        let word = r.read(Map::Execute, r.p, pages, memory)?;
        return perform(action_of(word, r.p), r, pages, memory);
    }
    let word = r.read(Map::Execute, r.trap, pages, memory)?;
    carry_out_trap(word, r, pages, memory)
}
