// The extended codes of the lane, told by the word.
ghost use Rattle.std.specs.Prelude.{◌≡◌, List, ℕ, IfSome};
ghost use Rattle.code.specs.Instructions.{places, reading};
ghost use Rattle.code.specs.declared.instructions.Instruction.{Instruction};
ghost use Rattle.effects.specs.Ways.{taken};
ghost use Rattle.rules.specs.Rules.{rule};
ghost use Rattle.lane.specs.Lane.{Tried};
ghost use Rattle.lane.specs.Asking.{Goes};

use crate::references::{lead, put};
use acts::record::Registers;
use code::codes::{Index, Register};
use effects::group::{copy_from_index, copy_to_index, exchange, long_rotate, step_index};
use effects::ways::{Addressing, Source, Taking, set_flags, take_product, take_quotient};
use maps::pages::Map;
use word::long::LongShift;
use word::products::{divide, multiply};
use word::sums::{add, decrement, increment, past};

// The long shift of a word. Its places are in the low four bits.
fn long_shift_of(word: u16) -> Option<LongShift>
    ensures { IfSome result (λ kind. reading word ≡ Instruction.LongShift kind (places word)) }
{
    match word / 16 {
        0o4001 => Some(LongShift::Asl),
        0o4002 => Some(LongShift::Lsl),
        0o4004 => Some(LongShift::Rrl),
        0o4041 => Some(LongShift::Asr),
        0o4042 => Some(LongShift::Lsr),
        0o4044 => Some(LongShift::Rrr),
        _ => None,
    }
}

// The codes that have no address word.
fn alone(word: u16, r: Registers) -> Option<Registers>
    ensures { (pages m : List ℕ) → Tried pages (rule (reading word) r) r m result m }
{
    Some(match word {
        0o101741 => copy_to_index(Register::A, Index::X, r),
        0o101751 => copy_to_index(Register::A, Index::Y, r),
        0o105741 => copy_to_index(Register::B, Index::X, r),
        0o105751 => copy_to_index(Register::B, Index::Y, r),
        0o101744 => copy_from_index(Register::A, Index::X, r),
        0o101754 => copy_from_index(Register::A, Index::Y, r),
        0o105744 => copy_from_index(Register::B, Index::X, r),
        0o105754 => copy_from_index(Register::B, Index::Y, r),
        0o101747 => exchange(Register::A, Index::X, r),
        0o101757 => exchange(Register::A, Index::Y, r),
        0o105747 => exchange(Register::B, Index::X, r),
        0o105757 => exchange(Register::B, Index::Y, r),
        0o105760 => step_index(Index::X, increment(r.x).word, r),
        0o105761 => step_index(Index::X, decrement(r.x).word, r),
        0o105770 => step_index(Index::Y, increment(r.y).word, r),
        0o105771 => step_index(Index::Y, decrement(r.y).word, r),
        _ => long_rotate(long_shift_of(word)?, word, r),
    })
}

// The registers after a word was read, by the codes below: what `apply` gives, in arms of its own, as a call of `apply` would not be
// inlined here, and the record would then lie in memory at every step.
fn finish(taking: Taking, v: u16, r: Registers) -> Option<Registers>
    ensures { IfSome result (λ s. s ≡ taken taking v 2 r) }
{
    let s = match taking {
        Taking::Multiply => take_product(multiply(r.a, v), r),
        Taking::Divide => take_quotient(divide(r.b, r.a, v), r),
        Taking::Load(g) => r.with_register(g, v),
        Taking::LoadIndex(i) => r.with_index(i, v),
        Taking::AddIndex(i) => {
            let t = add(r.index(i), v);
            set_flags(t, r).with_index(i, t.word)
        }
        _ => return None,
    };
    Some(s.ahead(2))
}

// What a code with an address word does there. The map is Execute.
#[derive(Clone, Copy, Debug, PartialEq, Eq)]
pub enum Asked {
    Take(Taking, Addressing),
    Put(Source, Addressing),
}

// Told by the word, with no search.
fn asks(word: u16) -> Option<Asked>
    ensures { Goes word result }
{
    Some(match word {
        0o100200 => Asked::Take(Taking::Multiply, Addressing::Plain),
        0o100400 => Asked::Take(Taking::Divide, Addressing::Plain),
        0o101740 => Asked::Put(Source::Register(Register::A), Addressing::Indexed(Index::X)),
        0o101750 => Asked::Put(Source::Register(Register::A), Addressing::Indexed(Index::Y)),
        0o105740 => Asked::Put(Source::Register(Register::B), Addressing::Indexed(Index::X)),
        0o105750 => Asked::Put(Source::Register(Register::B), Addressing::Indexed(Index::Y)),
        0o105743 => Asked::Put(Source::Index(Index::X), Addressing::Plain),
        0o105753 => Asked::Put(Source::Index(Index::Y), Addressing::Plain),
        0o101742 => Asked::Take(Taking::Load(Register::A), Addressing::Indexed(Index::X)),
        0o101752 => Asked::Take(Taking::Load(Register::A), Addressing::Indexed(Index::Y)),
        0o105742 => Asked::Take(Taking::Load(Register::B), Addressing::Indexed(Index::X)),
        0o105752 => Asked::Take(Taking::Load(Register::B), Addressing::Indexed(Index::Y)),
        0o105745 => Asked::Take(Taking::LoadIndex(Index::X), Addressing::Plain),
        0o105755 => Asked::Take(Taking::LoadIndex(Index::Y), Addressing::Plain),
        0o105746 => Asked::Take(Taking::AddIndex(Index::X), Addressing::Plain),
        0o105756 => Asked::Take(Taking::AddIndex(Index::Y), Addressing::Plain),
        _ => return None,
    })
}

// The codes that have an address word.
fn addressed(word: u16, r: Registers, pages: &[u16], memory: &mut [u16]) -> Option<Registers>
    ensures { Tried pages.now (rule (reading word) r) r memory.old result memory.new }
{
    let from = r.read(Map::Execute, past(r.p, 1), pages, memory).ok()?;
    let to = lead(from, r, pages, memory)?;
    match asks(word)? {
        Asked::Take(taking, addressing) => {
            let at = addressing.address(to, r);
            let v = r.read(Map::Execute, at, pages, memory).ok()?;
            finish(taking, v, r)
        }
        Asked::Put(source, addressing) => {
            let at = addressing.address(to, r);
            put(source.value(r), at, past(r.p, 2), r, pages, memory)
        }
    }
}

// A word with bit 15 set and bits 14 to 12 clear.
pub(crate) fn extend(
    word: u16,
    r: Registers,
    pages: &[u16],
    memory: &mut [u16],
) -> Option<Registers>
    ensures { Tried pages.now (rule (reading word) r) r memory.old result memory.new }
{
    if word / 0o2000 % 2 == 1 {
        return None;
    }
    if let Some(s) = alone(word, r) {
        return Some(s);
    }
    addressed(word, r, pages, memory)
}
