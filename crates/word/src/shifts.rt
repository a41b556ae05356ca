// The shift codes 0 to 7 of the shift/rotate group, for A and for B likewise.
ghost use Rattle.std.specs.Prelude.{◌≡◌};
ghost use Rattle.word.specs.Shifts.{turned, extended, shifted, unshifted};

use crate::bits::weight_of;
use crate::values::word_value;

#[derive(Clone, Copy, Debug, PartialEq, Eq)]
pub enum ShiftCode {
    Als,
    Ars,
    Ral,
    Rar,
    Alr,
    Era,
    Ela,
    Alf,
}

#[derive(Clone, Copy, Debug, PartialEq, Eq)]
pub struct Shifted {
    pub word: u16,
    pub e: bool,
}

fn turn(code: ShiftCode, word: u16, e: bool) -> u16
    ensures { result ≡ turned code word e }
{
    match code {
        ShiftCode::Als => word & 0o100000 | word << 1 & 0o77777,
        ShiftCode::Ars => (word_value(word) >> 1).cast_unsigned(),
        ShiftCode::Ral => word.rotate_left(1),
        ShiftCode::Rar => word.rotate_right(1),
        ShiftCode::Alr => word << 1 & 0o77777,
        ShiftCode::Era => word >> 1 | weight_of(e) << 15,
        ShiftCode::Ela => word << 1 | weight_of(e),
        ShiftCode::Alf => word.rotate_left(4),
    }
}

// E after the code, enabled or not.
fn extend(code: ShiftCode, word: u16, e: bool) -> bool
    ensures { result ≡ extended code word e }
{
    match code {
        ShiftCode::Era => word & 1 != 0,
        ShiftCode::Ela => word & 0o100000 != 0,
        ShiftCode::Als
        | ShiftCode::Ars
        | ShiftCode::Ral
        | ShiftCode::Rar
        | ShiftCode::Alr
        | ShiftCode::Alf => e,
    }
}

// An enabled code.
pub fn shift(code: ShiftCode, word: u16, e: bool) -> Shifted
    ensures { result ≡ shifted code word e }
{
    Shifted {
        word: turn(code, word, e),
        e: extend(code, word, e),
    }
}

// A disabled code: ERA and ELA still give E the bit that they would rotate out.
pub fn pass(code: ShiftCode, word: u16, e: bool) -> Shifted
    ensures { result ≡ unshifted code word e }
{
    let after = extend(code, word, e);
    Shifted { word, e: after }
}
