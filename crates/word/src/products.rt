// MPY and DIV on signed values.
ghost use Rattle.std.specs.Prelude.{◌≡◌, ◌≢◌, true, pos, if◌then◌else◌, int_div, Some, None};
ghost use Rattle.std.specs.Int.{w16, w32};
ghost use Rattle.word.specs.Signed.{bits_of, within};
ghost use Rattle.word.specs.Products.{multiplied, quotient_of, divided};

use crate::values::{double_bits, double_value, join, split, word_value};

#[derive(Clone, Copy, Debug, PartialEq, Eq)]
pub struct Product {
    pub b: u16,
    pub a: u16,
}

#[derive(Clone, Copy, Debug, PartialEq, Eq)]
pub struct Quotient {
    pub quotient: u16,
    pub remainder: u16,
}

#[tactic(auto, unfolding(crate::specs::Products::multiplied))]
pub fn multiply(a: u16, m: u16) -> Product
    ensures { result ≡ multiplied a m }
{
    let product = i32::from(word_value(a)) * i32::from(word_value(m));
    let (b, a) = split(double_bits(product));
    Product { b, a }
}

// The word of a value, if it has one.
fn word_of(z: i32) -> Option<u16>
    ensures { result ≡ (if within w16 z then Some (bits_of w16 z) else None) }
{
    i16::try_from(z).ok().map(i16::cast_unsigned)
}

// The division proper: one machine division gives the quotient and the remainder, where checked_div beside `%` takes two.
fn division(z: i32, k: i16) -> Option<Quotient>
    requires divisor { k ≢ pos 0 }
    requires fits { within w32 (int_div z k) ≡ true }
    ensures { result ≡ (if within w16 (int_div z k) then quotient_of z k else None) }
{
    let divisor = i32::from(k);
    let quotient = word_of(z / divisor)?;
    let remainder = (z % divisor) as i16;
    Some(Quotient {
        quotient,
        remainder: remainder.cast_unsigned(),
    })
}

// None where the divisor is 0 or the quotient is no word's value. The double word -2,147,483,648 by
// -1 is met before any division is tried.
#[tactic(auto, unfolding(crate::specs::Products::divided))]
pub fn divide(b: u16, a: u16, m: u16) -> Option<Quotient>
    ensures { result ≡ divided b a m }
{
    let d = join(b, a);
    if m == 0 || m == 0o177777 && d == 0x8000_0000 {
        return None;
    }
    division(double_value(d), word_value(m))
}
