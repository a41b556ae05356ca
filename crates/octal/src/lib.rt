// A word as six octal digits, and a bit as one: their bytes, and how they print; and standard input by whole buffers.
#![tactic(auto)]

pub mod input;

ghost use Rattle.std.specs.Prelude.{◌≡◌, [], ◌∷◌, Some};
ghost use Rattle.octal.specs.Digits.{octal_digits, bit_digit};

use std::fmt;

// The digits as bytes, as `Octal` and `Bit` print them: docs/PROMISES.md has both with their theorems.

pub fn word_digits(w: u16) -> [u8; 6]
    ensures { result ≡ octal_digits w }
{
    [
        b'0' + (w / 0o100000 % 8) as u8,
        b'0' + (w / 0o10000 % 8) as u8,
        b'0' + (w / 0o1000 % 8) as u8,
        b'0' + (w / 0o100 % 8) as u8,
        b'0' + (w / 0o10 % 8) as u8,
        b'0' + (w % 8) as u8,
    ]
}

// The byte that a Bit prints.
pub fn bit_digit(b: bool) -> u8
    ensures { result ≡ bit_digit b }
{
    if b { b'1' } else { b'0' }
}

// A word that prints as its six octal digits.
#[derive(Clone, Copy, Debug, PartialEq, Eq)]
pub struct Octal(pub u16);

impl fmt::Display for Octal {
    ghost output = { λ word. Some (octal_digits word.0) };

    #[tactic(auto, using(crate::proofs::Texts::octal_text))]
    fn fmt<W: fmt::Write>(&self, f: &mut fmt::Formatter<W>) -> fmt::Result {
        let word = self.0;
        write!(f, "{word:06o}")
    }
}

// A bit that prints as its digit.
#[derive(Clone, Copy, Debug, PartialEq, Eq)]
pub struct Bit(pub bool);

impl fmt::Display for Bit {
    ghost output = { λ bit. Some (bit_digit bit.0 ∷ []) };

    #[tactic(auto, using(crate::proofs::Texts::bit_text))]
    fn fmt<W: fmt::Write>(&self, f: &mut fmt::Formatter<W>) -> fmt::Result {
        write!(f, "{}", u8::from(self.0))
    }
}
