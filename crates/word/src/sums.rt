// Adding with carry and overflow, and sums that keep the 15 bits of an address.
ghost use Rattle.std.specs.Prelude.{◌≡◌};
ghost use Rattle.word.specs.Sums.{sum, incremented, decremented, address};

use crate::values::word_value;

#[derive(Clone, Copy, Debug, PartialEq, Eq)]
pub struct Sum {
    pub word: u16,
    // out of bit 15
    pub carry: bool,
    // signed
    pub overflow: bool,
}

#[tactic(auto, unfolding(crate::specs::Sums::sum))]
pub fn add(a: u16, b: u16) -> Sum
    ensures { result ≡ sum a b }
{
    let (word, carry) = a.overflowing_add(b);
    let (_, overflow) = word_value(a).overflowing_add(word_value(b));
    Sum {
        word,
        carry,
        overflow,
    }
}

pub fn increment(word: u16) -> Sum
    ensures { result ≡ incremented word }
{
    add(word, 1)
}

pub fn decrement(word: u16) -> Sum
    ensures { result ≡ decremented word }
{
    add(word, 0o177777)
}

// The address n words past a.
pub fn past(a: u16, n: u16) -> u16
    ensures { result ≡ address a n }
{
    a.wrapping_add(n) % 0o100000
}
