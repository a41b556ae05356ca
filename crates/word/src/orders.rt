// Comparing: signed words, unsigned bytes, under the names that docs/PROMISES.md has.
ghost use Rattle.std.specs.Prelude.{◌≡◌};
ghost use Rattle.word.specs.Orders.{order_of_words, order_of_bytes};

use crate::values::word_value;
use std::cmp::Ordering;

#[tactic(auto, unfolding(crate::specs::Orders::order_of_words))]
pub fn compare_words(a: u16, b: u16) -> Ordering
    ensures { result ≡ order_of_words a b }
{
    word_value(a).cmp(&word_value(b))
}

pub fn compare_bytes(a: u8, b: u8) -> Ordering
    ensures { result ≡ order_of_bytes a b }
{
    a.cmp(&b)
}
