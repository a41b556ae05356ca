// Layer 1: 16-bit words. Every public function takes all values of its types, and its promise is
// one equation to a definition in specs/.
#![tactic(auto)]

pub mod bits;
mod count;
pub mod long;
pub mod orders;
pub mod products;
pub mod shifts;
pub mod sums;
pub mod values;
