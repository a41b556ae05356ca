// Words and bytes, single and in strings, and the masks.
#![tactic(auto)]

pub mod moves;
pub mod strings;
