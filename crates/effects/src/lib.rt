// What instructions do with a word at an address, and with registers alone.
#![tactic(auto)]

pub mod group;
pub mod ways;
