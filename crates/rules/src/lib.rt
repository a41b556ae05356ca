// What a word asks for, apart from registers and memory.
#![tactic(auto)]

pub mod actions;
pub mod memory;
