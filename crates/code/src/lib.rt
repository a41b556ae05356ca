// The extended codes, the choices of an instruction's fields, and every word read as one instruction and written back.
#![tactic(auto)]

pub mod choices;
pub mod codes;
pub mod instructions;
