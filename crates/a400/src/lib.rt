#![tactic(auto)]

pub mod calls;
pub mod fields;
pub mod record;

// What a call answers besides the replies of a step: that the call itself is bad, and that no word reads as the fields.
pub(crate) const BAD_CALL: u32 = 8;

pub(crate) const NO_WORD: u32 = 9;
