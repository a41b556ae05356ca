// A step from its fetch on.
#![tactic(auto)]

pub mod perform;
pub mod trap;
