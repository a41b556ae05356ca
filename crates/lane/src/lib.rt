// The frequent steps of a run. Each gives what the general step gives, or is left to it with nothing changed: None.
#![tactic(auto)]

pub mod codes;
pub mod group;
pub mod lane;
pub mod references;
