// One step, and a run of steps.
#![tactic(auto)]

pub mod run;
pub mod step;
