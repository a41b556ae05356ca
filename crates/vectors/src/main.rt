// Vectors of the step and the run. Two modules have theirs in code; all others are the lines of the
// file stdin, whose comments say where the expected lines of the file stdout come from.
#![tactic(auto)]

mod all_or_nothing;
mod line;
mod overlap;
mod show;
mod start;
mod state;
mod text;

use std::io;

fn main(rt: HostRuntime) -> io::Result<()> {
    overlap::run(&rt)?;
    all_or_nothing::run(&rt)?;
    text::run_all(&rt)
}
