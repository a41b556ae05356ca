// The listing of the image on standard input. The three listings are a crate each, as a crate is run on one input.
#![tactic(auto)]

use std::io;

fn main(rt: HostRuntime) -> io::Result<()> {
    list::show::list_input(&rt)
}
