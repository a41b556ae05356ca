// The listing of an input that is not whole pages: a page less its last byte.
#![tactic(auto)]

use std::io;

fn main(rt: HostRuntime) -> io::Result<()> {
    list::show::list_input(&rt)
}
