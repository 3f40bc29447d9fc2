// The program `desk` (document 01, "Frames"). It is run on the sample there, whose last line has no line feed.
#![tactic(auto)]

use std::io;

fn main(rt: HostRuntime) -> io::Result<()> {
    session::run(&rt)
}
