// The session of `desk` once more, on empty input: the header alone.
#![tactic(auto)]

use std::io;

fn main(rt: HostRuntime) -> io::Result<()> {
    session::run(&rt)
}
