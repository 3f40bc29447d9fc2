// The session of `desk` once more, on many lines: each refusal that a line can meet, the lengths about 64 characters, bytes of every kind, lines of several
// blocks, boards of each number of rings, and every board of the one-ring tablebase. The last line ends with a line feed.
#![tactic(auto)]

use std::io;

fn main(rt: HostRuntime) -> io::Result<()> {
    session::run(&rt)
}
