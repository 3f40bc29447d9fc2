// Document 01's cases of classes and frames, a printed line for each.
#![tactic(auto)]

mod classes;
mod frame_cases;

use std::io;

pub fn run(rt: &impl Print) -> io::Result<()> {
    classes::run(rt)?;
    frame_cases::run(rt)
}
