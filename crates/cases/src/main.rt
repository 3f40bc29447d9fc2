// Runs document 01's cases and prints a line for each: the call, its arguments, then what it answered. What is printed is compared with the file
// `stdout`; nothing of it is proved.
#![tactic(auto)]

use std::io;

fn main(rt: HostRuntime) -> io::Result<()> {
    rank_cases::run(&rt)?;
    play_cases::run(&rt)?;
    board_cases::run(&rt)?;
    fill_cases::run(&rt)?;
    entry_cases::run(&rt)?;
    agreement_cases::run(&rt)?;
    check_cases::run(&rt)
}
