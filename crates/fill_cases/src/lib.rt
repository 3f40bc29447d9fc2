// Document 01's cases of tablebases filled, a printed line for each.
#![tactic(auto)]

mod fills;
mod sums;

pub use fills::{make_up, put, run};
pub use sums::{DRAW_ENTRY, VOID_ENTRY, contents};
