// A question to a position's successors: the entries that are asked for, and whether some move of a slide or of a stone leads to one.
#![tactic(auto)]

mod ranges;
mod slides;

pub use ranges::{NOT_WON, Question, asked};
pub use slides::{Stone, some_removal, some_slide};
