// Document 01's cases of moves listed and made, a printed line for each.
#![tactic(auto)]

mod boards;
mod plays;

pub use boards::three_rings;
pub use plays::run;
