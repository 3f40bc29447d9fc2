// Images of positions, as sets.
#![tactic(auto)]

mod positions;
mod rings;
mod table;

pub use positions::{image_of, image_set};
