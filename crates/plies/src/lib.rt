// Plies on sets: where a stone may go, what it may remove, and whether a mover is blocked.
#![tactic(auto)]

mod blocking;
mod choices;

pub use blocking::blocked;
pub use choices::{NO_REMOVAL, destinations, in_mill, removals};
