// What the second solver goes over a tablebase with: the pass that counts plies, and the waves back from a depth.
#![tactic(auto)]

mod backwards;
mod plies;

pub use backwards::wave;
pub use plies::{Edition, Filling, open};
