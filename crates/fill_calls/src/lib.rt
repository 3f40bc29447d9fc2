// A tablebase filled whole, or a pair of its tables.
#![tactic(auto)]

mod pair;
mod whole;

pub use pair::fill_pair;
pub use whole::fill;
