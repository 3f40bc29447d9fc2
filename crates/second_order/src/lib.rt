// Where positions stand, for the second solver: the points of a board, and document 01's order of boards and tables.
//
// A board is 24 bytes; neighbours and mills are arithmetics on ring and place. A rank is counted, as the paper words it, with no formula for numbers of
// boards; the positions of a tablebase are gone through in order, so that none is made from its place.
#![tactic(auto)]

mod boards;
mod points;
mod positions;
mod ranks;
mod tables;

pub use points::{Board, adjoin};
pub use positions::{Position, Positions};
pub use tables::Tables;
