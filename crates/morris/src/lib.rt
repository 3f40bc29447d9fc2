// Tablebases of Nine Men's Morris: the public calls.
//
// Every call answers on every input: its result, or the first refusal that it meets (document 01's table, with 20 of document 02
// after 1), and then each lent buffer is as the table says. `docs/PROMISES.md` says which sentence of the papers each contract states.
//
// The calls on moves, fills, entries and certificates take the rules edition after `rings`. Under both editions a closed mill removes an opposing
// stone outside any mill; if all stand in mills, under edition 1 any one, under edition 2 nothing.
#![tactic(auto)]

// Refusals, with their numbers.
pub use answers::Refusal;

// Ranks. `rank` gives the rank of a board of 8 × rings bytes. `unrank` writes the board of a rank among those of given counts.
pub use rank_calls::{rank, unrank};

// Moves, under an edition. `moves` lists a board's moves, those with a removal by rising number, then the others by rising number. `make_move`
// writes the board after a listed move.
pub use move_calls::{make_move, moves};

// Classes. `representative` gives the rank of the representative of a board's class.
pub use class_calls::representative;

// Fills, under an edition. `fill` fills a tablebase: at each place the plies to the end, or draw. `fill_pair` fills the tables of two counts, either
// way round, over the entries of their lower tables.
pub use fill_calls::{fill, fill_pair};

// Entries. `lookup` gives the entry of a board in a tablebase: it means the outcome under the edition with which the tablebase was filled. `best_move`
// gives its best move under an edition, by the entries of its successors. What is read under another edition than the tablebase was filled with
// carries no claim.
pub use answers::BestMove;
pub use entry_calls::{best_move, lookup};

// Certificates. `check` says whether a tablebase, whoever made it, holds the outcome of every position under an edition: it gives the first index that
// fails, or none.
pub use check_calls::check;

// Frames. `read_frame` gives the position of a frame. `number_of` gives the number in what it answered, 0 for a position. `write_frame` writes rings and
// a board as a frame.
pub use answers::Frame;
pub use frame_calls::{number_of, read_frame, write_frame};
