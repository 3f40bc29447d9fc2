// What the calls answer: a result, or the refusal that they meet.
#![tactic(auto)]

ghost use Rattle.std.specs.Prelude.{◌≡◌};
ghost use Rattle.answers.specs.Answers.{refusal_number};

use std::error::Error;
use std::fmt;

// Why a call is turned back: the conditions of document 01's table, and of document 02 15 and 20, each with its number.
#[derive(Clone, Copy, Debug, PartialEq, Eq)]
pub enum Refusal {
    // not 1, 2 or 3
    Rings = 1,
    // length of a board or a frame
    BoardLength = 2,
    // a value above 2
    BoardValue = 3,
    // a count outside 3 to 9, or a sum above the points
    Counts = 4,
    // not below the size
    Rank = 5,
    // length of a tablebase or a target board not exact
    InexactLength = 6,
    // a list or a frame target shorter than what it is to hold
    ShortTarget = 7,
    // not a listed move
    Move = 8,
    // best move sought, mover blocked
    Blocked = 9,
    // above 65,533
    Limit = 10,
    // K outside 3 to 9, or a count above K
    Largest = 11,
    // void in an entry read
    VoidRead = 12,
    // a forced end beyond the limit
    TooDeep = 13,
    // characters or length of no frame
    Frame = 14,
    // a position that no game reaches
    Unreachable = 15,
    // not 1 or 2
    Edition = 20,
}

impl Refusal {
    // Its number in the papers.
    pub fn number(self) -> u8
        ensures { result ≡ refusal_number self }
    {
        self as u8
    }
}

// The same by `into`, so that what takes any error with a number takes a refusal.
impl From<Refusal> for u8 {
    ghost from_gives = { λ r n. n ≡ refusal_number r };

    fn from(refusal: Refusal) -> u8 {
        refusal.number()
    }
}

impl fmt::Display for Refusal {
    fn fmt<W: fmt::Write>(&self, f: &mut fmt::Formatter<W>) -> fmt::Result {
        f.write_str(match self {
            Refusal::Rings => "rings not 1, 2 or 3",
            Refusal::BoardLength => "board or frame of another length than its rings have",
            Refusal::BoardValue => "board value above 2",
            Refusal::Counts => "stone count outside 3 to 9, or more stones than points",
            Refusal::Rank => "rank not below the size of the table",
            Refusal::InexactLength => "tablebase or target board of another length",
            Refusal::ShortTarget => "target too short",
            Refusal::Move => "not a listed move",
            Refusal::Blocked => "mover blocked",
            Refusal::Limit => "limit above 65,533 plies",
            Refusal::Largest => "largest count outside 3 to 9, or below a stone count",
            Refusal::VoidRead => "void entry read",
            Refusal::TooDeep => "a forced end beyond the limit",
            Refusal::Frame => "not a frame",
            Refusal::Unreachable => "position that no game reaches",
            Refusal::Edition => "edition not 1 or 2",
        })
    }
}

impl Error for Refusal {}

// A best move, and the entry of the successor that it leads to.
#[derive(Clone, Copy, Debug, PartialEq, Eq)]
pub struct BestMove {
    pub number: u16,
    pub entry: u16,
}

// The position of a frame: the points of the side to move, and those of the other side.
#[derive(Clone, Copy, Debug, PartialEq, Eq)]
pub struct Frame {
    pub rings: u8,
    pub mover: u32,
    pub opponent: u32,
}
