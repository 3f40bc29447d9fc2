// Marks the open positions before a ply of one stone to a given position, by the points that it may have come from. In that position the sides have
// changed names, so the stone is the opponent's.
#![tactic(auto)]

ghost use Rattle.std.specs.Prelude.{◌≡◌, ◌*◌, length};
ghost use Rattle.lists.specs.Lists.{each};
ghost use Rattle.sets.specs.Sets.{bit, elements};
ghost use Rattle.board.specs.Board.{board_of};
ghost use Rattle.rules.specs.Predecessors.{restored};
ghost use Rattle.marks.specs.Inner.Marks.{marked, places};
ghost use Rattle.marks.specs.Inner.Putting.{VacantAt, VacantAll};
ghost use Rattle.returning.specs.Inner.Returning.{Returning};

use parts::Part;

// Where the positions before a ply stand, and whether that ply removed a stone.
#[derive(Clone, Copy)]
pub struct Back {
    pub part: Part,
    pub capture: bool,
}

// Marks the positions in which the stone at one point stood at another; where a stone was removed, with that stone at each other vacant point.
fn mark_origin(
    tablebase: &mut [u16],
    rings: usize,
    back: Back,
    position: board::Position,
    to: usize,
    from: usize,
)
    requires returning { Returning (length tablebase.old) rings back position }
    requires to_value { (bit position.opponent to ≡ 1) × VacantAt rings position from }
    ensures { tablebase.new
        ≡ marked (places back.part.start (restored back.capture rings (board_of (8 * rings) position) to from)) tablebase.old }
{
    let moved = sets::with(sets::without(position.opponent, to), from);
    let before = board::Position {
        mover: moved,
        opponent: position.mover,
    };
    if back.capture {
        let vacant = sets::without(board::vacant(8 * rings, position), from);
        marks::mark_put(tablebase, rings, back.part, before, true, vacant);
    } else {
        marks::mark_position(tablebase, rings, back.part, before);
    }
}

// Marks the positions in which the stone at one point stood at any of some vacant points, one after the other.
fn mark_each_origin(
    tablebase: &mut [u16],
    rings: usize,
    back: Back,
    position: board::Position,
    to: usize,
    froms: u32,
)
    requires returning { Returning (length tablebase.old) rings back position }
    requires to_value { (bit position.opponent to ≡ 1) × VacantAll rings position froms }
    ensures { tablebase.new
        ≡ marked (places back.part.start (each (λ from. restored back.capture rings (board_of (8 * rings) position) to from)
        (elements 32 froms))) tablebase.old }
{
    let mut left = froms;
    while left != 0 {
        let from = sets::take_lowest(left);
        mark_origin(tablebase, rings, back, position, to, from.lowest);
        left = from.rest;
    }
}

// Marks the positions in which the stone at one point stood at any of some vacant points.
pub fn mark_origins(
    tablebase: &mut [u16],
    rings: usize,
    back: Back,
    position: board::Position,
    to: usize,
    froms: u32,
)
    requires returning { Returning (length tablebase.old) rings back position }
    requires to_value { (bit position.opponent to ≡ 1) × VacantAll rings position froms }
    ensures { tablebase.new
        ≡ marked (places back.part.start (each (λ from. restored back.capture rings (board_of (8 * rings) position) to from)
        (elements 32 froms))) tablebase.old }
{
    if back.capture | (sets::count(froms) <= inserting::WALK_PAYS_ABOVE) {
        mark_each_origin(tablebase, rings, back, position, to, froms);
    } else {
        let lifted = board::Position {
            mover: sets::without(position.opponent, to),
            opponent: position.mover,
        };
        marks::mark_put(tablebase, rings, back.part, lifted, false, froms);
    }
}
