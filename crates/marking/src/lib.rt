// Marks the open positions that have a ply to a given one. In that one the sides have changed names, so the side that moved is the opponent.
#![tactic(auto)]

ghost use Rattle.std.specs.Prelude.{◌≡◌, ◌*◌, ◌<◌, length};
ghost use Rattle.sets.specs.Sets.{bit};
ghost use Rattle.board.specs.Board.{board_of};
ghost use Rattle.rules.specs.Predecessors.{predecessors};
ghost use Rattle.masks.specs.Inner.Masks.{Masks};
ghost use Rattle.plies.specs.Inner.Positions.{Playable};
ghost use Rattle.marks.specs.Inner.Marks.{marked, places};
ghost use Rattle.returning.specs.Inner.Returning.{Returning};
ghost use Rattle.marking.specs.Inner.Stones.{may_have_moved, before_stone};

use returning::Back;

// Whether the stone at a point may have moved last.
fn may_have_moved(
    masks: &[u32; 72],
    rings: usize,
    capture: bool,
    position: board::Position,
    to: usize,
) -> bool
    requires { Playable rings masks.now position × (to < 24) }
    ensures { result ≡ may_have_moved capture rings (board_of (8 * rings) position) to }
{
    if capture {
        return plies::in_mill(rings, masks, position.opponent, to);
    }
    true
}

// Marks the positions before a ply of the stone at a point. It goes back to where it might go on to, were its side to move.
fn mark_stone(
    tablebase: &mut [u16],
    masks: &[u32; 72],
    rings: usize,
    back: Back,
    position: board::Position,
    to: usize,
)
    requires returning { Returning (length tablebase.old) rings back position }
    requires masks { Masks rings masks.now × (bit position.opponent to ≡ 1) }
    ensures { tablebase.new
        ≡ marked (places back.part.start (before_stone back.capture rings (board_of (8 * rings) position) to)) tablebase.old }
{
    if may_have_moved(masks, rings, back.capture, position, to) {
        let turned = board::Position {
            mover: position.opponent,
            opponent: position.mover,
        };
        let froms = plies::destinations(rings, masks, turned, to);
        returning::mark_origins(tablebase, rings, back, position, to, froms);
    }
}

// Marks the open positions that may have a ply to a position, in the table that has their counts: by a ply that removed a stone, or by one that
// removed none.
pub fn mark_before(
    tablebase: &mut [u16],
    masks: &[u32; 72],
    rings: usize,
    back: Back,
    position: board::Position,
)
    requires returning { Returning (length tablebase.old) rings back position }
    requires masks { Masks rings masks.now }
    ensures { tablebase.new
        ≡ marked (places back.part.start (predecessors back.capture rings (board_of (8 * rings) position))) tablebase.old }
{
    let mut left = position.opponent;
    while left != 0 {
        let to = sets::take_lowest(left);
        mark_stone(tablebase, masks, rings, back, position, to.lowest);
        left = to.rest;
    }
}
