// Whether an entry is right by the entries of a position's successors under an edition: a question after the other, and no further than the first that
// settles it.
#![tactic(auto)]

ghost use Rattle.std.specs.Prelude.{◌≡◌, map, ◌*◌, ◌<◌, length};
ghost use Rattle.board.specs.Board.{count, board_of};
ghost use Rattle.rules.specs.Ply.{removable, successors};
ghost use Rattle.masks.specs.Inner.Masks.{Masks};
ghost use Rattle.game.specs.Game.{void_entry};
ghost use Rattle.probing.specs.Inner.Probes.{probe};
ghost use Rattle.probing.specs.Inner.Conditions.{Probing};
ghost use Rattle.certificate.specs.Right.{right};

use asking::{NOT_WON, Question};
use judging::some_successor;
use parts::{DRAW, VOID};
use tables::Starts;

// Whether a depth is right: some successor is lost in one ply less and none in fewer, or all are won and the slowest in one ply less; 0 where the mover
// is blocked.
fn depth_right(
    tablebase: &[u16],
    masks: &[u32; 72],
    rings: usize,
    edition: u8,
    starts: Starts,
    depth: u32,
    position: board::Position,
) -> bool
    requires probing { Probing (length tablebase.now) rings starts position }
    requires masks { Masks rings masks.now × (depth < void_entry) }
    ensures { result ≡ right depth (map (λ b. probe tablebase.now starts.same starts.fewer (count 2 (board_of (8 * rings) position)) b)
        (successors (removable edition) rings (board_of (8 * rings) position))) }
{
    if !judging::hits(tablebase, masks, rings, edition, starts, depth, position) {
        return false;
    }
    if depth < 2 {
        return true;
    }
    if depth % 2 == 1 {
        let level = NOT_WON + depth;
        let high = level - 1;
        let quicker = Question {
            edition: edition,
            starts: starts,
            low: NOT_WON,
            high: high,
        };
        return !some_successor(tablebase, masks, rings, quicker, position);
    }
    let low = depth - 1;
    let slowest = Question {
        edition: edition,
        starts: starts,
        low: low,
        high: depth,
    };
    some_successor(tablebase, masks, rings, slowest, position)
}

// Whether an entry is right at a position.
pub fn right(
    tablebase: &[u16],
    masks: &[u32; 72],
    rings: usize,
    edition: u8,
    starts: Starts,
    entry: u16,
    position: board::Position,
) -> bool
    requires probing { Probing (length tablebase.now) rings starts position }
    requires masks { Masks rings masks.now }
    ensures { result ≡ right entry (map (λ b. probe tablebase.now starts.same starts.fewer (count 2 (board_of (8 * rings) position)) b)
        (successors (removable edition) rings (board_of (8 * rings) position))) }
{
    if entry == DRAW {
        return !judging::decided(tablebase, masks, rings, edition, starts, position);
    }
    if entry == VOID {
        return false;
    }
    depth_right(
        tablebase,
        masks,
        rings,
        edition,
        starts,
        entry as u32,
        position,
    )
}
