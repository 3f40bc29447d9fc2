// What the entries of a position's successors under an edition say of it: whether they give it a depth, which one, and whether one of them is void.
#![tactic(auto)]

mod successors;

ghost use Rattle.std.specs.Prelude.{◌≡◌, ◌*◌, ◌<◌, eqb, length};
ghost use Rattle.lists.specs.Lists.{any};
ghost use Rattle.board.specs.Board.{count, board_of};
ghost use Rattle.rules.specs.Ply.{removable, successors};
ghost use Rattle.masks.specs.Inner.Masks.{Masks};
ghost use Rattle.game.specs.Game.{void_entry};
ghost use Rattle.game.specs.Judgement.{hit, decided};
ghost use Rattle.probing.specs.Inner.Probes.{probe};
ghost use Rattle.probing.specs.Inner.Conditions.{Probing};

use asking::{NOT_WON, Question};
pub use successors::some_successor;
use tables::Starts;

// The key of void, and of a draw.
const VOID_KEY: u32 = NOT_WON + parts::VOID_WIDE;

const DRAW_KEY: u32 = VOID_KEY + 1;

// Above all keys.
const END: u32 = DRAW_KEY + 1;

// Whether the successors' entries give a position a depth: an odd one where some successor is lost in one ply less, an even one where all are won in
// fewer.
pub fn hits(
    tablebase: &[u16],
    masks: &[u32; 72],
    rings: usize,
    edition: u8,
    starts: Starts,
    level: u32,
    position: board::Position,
) -> bool
    requires probing { Probing (length tablebase.now) rings starts position }
    requires masks { Masks rings masks.now × (level < void_entry) }
    ensures { result ≡ hit (successors (removable edition) rings)
        (λ b. probe tablebase.now starts.same starts.fewer (count 2 (board_of (8 * rings) position)) b) level (board_of
        (8 * rings) position) }
{
    if level % 2 == 1 {
        let high = NOT_WON + level;
        let low = high - 1;
        let lost = Question {
            edition: edition,
            starts: starts,
            low: low,
            high: high,
        };
        return some_successor(tablebase, masks, rings, lost, position);
    }
    let later = Question {
        edition: edition,
        starts: starts,
        low: level,
        high: END,
    };
    !some_successor(tablebase, masks, rings, later, position)
}

// Whether they give it some depth: one is lost, or all are won.
pub fn decided(
    tablebase: &[u16],
    masks: &[u32; 72],
    rings: usize,
    edition: u8,
    starts: Starts,
    position: board::Position,
) -> bool
    requires probing { Probing (length tablebase.now) rings starts position }
    requires masks { Masks rings masks.now }
    ensures { result ≡ decided (successors (removable edition) rings)
        (λ b. probe tablebase.now starts.same starts.fewer (count 2 (board_of (8 * rings) position)) b) (board_of (8 * rings) position) }
{
    let lost = Question {
        edition: edition,
        starts: starts,
        low: NOT_WON,
        high: VOID_KEY,
    };
    if some_successor(tablebase, masks, rings, lost, position) {
        return true;
    }
    let other = Question {
        edition: edition,
        starts: starts,
        low: parts::VOID_WIDE,
        high: END,
    };
    !some_successor(tablebase, masks, rings, other, position)
}

// Whether some successor's entry is void.
pub fn void_after(
    tablebase: &[u16],
    masks: &[u32; 72],
    rings: usize,
    edition: u8,
    starts: Starts,
    position: board::Position,
) -> bool
    requires probing { Probing (length tablebase.now) rings starts position }
    requires masks { Masks rings masks.now }
    ensures { result ≡ any (λ b. eqb (probe tablebase.now starts.same starts.fewer (count 2 (board_of
        (8 * rings) position)) b) void_entry)
        (successors (removable edition) rings (board_of (8 * rings) position)) }
{
    let void = Question {
        edition: edition,
        starts: starts,
        low: VOID_KEY,
        high: DRAW_KEY,
    };
    some_successor(tablebase, masks, rings, void, position)
}
