// Move numbers: that of a slide, whether a number is a listed move, and the position after a move that can be made.
#![tactic(auto)]

ghost use Rattle.std.specs.Prelude.{◌≡◌, ◌+◌, ◌*◌, ◌<◌};
ghost use Rattle.lists.specs.Lists.{member};
ghost use Rattle.board.specs.Board.{position_of, board_of};
ghost use Rattle.rules.specs.Ply.{removable, moves, after_ply};
ghost use Rattle.rules.specs.Inner.Making.{Makeable};
ghost use Rattle.plies.specs.Inner.Positions.{Placed, Playable};

// A move number is FROM × from + TO × to + removed, where to and removed are below TO.
const FROM: usize = 1024;

const TO: usize = 32;

// The number of a slide: a move adds what it removes.
pub fn slide_number(from: usize, to: usize) -> usize
    requires { (from < 24) × (to < 24) }
    ensures { result ≡ 1024 * from + 32 * to }
{
    FROM * from + TO * to
}

// Whether a number is one of a position's moves under an edition: its stone, its destination and its removal are each tested.
pub fn is_move(
    rings: usize,
    edition: u8,
    masks: &[u32; 72],
    position: board::Position,
    number: usize,
) -> bool
    requires { Playable rings masks.now position }
    ensures { result ≡ member number (moves (removable edition) rings (board_of (8 * rings) position)) }
{
    let from = number / FROM;
    let to = number / TO % TO;
    if 24 <= from {
        return false;
    }
    let mover = position.mover;
    if sets::has(mover, from) {
        if sets::has(plies::destinations(rings, masks, position, from), to) {
            return sets::has(
                plies::removals(rings, edition, masks, position, from, to),
                number % TO,
            );
        }
    }
    false
}

// The position after a move, whatever rule allows it: the stone slides, a stone may be removed, and the sides change names.
pub fn after_ply(rings: usize, position: board::Position, number: usize) -> board::Position
    requires placed { Placed rings position }
    requires makeable { Makeable rings (board_of (8 * rings) position) number }
    ensures { result ≡ position_of (after_ply (board_of (8 * rings) position) number) }
{
    let mover = position.mover;
    let opponent = position.opponent;
    board::Position {
        mover: sets::without(opponent, number % TO),
        opponent: sets::with(sets::without(mover, number / FROM), number / TO % TO),
    }
}
