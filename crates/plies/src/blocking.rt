// Whether a mover has no move, by where its stones may go alone.
ghost use Rattle.std.specs.Prelude.{◌≡◌, ◌*◌};
ghost use Rattle.board.specs.Board.{board_of};
ghost use Rattle.rules.specs.Ply.{blocked};
ghost use Rattle.plies.specs.Inner.Positions.{Playable};

use super::choices;

// Whether a position has no move, under any edition: none of the mover's stones can go anywhere. The first stone most often can, so the rest is made
// after the test.
pub fn blocked(rings: usize, masks: &[u32; 72], position: board::Position) -> bool
    requires { Playable rings masks.now position }
    ensures { result ≡ blocked rings (board_of (8 * rings) position) }
{
    let mut left = position.mover;
    while left != 0 {
        let from = sets::lowest(left);
        if choices::destinations(rings, masks, position, from) != 0 {
            return false;
        }
        left = sets::without(left, from);
    }
    true
}
