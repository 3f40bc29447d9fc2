// The board: a position as two point sets by value, from a board's bytes and back.
#![tactic(auto)]

ghost use Rattle.std.specs.Prelude.{◌≡◌, ◌≤◌, ◌<◌, length};
ghost use Rattle.board.specs.Board.{set_of, position_of, value_at, board_of, OnBoard};

// The points of the side to move, and those of the other side.
#[derive(Clone, Copy)]
pub struct Position {
    pub mover: u32,
    pub opponent: u32,
}

// The points that hold the value v.
fn set_of(board: &[u8], v: u8) -> u32
    requires { length board.now ≤ 24 }
    ensures { result ≡ set_of v board.now }
{
    let mut s: u32 = 0;
    for x in board.iter().rev() {
        s = 2 * s + (*x == v) as u32;
    }
    s
}

// A board's two sides.
pub fn position_of(board: &[u8]) -> Position
    requires { length board.now ≤ 24 }
    ensures { result ≡ position_of board.now }
{
    Position {
        mover: set_of(board, 1),
        opponent: set_of(board, 2),
    }
}

// The vacant points.
pub fn vacant(points: usize, position: Position) -> u32
    requires { (points ≤ 24) × OnBoard points position }
    ensures { result ≡ set_of 0 (board_of points position) }
{
    (1u32 << points) - 1 - position.mover - position.opponent
}

// What stands at a point.
pub fn value_at(position: Position, p: usize) -> u8
    requires { p < 24 }
    ensures { result ≡ value_at position p }
{
    sets::has(position.mover, p) as u8 + 2 * sets::has(position.opponent, p) as u8
}

// Writes a position's board over the target, of whose points there are as many as the target is long.
pub fn write_board(position: Position, target: &mut [u8])
    requires { length target.old ≤ 24 }
    ensures { target.new ≡ board_of (length target.old) position }
{
    for (i, x) in target.iter_mut().enumerate() {
        *x = value_at(position, i);
    }
}
