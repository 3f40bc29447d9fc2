// The answer to one line.
#![tactic(auto)]

ghost use Rattle.std.specs.Prelude.{◌≡◌, ◌+◌, ◌≤◌, length};
ghost use Rattle.std.proofs.lemmas.List.Edits.{sets};
ghost use Rattle.text.specs.Inner.Room.{most_bytes};
ghost use Rattle.replies.specs.Replies.{board_line, answer_of};

use answers::Refusal;
use board::Position;
use text::Standing;

// Writes the line of a board.
fn put_board(tablebase: &[u16], rings: u8, board: &[u8], out: &mut [u8], at: usize) -> usize
    requires board_len_bound { length board.now ≤ 24 }
    requires most_bytes_in_bounds { at + most_bytes ≤ length out.old }
    ensures place { result ≡ at + length (board_line tablebase.now rings board.now) }
    ensures bound { result ≤ at + most_bytes }
    ensures buffer { out.new ≡ sets out.old at (board_line tablebase.now rings board.now) }
{
    let position = board::position_of(board);
    let mover = sets::count(position.mover);
    let opponent = sets::count(position.opponent);
    let rank = fields::rank_of(rings, board);
    let entry = fields::entry_of(tablebase, rings, board);
    let best = fields::move_of(tablebase, rings, board);
    let standing = Standing {
        rings: rings as u64,
        mover: mover as u64,
        opponent: opponent as u64,
        rank,
    };
    text::put_position(out, at, standing, entry, best)
}

// Writes the answer to a line.
pub fn answer_at(tablebase: &[u16], line: &[u8], out: &mut [u8], at: usize) -> usize
    requires { at + most_bytes ≤ length out.old }
    ensures place { result ≡ at + length (answer_of tablebase.now line.now) }
    ensures bound { result ≤ at + most_bytes }
    ensures buffer { out.new ≡ sets out.old at (answer_of tablebase.now line.now) }
{
    let read = frame_calls::read_frame(line);
    let Ok(frame) = read else {
        return text::put_refused(out, at, frame_calls::number_of(read) as u64);
    };
    let position = Position {
        mover: frame.mover,
        opponent: frame.opponent,
    };
    if reachability::unreachable(frame.rings, fields::DESK_EDITION, position) {
        return text::put_refused(out, at, Refusal::Unreachable.number() as u64);
    }
    let mut board = [0u8; 24];
    board::write_board(position, &mut board);
    let points = 8 * frame.rings as usize;
    put_board(tablebase, frame.rings, &board[..points], out, at)
}
