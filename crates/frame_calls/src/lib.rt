// Frames, read and written.
#![tactic(auto)]

mod reader;

ghost use Rattle.std.specs.Prelude.{◌≡◌};
ghost use Rattle.answers.specs.Answers.{frame_read, frame_written};
ghost use Rattle.frame_calls.specs.ReadFrameCall.{read_frame_call};
ghost use Rattle.frame_calls.specs.WriteFrameCall.{write_frame_call, write_frame_target};

use answers::{Frame, Refusal};
pub use reader::number_of;

// Reads a frame: the rings, the points of the side to move, those of the other side. Refusals: 14, 1, 2, 3, 4.
pub fn read_frame(frame: &[u8]) -> Result<Frame, Refusal>
    ensures { frame_read result ≡ read_frame_call frame.now }
{
    let read = reader::take_apart(frame);
    // not `?`: "take the reader's enum apart by let .. else and leave with the refusal number" (document 01)
    let Ok(position) = read else {
        return read;
    };
    if board_refusals::sides_wrong(8 * position.rings as u32, position.mover, position.opponent) {
        return Err(Refusal::Counts);
    }
    Ok(position)
}

// Writes rings and a board as a frame over the start of the target: 6, 10 or 14 characters. Refusals: 1, 2, 3, 4, 7.
pub fn write_frame(rings: u8, board: &[u8], target: &mut [u8]) -> Result<usize, Refusal>
    ensures answer { frame_written result ≡ write_frame_call rings board.now target.old }
    ensures target { target.new ≡ write_frame_target rings board.now target.old }
{
    board_refusals::of_board(rings, board)?;
    let length = frames::frame_length(rings);
    if target.len() < length {
        return Err(Refusal::ShortTarget);
    }
    frame_writing::write(rings, board, target);
    Ok(length)
}
