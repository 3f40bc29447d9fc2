// A frame taken apart, before its stones are counted.
ghost use Rattle.std.specs.Prelude.{◌≡◌};
ghost use Rattle.answers.specs.Answers.{MetBy, frame_read};
ghost use Rattle.frame_calls.specs.ReadFrameCall.{taken_apart};

use answers::{Frame, Refusal};

// The position of a frame, or its refusal: 14, 1, 2, 3.
pub fn take_apart(frame: &[u8]) -> Result<Frame, Refusal>
    ensures { frame_read result ≡ taken_apart frame.now }
{
    frame_refusals::of_frame(frame)?;
    Ok(Frame {
        rings: frame_reading::rings_of(frame),
        mover: frame_reading::points_with(frame, 1),
        opponent: frame_reading::points_with(frame, 2),
    })
}

// The number of a refusal, 0 for a position: a refusal is any error that converts to its number, `Refusal` or the number itself.
pub fn number_of<E: Into<u8>>(read: Result<Frame, E>) -> u8
    ensures { MetBy E.converts read result }
{
    match read {
        Ok(_) => 0,
        Err(refusal) => refusal.into(),
    }
}
