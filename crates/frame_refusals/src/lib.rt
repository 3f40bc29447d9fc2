// The first refusal that a frame meets before its stones are counted.
#![tactic(auto)]

ghost use Rattle.std.specs.Prelude.{◌≡◌};
ghost use Rattle.answers.specs.Answers.{met};
ghost use Rattle.refusals.specs.Refusals.{refusal};
ghost use Rattle.refusals.specs.Conditions.{frame_picks};

use answers::Refusal;

// The first refusal that a frame meets before its stones are counted.
pub fn of_frame(frame: &[u8]) -> Result<(), Refusal>
    ensures { met result ≡ refusal (frame_picks frame.now) }
{
    if frame_reading::frame_wrong(frame) {
        return Err(Refusal::Frame);
    }
    let rings = frame_reading::rings_of(frame);
    if board_refusals::rings_wrong(rings) {
        return Err(Refusal::Rings);
    }
    if frame.len() != frames::frame_length(rings) {
        return Err(Refusal::BoardLength);
    }
    // a value above 2 in two bits is a 3
    if frame_reading::points_with(frame, 3) != 0 {
        return Err(Refusal::BoardValue);
    }
    Ok(())
}
