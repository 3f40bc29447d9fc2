// Frames: rings and a board as a line of characters. Definitions, laws and the length; frames are read and written in `frame_reading` and
// `frame_writing`.
#![tactic(auto)]

ghost use Rattle.std.specs.Prelude.{◌≡◌};
ghost use Rattle.frames.specs.Frame.{frame_length};

// How many characters a frame has: 6, 10, 14.
pub fn frame_length(rings: u8) -> usize
    ensures { result ≡ frame_length rings }
{
    2 + 4 * rings as usize
}
