// Frames read: what is wrong with a frame's characters, its rings, and the points that hold a value.
#![tactic(auto)]

ghost use Rattle.std.specs.Prelude.{◌≡◌, false, ◌∷◌, [], ◌+◌, ◌*◌, ◌≤◌, ◌<◌, length, get_or};
ghost use Rattle.board.specs.Board.{digit, set_of};
ghost use Rattle.frames.specs.Frame.{outside, any_outside, frame_wrong, frame_length, value_of, byte_of, points_in, rings_in, board_in};

// The most characters that are read.
const MOST_CHARACTERS: usize = 64;

// A character outside 0-9 a-f.
fn outside(c: u8) -> bool
    ensures { result ≡ outside c }
{
    (c < b'0') | ((b'9' < c) & (c < b'a')) | (b'f' < c)
}

// Some character outside 0-9 a-f.
fn any_outside(frame: &[u8]) -> bool
    ensures { result ≡ any_outside frame.now }
{
    frame.iter().any(|c| outside(*c))
}

// Empty, over 64 characters, odd length, or a character outside 0-9 a-f.
pub fn frame_wrong(frame: &[u8]) -> bool
    ensures { result ≡ frame_wrong frame.now }
{
    let n = frame.len();
    if (n == 0) | (MOST_CHARACTERS < n) | (n % 2 == 1) {
        return true;
    }
    any_outside(frame)
}

// The value of a character of 0-9 a-f.
fn value_of(c: u8) -> u8
    requires { outside c ≡ false }
    ensures { (result ≡ value_of c) × (result < 16) }
{
    if c < b'a' {
        return c - b'0';
    }
    10 + (c - b'a')
}

// The byte whose two characters start at i.
fn byte_at(frame: &[u8], i: usize) -> u8
    requires { (i + 2 ≤ length frame.now) × (any_outside frame.now ≡ false) }
    ensures { result ≡ byte_of (get_or frame.now i 0) (get_or frame.now (i + 1) 0) }
{
    16 * value_of(frame[i]) + value_of(frame[i + 1])
}

// The rings of a frame whose characters are right.
pub fn rings_of(frame: &[u8]) -> u8
    requires { frame_wrong frame.now ≡ false }
    ensures { result ≡ rings_in frame.now }
{
    byte_at(frame, 0)
}

// A set of four points, the lowest first.
fn four_set(a: bool, b: bool, c: bool, d: bool) -> u32
    ensures { (result ≡ digit a + 2 * digit b + 4 * (digit c + 2 * digit d)) × (result < 16) }
{
    a as u32 + 2 * b as u32 + 4 * (c as u32 + 2 * d as u32)
}

// Which of a byte's four points hold the value v.
fn four_with(b: u8, v: u8) -> u32
    ensures { (result ≡ set_of v (points_in (b ∷ []))) × (result < 16) }
{
    four_set(b % 4 == v, b / 4 % 4 == v, b / 16 % 4 == v, b / 64 % 4 == v)
}

// The points of a frame that hold the value v.
pub fn points_with(frame: &[u8], v: u8) -> u32
    requires { (frame_wrong frame.now ≡ false) × (length frame.now ≤ frame_length 3) }
    ensures { result ≡ set_of v (board_in frame.now) }
{
    let mut s: u32 = 0;
    for i in (1..frame.len() / 2).rev() {
        s = 16 * s + four_with(byte_at(frame, 2 * i), v);
    }
    s
}
