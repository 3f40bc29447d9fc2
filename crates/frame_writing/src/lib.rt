// Frames written: the characters of a frame, over the start of a target.
#![tactic(auto)]

ghost use Rattle.std.specs.Prelude.{◌≡◌, ◌∷◌, [], ◌+◌, ◌*◌, ◌≤◌, ◌<◌, length, get_or, drop};
ghost use Rattle.std.proofs.lemmas.List.Edits.{sets};
ghost use Rattle.board.specs.Board.{Values};
ghost use Rattle.frames.specs.Frame.{frame_length, character_of, four_points, packed, spelled, frame_of};

// The character of a value.
fn character_of(d: u8) -> u8
    requires { d < 16 }
    ensures { result ≡ character_of d }
{
    if d < 10 {
        return b'0' + d;
    }
    b'a' + (d - 10)
}

// A byte as two characters.
fn write_byte(target: &mut [u8], at: usize, b: u8)
    requires { at + 2 ≤ length target.old }
    ensures { target.new ≡ sets target.old at (spelled (b ∷ [])) }
{
    target[at] = character_of(b / 16);
    target[at + 1] = character_of(b % 16);
}

// Four points as a byte, the lowest in the lowest two bits.
fn four_points(a: u8, b: u8, c: u8, d: u8) -> u8
    requires { (a ≤ 2) × (b ≤ 2) × (c ≤ 2) × (d ≤ 2) }
    ensures { result ≡ four_points a b c d }
{
    a + 4 * b + 16 * c + 64 * d
}

// The byte of the four points from i on.
fn byte_from(board: &[u8], i: usize) -> u8
    requires { (i + 4 ≤ length board.now) × Values board.now }
    ensures { result ≡ get_or (packed (drop i board.now)) 0 0 }
{
    four_points(board[i], board[i + 1], board[i + 2], board[i + 3])
}

// The points of a board of 4 × n points, after the rings.
fn write_points(board: &[u8], n: usize, target: &mut [u8])
    requires { (length board.now ≡ 4 * n) × (n ≤ 6) × Values board.now × (2 + 2 * n ≤ length target.old) }
    ensures { target.new ≡ sets target.old 2 (spelled (packed board.now)) }
{
    for k in 0..n {
        write_byte(target, 2 + 2 * k, byte_from(board, 4 * k));
    }
}

// The frame of rings and a board, over the start of the target.
pub fn write(rings: u8, board: &[u8], target: &mut [u8])
    requires { (rings ≤ 3) × (length board.now ≡ 8 * rings) × Values board.now × (frame_length rings ≤ length target.old) }
    ensures { target.new ≡ sets target.old 0 (frame_of rings board.now) }
{
    write_byte(target, 0, rings);
    write_points(board, 2 * rings as usize, target);
}
