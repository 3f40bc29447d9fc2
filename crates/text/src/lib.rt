// Numbers in base ten and the lines that `desk` prints, written into a lent buffer from a place on. Each function answers the place after what it
// wrote; a line takes 126 bytes at most. A field of a line is a number, or `-` for none.
#![tactic(auto)]

ghost use Rattle.std.specs.Prelude.{◌≡◌, ◌+◌, ◌≤◌, length};
ghost use Rattle.std.proofs.lemmas.List.Edits.{sets};
ghost use Rattle.io.specs.Counts.{IsPrefixLen};
ghost use Rattle.text.specs.Text.{decimal, item, position_line, refused_line, header};
ghost use Rattle.text.specs.Inner.Room.{most_bytes};

// The table that a position stands in, and its rank there.
#[derive(Clone, Copy)]
pub struct Standing {
    pub rings: u64,
    pub mover: u64,
    pub opponent: u64,
    pub rank: u64,
}

// Writes bytes as they are.
fn put(out: &mut [u8], at: usize, bytes: &[u8]) -> usize
    requires { at + length bytes.now ≤ length out.old }
    ensures place { result ≡ at + length bytes.now }
    ensures buffer { out.new ≡ sets out.old at bytes.now }
{
    for i in 0..bytes.len() {
        out[at + i] = bytes[i];
    }
    at + bytes.len()
}

// Writes a number in base ten.
fn put_decimal(out: &mut [u8], at: usize, n: u64) -> usize
    requires { at + 20 ≤ length out.old }
    ensures place { result ≡ at + length (decimal n) }
    ensures bound { result ≤ at + 20 }
    ensures buffer { out.new ≡ sets out.old at (decimal n) }
{
    let mut digits = [0u8; 20];
    let count = io::decimal(n, &mut digits);
    put(out, at, &digits[..count])
}

// Writes a field and the byte after it.
fn put_item(out: &mut [u8], at: usize, field: Option<u64>, after: u8) -> usize
    requires { at + 21 ≤ length out.old }
    ensures place { result ≡ at + length (item field after) }
    ensures bound { result ≤ at + 21 }
    ensures buffer { out.new ≡ sets out.old at (item field after) }
{
    let Some(n) = field else {
        out[at] = b'-';
        out[at + 1] = after;
        return at + 2;
    };
    let end = put_decimal(out, at, n);
    out[end] = after;
    end + 1
}

// Writes the line of an accepted frame.
pub fn put_position(
    out: &mut [u8],
    at: usize,
    standing: Standing,
    entry: Option<u64>,
    best: Option<u64>,
) -> usize
    requires { at + most_bytes ≤ length out.old }
    ensures place { result ≡ at + length (position_line standing.rings standing.mover standing.opponent standing.rank entry best) }
    ensures bound { result ≤ at + most_bytes }
    ensures buffer { out.new
        ≡ sets out.old at (position_line standing.rings standing.mover standing.opponent standing.rank entry best) }
{
    let second = put_item(out, at, Some(standing.rings), b' ');
    let third = put_item(out, second, Some(standing.mover), b' ');
    let fourth = put_item(out, third, Some(standing.opponent), b' ');
    let fifth = put_item(out, fourth, Some(standing.rank), b' ');
    let sixth = put_item(out, fifth, entry, b' ');
    put_item(out, sixth, best, b'\n')
}

// Writes the line of a refused frame.
pub fn put_refused(out: &mut [u8], at: usize, number: u64) -> usize
    requires { at + most_bytes ≤ length out.old }
    ensures place { result ≡ at + length (refused_line number) }
    ensures bound { result ≤ at + most_bytes }
    ensures buffer { out.new ≡ sets out.old at (refused_line number) }
{
    let next = put(out, at, b"refused ");
    put_item(out, next, Some(number), b'\n')
}

// Writes the header at the start.
pub fn put_header(out: &mut [u8]) -> usize
    requires { most_bytes ≤ length out.old }
    ensures place { result ≡ length header }
    ensures bound { IsPrefixLen result out.new }
    ensures buffer { out.new ≡ sets out.old 0 header }
{
    put(out, 0, b"rings mover opponent rank entry move\n")
}
