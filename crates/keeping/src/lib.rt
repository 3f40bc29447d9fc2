// What is kept of a line that is not yet ended. The buffer and the number of bytes in it stay apart: the edit `session/short_kept_line` lends a buffer
// that is too short, which a type of both would exclude.
#![tactic(auto)]

ghost use Rattle.std.specs.Prelude.{◌≡◌, ◌≤◌, length, take};
ghost use Rattle.keeping.specs.Kept.{most_kept, keep_byte as Kept·keep};

// How many bytes of a line are kept.
pub const MOST_KEPT: usize = 65;

// One byte more of a line: the first 65 are kept.
pub fn keep_byte(held: &mut [u8], kept: usize, c: u8) -> usize
    requires { (length held.old ≡ most_kept) × (kept ≤ most_kept) }
    ensures held { (length held.new ≡ most_kept) × (result ≤ most_kept) }
    ensures kept { take result held.new ≡ Kept·keep (take kept held.old) c }
{
    if kept < MOST_KEPT {
        held[kept] = c;
        return kept + 1;
    }
    kept
}
