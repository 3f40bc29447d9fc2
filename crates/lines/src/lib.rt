// Input split into lines, block by block in constant memory: the lines that a block ends are answered, and of the line that it leaves unended the first
// 65 bytes are kept.
#![tactic(auto)]

ghost use Rattle.std.specs.Prelude.{◌≡◌, ◌∷◌, [], ◌+◌, ◌*◌, ◌≤◌, length, take};
ghost use Rattle.std.proofs.lemmas.List.Edits.{sets};
ghost use Rattle.io.specs.Counts.{IsPrefixLen};
ghost use Rattle.text.specs.Inner.Room.{most_bytes};
ghost use Rattle.keeping.specs.Kept.{most_kept};
ghost use Rattle.lines.specs.Lines.{ended_lines, left, last};
ghost use Rattle.replies.specs.Replies.{answers};

// How many bytes are kept of the line that is not yet ended, and how many bytes of answers were written.
#[derive(Clone, Copy)]
pub struct Fed {
    pub kept: usize,
    pub used: usize,
}

// One byte of input.
fn step(tablebase: &[u16], c: u8, held: &mut [u8], kept: usize, out: &mut [u8], used: usize) -> Fed
    requires held_len { (length held.old ≡ most_kept) × (kept ≤ most_kept) }
    requires most_bytes_in_bounds { used + most_bytes ≤ length out.old }
    ensures held { (length held.new ≡ most_kept) × (result.kept ≤ most_kept) }
    ensures kept { take result.kept held.new ≡ left (take kept held.old) (c ∷ []) }
    ensures place { result.used ≡ used + length (answers tablebase.now (ended_lines (take kept held.old) (c ∷ []))) }
    ensures bound { result.used ≤ used + most_bytes }
    ensures buffer { out.new ≡ sets out.old used
        (answers tablebase.now (ended_lines (take kept held.old) (c ∷ []))) }
{
    if c == b'\n' {
        let next = replies::answer_at(tablebase, &held[..kept], out, used);
        return Fed {
            kept: 0,
            used: next,
        };
    }
    let more = keeping::keep_byte(held, kept, c);
    Fed { kept: more, used }
}

// A block of input: the lines that it ends are answered at the start of out, and what it leaves is kept.
pub fn feed(tablebase: &[u16], block: &[u8], held: &mut [u8], kept: usize, out: &mut [u8]) -> Fed
    requires held_len { (length held.old ≡ most_kept) × (kept ≤ most_kept) }
    requires block_in_bounds { most_bytes * length block.now ≤ length out.old }
    ensures held { (length held.new ≡ most_kept) × (result.kept ≤ most_kept) }
    ensures kept { take result.kept held.new ≡ left (take kept held.old) block.now }
    ensures place { result.used ≡ length (answers tablebase.now (ended_lines (take kept held.old) block.now)) }
    ensures bound { IsPrefixLen result.used out.new }
    ensures buffer { out.new ≡ sets out.old 0
        (answers tablebase.now (ended_lines (take kept held.old) block.now)) }
{
    let mut count = kept;
    let mut used = 0;
    for i in 0..block.len() {
        let fed = step(tablebase, block[i], held, count, out, used);
        count = fed.kept;
        used = fed.used;
    }
    Fed { kept: count, used }
}

// The end of the input: what is kept is the last line, unless it is nothing.
pub fn finish(tablebase: &[u16], held: &[u8], kept: usize, out: &mut [u8]) -> usize
    requires held_len { (length held.now ≡ most_kept) × (kept ≤ most_kept) }
    requires most_bytes_in_bounds { most_bytes ≤ length out.old }
    ensures place { result ≡ length (answers tablebase.now (last (take kept held.now))) }
    ensures bound { IsPrefixLen result out.new }
    ensures buffer { out.new ≡ sets out.old 0 (answers tablebase.now (last (take kept held.now))) }
{
    if kept == 0 {
        return 0;
    }
    replies::answer_at(tablebase, &held[..kept], out, 0)
}
