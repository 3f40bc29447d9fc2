// Standard input read block by block, its lines answered on standard output, in lent buffers. Where a read or a write fails, its error is the answer, and
// the session ends there: no other error comes, and the buffers keep their lengths.
#![tactic(auto)]

ghost use Rattle.std.specs.Prelude.{◌≡◌, ◌*◌, ◌≤◌, length, IfOk, IfSome};
ghost use Rattle.text.specs.Inner.Room.{most_bytes};
ghost use Rattle.keeping.specs.Kept.{most_kept};

use std::io;
use std::io::{Read, Write};

// One block is read, and the lines that it ends are answered: how many bytes are kept of a line that is not yet ended, or none at the end of the input.
fn answer_block(
    rt: &HostRuntime,
    tablebase: &[u16],
    block: &mut [u8],
    held: &mut [u8],
    kept: usize,
    out: &mut [u8],
) -> io::Result<Option<usize>>
    requires held_len { (length held.old ≡ most_kept) × (kept ≤ most_kept) }
    requires block_in_bounds { most_bytes * length block.old ≤ length out.old }
    ensures kept { IfOk result (λ left. IfSome left (λ kept. kept ≤ most_kept)) }
    ensures block { length block.new ≡ length block.old }
    ensures held { length held.new ≡ length held.old }
    ensures out { length out.new ≡ length out.old }
{
    let count = rt.stdin().read(block)?;
    if count == 0 {
        return Ok(None);
    }
    let fed = lines::feed(tablebase, &block[..count], held, kept, out);
    let left = fed.kept;
    let used = fed.used;
    rt.stdout().write_all(&out[..used])?;
    Ok(Some(left))
}

// At the end of the input the last line is answered, where it has no line feed.
fn answer_last(
    rt: &HostRuntime,
    tablebase: &[u16],
    held: &[u8],
    kept: usize,
    out: &mut [u8],
) -> io::Result<()>
    requires held_len { (length held.now ≡ most_kept) × (kept ≤ most_kept) }
    requires most_bytes_in_bounds { most_bytes ≤ length out.old }
    ensures { length out.new ≡ length out.old }
{
    let used = lines::finish(tablebase, held, kept, out);
    rt.stdout().write_all(&out[..used])
}

// All of the input. A loop has to end, and nothing says that the input does: the blocks are counted up to the largest number.
pub fn answer_input(
    rt: &HostRuntime,
    tablebase: &[u16],
    block: &mut [u8],
    held: &mut [u8],
    out: &mut [u8],
) -> io::Result<()>
    requires held_len { length held.old ≡ most_kept }
    requires most_bytes_in_bounds { (most_bytes ≤ length out.old) × (most_bytes * length block.old ≤ length out.old) }
{
    let mut kept: usize = 0;
    for _ in 0..u64::MAX {
        let Some(left) = answer_block(rt, tablebase, block, held, kept, out)? else {
            break;
        };
        kept = left;
    }
    answer_last(rt, tablebase, held, kept, out)
}

// The header comes first, even for empty input.
pub fn write_header(rt: &HostRuntime, out: &mut [u8]) -> io::Result<()>
    requires { most_bytes ≤ length out.old }
    ensures { length out.new ≡ length out.old }
{
    let used = text::put_header(out);
    rt.stdout().write_all(&out[..used])
}
