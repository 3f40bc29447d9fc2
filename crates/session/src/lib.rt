// A session of `desk`: the one-ring tablebase is filled, then frames are read from standard input, a line each, and answered on standard output.
#![tactic(auto)]

ghost use Rattle.std.specs.Prelude.{◌≡◌, ◌*◌, ◌≤◌, length};
ghost use Rattle.morris.specs.Calls.{FillCall};
ghost use Rattle.answers.specs.Answers.{solved};
ghost use Rattle.text.specs.Inner.Room.{most_bytes};
ghost use Rattle.keeping.specs.Kept.{most_kept};
ghost use Rattle.fields.specs.Fields.{largest_count, desk_edition};

use morris::Refusal;
use std::io;

// The limit of the fill, in plies.
const DESK_LIMIT: u32 = 2000;

// The one-ring tablebase is filled.
fn fill_tablebase(tablebase: &mut [u16]) -> Result<(), Refusal>
    ensures { FillCall 1 desk_edition largest_count 2000 tablebase.old tablebase.new (solved result) }
{
    morris::fill(
        1,
        fields::DESK_EDITION,
        fields::LARGEST_COUNT,
        DESK_LIMIT,
        tablebase,
    )
}

// The session in lent buffers. Were the fill turned back, every entry would be void, and a line would show `-` for it.
fn serve(
    rt: &HostRuntime,
    tablebase: &mut [u16],
    block: &mut [u8],
    held: &mut [u8],
    out: &mut [u8],
) -> io::Result<()>
    requires held_len { length held.old ≡ most_kept }
    requires most_bytes_in_bounds { (most_bytes ≤ length out.old) × (most_bytes * length block.old ≤ length out.old) }
{
    let _ = fill_tablebase(tablebase);
    stream::write_header(rt, out)?;
    stream::answer_input(rt, tablebase, block, held, out)
}

// The session of the program `desk`. The one-ring tablebase has 1,302 entries. Each of a block's 1,024 bytes may end a line, whose answer takes 126 bytes
// at most. Where a read or a write fails, its error is the answer; no other error comes.
pub fn run(rt: &HostRuntime) -> io::Result<()> {
    let mut tablebase = [0u16; 1302];
    let mut block = [0u8; 1024];
    let mut held = [0u8; keeping::MOST_KEPT];
    let mut out = [0u8; 129024];
    serve(rt, &mut tablebase, &mut block, &mut held, &mut out)
}
