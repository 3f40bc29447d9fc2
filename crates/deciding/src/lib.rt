// The open positions of a table, and whether the successors of one decide it.
#![tactic(auto)]

ghost use Rattle.std.specs.Prelude.{◌≡◌, ◌+◌, ◌-◌, ◌*◌, ◌<◌, length};
ghost use Rattle.sizes.specs.Size.{size};
ghost use Rattle.rules.specs.Ply.{removable};
ghost use Rattle.masks.specs.Inner.Masks.{Masks};
ghost use Rattle.deciding.specs.Inner.Fits.{Fits};
ghost use Rattle.deciding.specs.Inner.Open.{is_open, open_decided, Found};

use parts::DRAW;
use tables::{Starts, Table};

// Whether the position of rank r is open.
pub fn is_open(tablebase: &[u16], table: Table, r: usize) -> bool
    requires { table.own.start + r < length tablebase.now }
    ensures { result ≡ is_open table tablebase.now r }
{
    let own = table.own;
    tablebase[own.start + r] == DRAW
}

// Whether the position of rank r is open and decided by its successors.
fn open_decided(
    tablebase: &[u16],
    masks: &[u32; 72],
    rings: usize,
    edition: u8,
    table: Table,
    same: usize,
    r: usize,
) -> bool
    requires masks { Masks rings masks.now }
    requires fits { Fits (length tablebase.now) rings table same × (r < size (8 * rings) table.mover table.opponent) }
    ensures { result ≡ open_decided (removable edition) rings table same tablebase.now r }
{
    if is_open(tablebase, table, r) {
        let position = ranking::unrank(8 * rings, table.mover, table.opponent, r);
        let lower = table.lower;
        return judging::decided(
            tablebase,
            masks,
            rings,
            edition,
            Starts {
                same: same,
                fewer: lower.start,
            },
            position,
        );
    }
    false
}

// Whether some open position of a table is decided by its successors.
pub fn some_decided(
    tablebase: &[u16],
    masks: &[u32; 72],
    rings: usize,
    edition: u8,
    table: Table,
    same: usize,
) -> bool
    requires masks { Masks rings masks.now }
    requires fits { Fits (length tablebase.now) rings table same }
    ensures { Found (open_decided (removable edition) rings table same tablebase.now)
        (size (8 * rings) table.mover table.opponent) result }
{
    let own = table.own;
    let size = own.end - own.start;
    for r in 0..size {
        if open_decided(tablebase, masks, rings, edition, table, same, r) {
            return true;
        }
    }
    false
}
