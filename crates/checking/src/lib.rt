// A tablebase checked entry by entry, in the order of its entries, up to the first that is not right.
#![tactic(auto)]

ghost use Rattle.std.specs.Prelude.{◌≡◌, ◌*◌, ◌≤◌, length};
ghost use Rattle.lists.specs.Lists.{each};
ghost use Rattle.ranking.specs.Unrank.{unrank};
ghost use Rattle.layout.specs.Layout.{row, table};
ghost use Rattle.rules.specs.Ply.{removable};
ghost use Rattle.masks.specs.Inner.Masks.{Masks};
ghost use Rattle.certificate.specs.Certificate.{boards_of, boards, entry_right};
ghost use Rattle.checking.specs.Inner.Checking.{Whole, TableOf, StandsIn, Tested};

use seeking::Cursor;
use tables::{Starts, Table};

// The rings, the edition and the largest count that a tablebase is checked for.
#[derive(Clone, Copy)]
pub struct Kind {
    pub rings: usize,
    pub edition: u8,
    pub k: usize,
}

// Whether the entry of the position that a cursor stands at is right. The table of its successors without a removal starts at `same`.
fn place_right(
    tablebase: &[u16],
    masks: &[u32; 72],
    kind: Kind,
    table: Table,
    same: usize,
    at: Cursor,
) -> bool
    requires masks { Masks kind.rings masks.now }
    requires whole { Whole (length tablebase.now) kind × TableOf kind table.mover table.opponent table same × StandsIn kind table at }
    ensures { result ≡ entry_right (removable kind.edition) kind.rings kind.k tablebase.now
        (unrank (8 * kind.rings) table.mover table.opponent at.rank) }
{
    let own = table.own;
    let lower = table.lower;
    let entry = tablebase[own.start + at.rank];
    certifying::right(
        tablebase,
        masks,
        kind.rings,
        kind.edition,
        Starts {
            same: same,
            fewer: lower.start,
        },
        entry,
        at.position,
    )
}

// The entries of table (m, o), by rising rank: how many there are, if all are right, else how many are right before the first that is not.
fn check_table(
    tablebase: &[u16],
    masks: &[u32; 72],
    kind: Kind,
    m: usize,
    o: usize,
) -> Result<usize, usize>
    requires masks { Masks kind.rings masks.now }
    requires whole { Whole (length tablebase.now) kind × (3 ≤ m) × (m ≤ kind.k) × (3 ≤ o) × (o ≤ kind.k) }
    ensures { Tested (entry_right (removable kind.edition) kind.rings kind.k tablebase.now)
        (boards_of (8 * kind.rings) (table m o)) result }
{
    let points = 8 * kind.rings;
    let table = tables::table_of(points, kind.k, m, o);
    let same = layout::start(points, kind.k, o, m);
    let own = table.own;
    let size = own.end - own.start;
    let mut at = seeking::nowhere(size);
    for r in 0..size {
        at = seeking::seek(kind.rings, m, o, at, r);
        if !place_right(tablebase, masks, kind, table, same, at) {
            return Err(r);
        }
    }
    Ok(size)
}

// The tables (m, 3), (m, 4), .., (m, k).
fn check_row(tablebase: &[u16], masks: &[u32; 72], kind: Kind, m: usize) -> Result<usize, usize>
    requires masks { Masks kind.rings masks.now }
    requires whole { Whole (length tablebase.now) kind × (3 ≤ m) × (m ≤ kind.k) }
    ensures { Tested (entry_right (removable kind.edition) kind.rings kind.k tablebase.now)
        (each (λ t. boards_of (8 * kind.rings) t) (row kind.k m)) result }
{
    let mut count: usize = 0;
    for o in 3..=kind.k {
        match check_table(tablebase, masks, kind, m, o) {
            Ok(n) => count += n,
            Err(n) => return Err(count + n),
        }
    }
    Ok(count)
}

// The whole tablebase, row by row.
pub fn check_all(tablebase: &[u16], masks: &[u32; 72], kind: Kind) -> Result<usize, usize>
    requires masks { Masks kind.rings masks.now }
    requires whole { Whole (length tablebase.now) kind }
    ensures { Tested (entry_right (removable kind.edition) kind.rings kind.k tablebase.now)
        (boards (8 * kind.rings) kind.k) result }
{
    let mut passed: usize = 0;
    for m in 3..=kind.k {
        match check_row(tablebase, masks, kind, m) {
            Ok(n) => passed += n,
            Err(n) => return Err(passed + n),
        }
    }
    Ok(passed)
}
