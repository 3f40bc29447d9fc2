// A marked position judged by its successors: the level at all its images, or open again.
#![tactic(auto)]

ghost use Rattle.std.specs.Prelude.{◌≡◌, ◌+◌, ◌-◌, ◌≤◌, length};
ghost use Rattle.rules.specs.Ply.{removable};
ghost use Rattle.finding.specs.Inner.Finding.{First};
ghost use Rattle.masks.specs.Inner.Masks.{Masks};
ghost use Rattle.settling.specs.Inner.Settled.{Sweeping, AtMark, is_marked, judged_class};

use classing::Maps;
use parts::{DRAW, VOID};
use seeking::Cursor;
use tables::{Starts, Table};

// A level over a table under an edition; the table of its successors without a removal starts at `same`.
#[derive(Clone, Copy)]
pub struct Sweep {
    pub edition: u8,
    pub table: Table,
    pub same: usize,
    pub level: u16,
}

// Judges the marked position that the cursor stands at.
pub fn judge_place(tablebase: &mut [u16], masks: &[u32; 72], maps: Maps, sweep: Sweep, at: Cursor)
    requires masks { Masks maps.rings masks.now }
    requires sweeping { Sweeping (length tablebase.old) maps sweep × AtMark maps.rings sweep.table tablebase.old at }
    ensures { tablebase.new
        ≡ judged_class (removable sweep.edition) maps.rings sweep.table sweep.same sweep.level maps.count
        tablebase.old at.rank }
{
    let table = sweep.table;
    let own = table.own;
    let lower = table.lower;
    let level = sweep.level;
    if judging::hits(
        tablebase,
        masks,
        maps.rings,
        sweep.edition,
        Starts {
            same: sweep.same,
            fewer: lower.start,
        },
        level as u32,
        at.position,
    ) {
        classing::write_images(tablebase, maps, own, at.position, level);
        return;
    }
    parts::write_entry(tablebase, own, at.rank, DRAW);
}

// The first marked rank from r on, or the size, which ends the loop over them.
pub fn find_mark(tablebase: &[u16], table: Table, r: usize) -> usize
    requires { (table.own.start + r ≤ table.own.end) × (table.own.end ≤ length tablebase.now) }
    ensures { First (is_marked table tablebase.now) r (table.own.end - table.own.start) result }
{
    let own = table.own;
    let start = own.start;
    finding::find(tablebase, start + r, own.end, VOID) - start
}
