// The solver: a pair by its counts and by a number of maps, and a whole tablebase pair by pair, the smaller pairs first.
#![tactic(auto)]

ghost use Rattle.std.specs.Prelude.{◌≡◌, ◌+◌, length};
ghost use Rattle.rules.specs.Ply.{removable};
ghost use Rattle.invariance.specs.Symmetric.{LowerSymmetric};
ghost use Rattle.invariance.specs.Inner.Used.{Used};
ghost use Rattle.masks.specs.Inner.Masks.{Masks};
ghost use Rattle.filling.specs.Inner.Solve.{PairFill, deep_of};
ghost use Rattle.solver.specs.Inner.Solve.{PairGiven, RowGiven, AllGiven, PairsFilled, WholeFill};

use filling::{Bounds, TooDeep};
use pairs::Tables;
use parts::{Part, VOID};

// The stone counts of a table.
#[derive(Clone, Copy)]
pub struct Counts {
    pub mover: usize,
    pub opponent: usize,
}

// Fills the pair of tables with these counts by a number of maps under which its lower tables are symmetric. Where some position is too deep both are
// left void.
pub fn solve_pair(
    tablebase: &mut [u16],
    masks: &[u32; 72],
    bounds: Bounds,
    maps: usize,
    counts: Counts,
) -> Result<(), TooDeep>
    requires masks { Masks bounds.rings masks.now }
    requires pair_given { PairGiven tablebase.old bounds counts × Used maps
        × LowerSymmetric maps bounds.rings bounds.k counts.mover counts.opponent tablebase.old }
    ensures { PairFill (removable bounds.edition) bounds.rings bounds.k counts.mover counts.opponent bounds.limit
        tablebase.old
        tablebase.new (deep_of result) }
{
    let points = 8 * bounds.rings;
    let first = tables::table_of(points, bounds.k, counts.mover, counts.opponent);
    let second = tables::table_of(points, bounds.k, counts.opponent, counts.mover);
    filling::solve_tables(
        tablebase,
        masks,
        bounds,
        maps,
        Tables {
            first: first,
            second: second,
        },
    )
}

// By how many maps a whole tablebase is filled. On one ring there is nothing to reverse: the first eight are all.
pub fn all_maps(rings: usize) -> usize
    ensures { Used result }
{
    if rings < 2 {
        return 8;
    }
    16
}

// The pairs (m, 3), (m, 4), .., (m, m), where all smaller pairs are filled.
fn solve_row(
    tablebase: &mut [u16],
    masks: &[u32; 72],
    bounds: Bounds,
    maps: usize,
    m: usize,
) -> Result<(), TooDeep>
    requires masks { Masks bounds.rings masks.now }
    requires row_given { RowGiven tablebase.old bounds maps m }
    ensures { (length tablebase.new ≡ length tablebase.old)
        × PairsFilled (removable bounds.edition) bounds.rings bounds.k bounds.limit (m + 1) 3 tablebase.new (deep_of result) }
{
    // An inclusive range leaves one more exit, about which the proof knows too little.
    for o in 3..m + 1 {
        solve_pair(
            tablebase,
            masks,
            bounds,
            maps,
            Counts {
                mover: m,
                opponent: o,
            },
        )?;
    }
    Ok(())
}

// Fills a whole tablebase. Where some position is too deep it is left void.
pub fn solve_all(tablebase: &mut [u16], masks: &[u32; 72], bounds: Bounds) -> Result<(), TooDeep>
    requires masks { Masks bounds.rings masks.now }
    requires all_given { AllGiven (length tablebase.old) bounds }
    ensures { WholeFill (removable bounds.edition) bounds.rings bounds.k bounds.limit tablebase.old
        tablebase.new (deep_of result) }
{
    let maps = all_maps(bounds.rings);
    let k = bounds.k;
    for m in 3..k + 1 {
        if let Err(deep) = solve_row(tablebase, masks, bounds, maps, m) {
            let end = tablebase.len();
            parts::fill_table(tablebase, Part { start: 0, end: end }, VOID);
            return Err(deep);
        }
    }
    Ok(())
}
