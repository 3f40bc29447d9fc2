// A pair of tables filled level by level: first every position is open, then each level writes what has that depth. Depths have gaps, so the next level is
// one more than the least depth from the level on. The first level beyond the limit that writes anything shows a position that is too deep. Level
// 65,534 is no entry: there one look decides.
#![tactic(auto)]

ghost use Rattle.std.specs.Prelude.{◌<◌};
ghost use Rattle.rules.specs.Ply.{removable};
ghost use Rattle.masks.specs.Inner.Masks.{Masks};
ghost use Rattle.filling.specs.Inner.Solve.{PairSolving, PairFill, deep_of};

use classing::Maps;
use pairs::Tables;
use parts::{DRAW, VOID};

// The rings and the largest count of a tablebase, the edition under which it is filled, and the limit of its depths.
#[derive(Clone, Copy)]
pub struct Bounds {
    pub rings: usize,
    pub edition: u8,
    pub k: usize,
    pub limit: u16,
}

// That some position ends beyond the limit.
#[derive(Clone, Copy, Debug, PartialEq, Eq)]
pub struct TooDeep;

// Fills the tables of a pair. Where some position is too deep they are left void.
pub fn solve_tables(
    tablebase: &mut [u16],
    masks: &[u32; 72],
    bounds: Bounds,
    maps: usize,
    tables: Tables,
) -> Result<(), TooDeep>
    requires masks { Masks bounds.rings masks.now }
    requires pair_solving { PairSolving tablebase.old bounds maps tables }
    ensures { PairFill (removable bounds.edition) bounds.rings bounds.k tables.first.mover tables.first.opponent
        bounds.limit tablebase.old
        tablebase.new (deep_of result) }
{
    pairs::fill_tables(tablebase, tables, DRAW);
    pairs::sweep_pair(tablebase, masks, bounds.rings, tables);
    let mut level: u16 = 1;
    while level < VOID {
        pairs::level_pair(
            tablebase,
            masks,
            Maps {
                rings: bounds.rings,
                count: maps,
            },
            bounds.edition,
            tables,
            level,
        );
        if depths::beyond(tablebase, tables, bounds.limit, level) {
            pairs::fill_tables(tablebase, tables, VOID);
            return Err(TooDeep);
        }
        level = 1 + depths::pair_least(tablebase, tables, level);
    }
    if VOID < level {
        return Ok(());
    }
    if pairs::pair_decided(tablebase, masks, bounds.rings, bounds.edition, tables) {
        pairs::fill_tables(tablebase, tables, VOID);
        return Err(TooDeep);
    }
    Ok(())
}
