// Both tables of a pair, the one after the other: filled with one value, at level 0, at a level above it, and looked at for open positions.
#![tactic(auto)]

ghost use Rattle.std.specs.Prelude.{◌≡◌, ◌*◌, length};
ghost use Rattle.rules.specs.Ply.{removable};
ghost use Rattle.classing.specs.Inner.Classes.{least_of_class};
ghost use Rattle.masks.specs.Inner.Masks.{Masks};
ghost use Rattle.deciding.specs.Inner.Fits.{Lies, Fits};
ghost use Rattle.pairs.specs.Inner.Pairs.{InRoom, PairSweeping, pair_blocked, pair_by_classes, pair_filled, PairFound};

use classing::Maps;
use settling::Sweep;
use tables::Table;

// The tables (m, o) and (o, m) of a pair; they are one where both sides have as many stones.
#[derive(Clone, Copy)]
pub struct Tables {
    pub first: Table,
    pub second: Table,
}

// Both tables filled with one value.
pub fn fill_tables(tablebase: &mut [u16], tables: Tables, v: u16)
    requires { InRoom (length tablebase.old) tables.first tables.second }
    ensures { tablebase.new ≡ pair_filled tables.first tables.second v tablebase.old }
{
    let first = tables.first;
    parts::fill_table(tablebase, first.own, v);
    let second = tables.second;
    parts::fill_table(tablebase, second.own, v);
}

// Both tables of a pair at level 0.
pub fn sweep_pair(tablebase: &mut [u16], masks: &[u32; 72], rings: usize, tables: Tables)
    requires masks { Masks rings masks.now }
    requires lies { Lies (8 * rings) tables.first (length tablebase.old) × Lies (8 * rings) tables.second (length tablebase.old) }
    ensures { tablebase.new ≡ pair_blocked rings tables.first tables.second tablebase.old }
{
    let first = tables.first;
    halving::sweep_blocked(tablebase, masks, rings, first);
    if first.mover != first.opponent {
        halving::sweep_blocked(tablebase, masks, rings, tables.second);
    }
}

// Both tables of a pair at a level above 0.
pub fn level_pair(
    tablebase: &mut [u16],
    masks: &[u32; 72],
    maps: Maps,
    edition: u8,
    tables: Tables,
    level: u16,
)
    requires masks { Masks maps.rings masks.now }
    requires pair_sweeping { PairSweeping (length tablebase.old) maps tables level }
    ensures { tablebase.new
        ≡ pair_by_classes (removable edition) maps.rings tables.first tables.second level maps.count
        (least_of_class maps.rings maps.count) tablebase.old }
{
    let first = tables.first;
    let second = tables.second;
    let one = first.own;
    let two = second.own;
    sweeping::level_table(
        tablebase,
        masks,
        maps,
        Sweep {
            edition: edition,
            table: first,
            same: two.start,
            level: level,
        },
    );
    if first.mover != first.opponent {
        sweeping::level_table(
            tablebase,
            masks,
            maps,
            Sweep {
                edition: edition,
                table: second,
                same: one.start,
                level: level,
            },
        );
    }
}

// Whether some open position of a pair is decided by its successors.
pub fn pair_decided(
    tablebase: &[u16],
    masks: &[u32; 72],
    rings: usize,
    edition: u8,
    tables: Tables,
) -> bool
    requires masks { Masks rings masks.now }
    requires fits { Fits (length tablebase.now) rings tables.first tables.second.own.start
        × Fits (length tablebase.now) rings tables.second tables.first.own.start }
    ensures { PairFound (removable edition) rings tables.first tables.second tablebase.now result }
{
    let first = tables.first;
    let second = tables.second;
    let one = first.own;
    let two = second.own;
    if deciding::some_decided(tablebase, masks, rings, edition, first, two.start) {
        return true;
    }
    deciding::some_decided(tablebase, masks, rings, edition, second, one.start)
}
