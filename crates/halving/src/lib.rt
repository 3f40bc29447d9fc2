// Level 0 over a whole table, in two halves side by side.
#![tactic(auto)]

ghost use Rattle.std.specs.Prelude.{◌≡◌, ◌+◌, ◌-◌, ◌*◌, ◌≤◌, ◌<◌, length};
ghost use Rattle.board.specs.Board.{position_of};
ghost use Rattle.sizes.specs.Size.{size};
ghost use Rattle.ranking.specs.Unrank.{unrank};
ghost use Rattle.masks.specs.Inner.Masks.{Masks};
ghost use Rattle.deciding.specs.Inner.Fits.{Lies};
ghost use Rattle.ending.specs.Inner.Blocked.{blocked_first, blocked_range};

use tables::Table;

// The position of the rank after r, if that is below the end.
fn ahead(
    rings: usize,
    mover: usize,
    opponent: usize,
    position: board::Position,
    r: usize,
    end: usize,
) -> board::Position
    requires rings_bound { (rings ≤ 3) × (r < end) × (end ≤ size (8 * rings) mover opponent) }
    requires position_value { position ≡ position_of (unrank (8 * rings) mover opponent r) }
    ensures { r + 1 < end → result ≡ position_of (unrank (8 * rings) mover opponent (r + 1)) }
{
    if r + 1 < end {
        return stepping::next(8 * rings, position);
    }
    position
}

// The first positions of a table at level 0, twice half of them. A position is made from the one before: the two halves go side by side, so that the
// machine need not wait for each.
fn sweep_halves(tablebase: &mut [u16], masks: &[u32; 72], rings: usize, table: Table, half: usize)
    requires masks { Masks rings masks.now }
    requires lies { Lies (8 * rings) table (length tablebase.old) × (0 < half)
        × (half + half ≤ size (8 * rings) table.mover table.opponent) }
    ensures { tablebase.new ≡ blocked_first rings table tablebase.old (half + half) }
{
    let m = table.mover;
    let o = table.opponent;
    let mut low = ranking::unrank(8 * rings, m, o, 0);
    let mut high = ranking::unrank(8 * rings, m, o, half);
    for r in 0..half {
        ending::sweep_place(tablebase, masks, rings, table, low, r);
        ending::sweep_place(tablebase, masks, rings, table, high, half + r);
        low = ahead(rings, m, o, low, r, half);
        high = ahead(rings, m, o, high, half + r, half + half);
    }
}

// The positions of a table from a rank on, at level 0.
fn sweep_rest(tablebase: &mut [u16], masks: &[u32; 72], rings: usize, table: Table, from: usize)
    requires masks { Masks rings masks.now }
    requires lies { Lies (8 * rings) table (length tablebase.old) × (from ≤ size (8 * rings) table.mover table.opponent) }
    ensures { tablebase.new
        ≡ blocked_range rings table from tablebase.old (size (8 * rings) table.mover table.opponent - from) }
{
    let own = table.own;
    let size = own.end - own.start;
    for r in from..size {
        let position = ranking::unrank(8 * rings, table.mover, table.opponent, r);
        ending::sweep_place(tablebase, masks, rings, table, position, r);
    }
}

// All positions of a table at level 0: both halves, and the last where they are odd in number.
fn sweep_places(tablebase: &mut [u16], masks: &[u32; 72], rings: usize, table: Table)
    requires masks { Masks rings masks.now }
    requires lies { Lies (8 * rings) table (length tablebase.old) }
    ensures { tablebase.new ≡ blocked_first rings table tablebase.old (size (8 * rings) table.mover table.opponent) }
{
    let own = table.own;
    let half = (own.end - own.start) / 2;
    if half == 0 {
        sweep_rest(tablebase, masks, rings, table, 0);
        return;
    }
    sweep_halves(tablebase, masks, rings, table, half);
    sweep_rest(tablebase, masks, rings, table, half + half);
}

// All positions of a table at level 0.
pub fn sweep_blocked(tablebase: &mut [u16], masks: &[u32; 72], rings: usize, table: Table)
    requires masks { Masks rings masks.now }
    requires lies { Lies (8 * rings) table (length tablebase.old) }
    ensures { tablebase.new ≡ blocked_first rings table tablebase.old (size (8 * rings) table.mover table.opponent) }
{
    if ending::all_free(rings, table) {
        return;
    }
    sweep_places(tablebase, masks, rings, table);
}
