// Level 0 at one position of a table: the game has ended where the mover is blocked.
#![tactic(auto)]

ghost use Rattle.std.specs.Prelude.{◌≡◌, ◌-◌, ◌*◌, ◌≤◌, ◌<◌, length};
ghost use Rattle.board.specs.Board.{position_of};
ghost use Rattle.sizes.specs.Size.{size};
ghost use Rattle.ranking.specs.Unrank.{unrank};
ghost use Rattle.masks.specs.Inner.Masks.{Masks};
ghost use Rattle.deciding.specs.Inner.Fits.{Lies};
ghost use Rattle.ending.specs.Inner.Blocked.{blocked_place, all_free};

use tables::Table;

// The position of rank r at level 0.
pub fn sweep_place(
    tablebase: &mut [u16],
    masks: &[u32; 72],
    rings: usize,
    table: Table,
    position: board::Position,
    r: usize,
)
    requires masks { Masks rings masks.now }
    requires lies { Lies (8 * rings) table (length tablebase.old) × (r < size (8 * rings) table.mover table.opponent) }
    requires position_value { position ≡ position_of (unrank (8 * rings) table.mover table.opponent r) }
    ensures { tablebase.new ≡ blocked_place rings table tablebase.old r }
{
    if deciding::is_open(tablebase, table, r) {
        if plies::blocked(rings, masks, position) {
            let own = table.own;
            parts::write_entry(tablebase, own, r, 0);
        }
    }
}

// Whether three stones move and a point is vacant, so that no mover of a table is blocked.
pub fn all_free(rings: usize, table: Table) -> bool
    requires { rings ≤ 3 }
    ensures { result ≡ all_free rings table }
{
    let points = 8 * rings;
    if points <= table.opponent {
        return false;
    }
    (table.mover == 3) & (3 < points - table.opponent)
}
