// A pair over given lower tables: whether these hold a void, and by how many maps the pair may be filled. Given entries need not be the same for all
// images of a position.
#![tactic(auto)]

ghost use Rattle.std.specs.Prelude.{◌≡◌, ◌-◌, ◌*◌, ◌≤◌, length};
ghost use Rattle.layout.specs.Layout.{tablebase_length};
ghost use Rattle.rules.specs.Ply.{removable};
ghost use Rattle.symmetry.specs.Symmetries.{symmetries};
ghost use Rattle.outcomes.specs.Places.{lower_void};
ghost use Rattle.outcomes.specs.Pair.{Pair};
ghost use Rattle.invariance.specs.Symmetric.{TableSymmetric, LowerSymmetric};
ghost use Rattle.invariance.specs.Inner.Used.{Used};
ghost use Rattle.masks.specs.Inner.Masks.{Masks};
ghost use Rattle.comparing.specs.Inner.Compared.{Decides};
ghost use Rattle.filling.specs.Inner.Solve.{PairFill, deep_of};
ghost use Rattle.solver.specs.Inner.Solve.{PairGiven};

use filling::{Bounds, TooDeep};
use layers::Source;
use solver::Counts;

// Whether an entry is void in the lower tables of the pair (m, o) and (o, m).
pub fn lower_void(tablebase: &[u16], rings: usize, k: usize, m: usize, o: usize) -> bool
    requires { Pair rings k m o × (k ≤ 9) × (length tablebase.now ≡ tablebase_length (8 * rings) k) }
    ensures { result ≡ lower_void rings k tablebase.now m o }
{
    let first = tables::table_of(8 * rings, k, m, o);
    let second = tables::table_of(8 * rings, k, o, m);
    finding::void_within(tablebase, first.lower) | finding::void_within(tablebase, second.lower)
}

// Whether table (o - 1, m), which a removal from (m, o) leads to, has one entry for all images of a position; there is none where that leaves two stones.
fn lower_symmetric(tablebase: &[u16], rings: usize, k: usize, m: usize, o: usize) -> bool
    requires { Pair rings k m o × (k ≤ 9) × (length tablebase.now ≡ tablebase_length (8 * rings) k) }
    ensures { Decides (4 ≤ o → TableSymmetric symmetries rings k tablebase.now (o - 1) m) result }
{
    if o == 3 {
        return true;
    }
    let start = layout::start(8 * rings, k, o - 1, m);
    comparing::is_symmetric(
        tablebase,
        rings,
        Source {
            start,
            mover: o - 1,
            opponent: m,
        },
    )
}

// By how many maps the pair (m, o) and (o, m) may be filled: by all where its lower tables are symmetric, else by the first, which changes nothing.
fn given_maps(tablebase: &[u16], rings: usize, k: usize, m: usize, o: usize) -> usize
    requires { Pair rings k m o × (k ≤ 9) × (length tablebase.now ≡ tablebase_length (8 * rings) k) }
    ensures { Used result × LowerSymmetric result rings k m o tablebase.now }
{
    if lower_symmetric(tablebase, rings, k, m, o) {
        if m == o {
            return solver::all_maps(rings);
        }
        if lower_symmetric(tablebase, rings, k, o, m) {
            return solver::all_maps(rings);
        }
    }
    1
}

// Fills the pair (m, o) and (o, m) over any lower tables that hold no void.
pub fn solve_given(
    tablebase: &mut [u16],
    masks: &[u32; 72],
    bounds: Bounds,
    counts: Counts,
) -> Result<(), TooDeep>
    requires masks { Masks bounds.rings masks.now }
    requires pair_given { PairGiven tablebase.old bounds counts }
    ensures { PairFill (removable bounds.edition) bounds.rings bounds.k counts.mover counts.opponent bounds.limit
        tablebase.old
        tablebase.new (deep_of result) }
{
    let maps = given_maps(
        tablebase,
        bounds.rings,
        bounds.k,
        counts.mover,
        counts.opponent,
    );
    solver::solve_pair(tablebase, masks, bounds, maps, counts)
}
