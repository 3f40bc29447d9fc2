// A second solver, written apart: it shares no code, no table and no definition with the other crates, so what both find was found twice. It comes to
// the order of places on its own way too: positions are gone through one after another, and ranks are counted.
//
// The tablebase is found backwards. A first pass counts the plies of each position and writes the ends; then, depth by depth, each position of
// that depth is taken back by every ply that can have led to it. What stood before a lost position is won; what stood before a won one has a
// ply less to hope for, and is lost with its last. What stays open is drawn.
//
// All tables are filled, or two of them over entries that are given.
#![tactic(auto)]

ghost use Rattle.std.specs.Prelude.{◌<◌, ◌≤◌, IfSome};
ghost use Rattle.second.specs.Unchanged.{UnchangedUnless};

use second_order::Tables;
use second_passes::{Edition, Filling};

// The deepest that an entry states. It is not taken back, since one ply more is no depth.
const DEEPEST: u16 = 65533;

// Fills the tablebase of largest count k under a rules edition: at each place the plies to the end, even lost, odd won, or 65535 for a draw.
// `counts` is room to work in. Answers whether it did: false, and both buffers unchanged, where rings, edition, k or a length is wrong.
pub fn solve(rings: u8, edition: u8, k: u8, entries: &mut [u16], counts: &mut [u16]) -> bool
    ensures { UnchangedUnless result entries.old entries.new × UnchangedUnless result counts.old counts.new }
{
    let Some(filling) = whole(rings, edition, k) else {
        return false;
    };
    fill(&filling, entries, counts)
}

// Fills the tables (mover, opponent) and (opponent, mover) of such a tablebase and leaves the others as they are. The entries of
// (opponent - 1, mover) and (mover - 1, opponent) are given endings, if there are such tables: they state any depths, or a draw. Answers as
// `solve` does, and false too where the tablebase has no such pair.
pub fn solve_pair(
    rings: u8,
    edition: u8,
    mover: u8,
    opponent: u8,
    k: u8,
    entries: &mut [u16],
    counts: &mut [u16],
) -> bool
    ensures { UnchangedUnless result entries.old entries.new × UnchangedUnless result counts.old counts.new }
{
    let Some(filling) = whole(rings, edition, k) else {
        return false;
    };
    let Some(filled) = filling.tables.pair(mover, opponent) else {
        return false;
    };
    fill(&Filling { filled, ..filling }, entries, counts)
}

// All tables of such a tablebase to be filled, if rings, edition and k are right.
fn whole(rings: u8, edition: u8, k: u8) -> Option<Filling> {
    let edition = match (rings, edition, k) {
        (1..=3, 1, 3..=9) => Edition::First,
        (1..=3, 2, 3..=9) => Edition::Second,
        _ => return None,
    };
    let tables = Tables::of(rings, k);
    Some(Filling {
        tables,
        filled: tables,
        edition,
    })
}

// Fills the tables to be filled, if the lengths are those of the tablebase.
fn fill(filling: &Filling, entries: &mut [u16], counts: &mut [u16]) -> bool
    ensures { UnchangedUnless result entries.old entries.new × UnchangedUnless result counts.old counts.new }
{
    let length = filling.tables.length;
    if (entries.len() != length) | (counts.len() != length) {
        return false;
    }
    second_passes::open(filling, entries, counts);
    waves(filling, entries, counts);
    true
}

// The next greater depth that an entry states and that is not the deepest, if one does. Given depths may leave out any number between them.
fn next_depth(entries: &[u16], depth: u16) -> Option<u16>
    ensures { IfSome result (λ d. (depth < d) × (d < 65533)) }
{
    entries
        .iter()
        .copied()
        .filter(|entry| (depth < *entry) & (*entry < DEEPEST))
        .min()
}

// Waves of rising depth, as long as an entry states a greater one.
fn waves(filling: &Filling, entries: &mut [u16], counts: &mut [u16]) {
    let mut depth = 0;
    'waves: loop {
        second_passes::wave(filling, depth, entries, counts);
        let Some(next) = next_depth(entries, depth) else {
            return;
        };
        depth = next;
    }
}
