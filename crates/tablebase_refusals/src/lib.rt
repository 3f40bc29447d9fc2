// The first refusal that a tablebase meets, with a board, to be checked or to be filled.
#![tactic(auto)]

ghost use Rattle.std.specs.Prelude.{◌≡◌, ◌≤◌, [], ◌∷◌};
ghost use Rattle.sets.specs.Sets.{members};
ghost use Rattle.answers.specs.Answers.{met};
ghost use Rattle.refusals.specs.Refusals.{pick, wrong_limit, refusal};
ghost use Rattle.refusals.specs.Conditions.{count_above, largest_wrong, tablebase_wrong, limit_wrong};
ghost use Rattle.refusals.specs.Conditions.{largest_picks, tablebase_picks, check_picks, fill_picks, tables_picks};

use answers::Refusal;
use board::Position;

// The highest limit, in plies.
const LARGEST_LIMIT: u32 = 65533;

// A count above K.
fn count_above(k: u32, m: u32, o: u32) -> bool
    ensures { result ≡ count_above k m o }
{
    (k < m) | (k < o)
}

// A count of a position's stones above K.
fn stones_above(k: u8, position: Position) -> bool
    ensures { result ≡ count_above k (members position.mover 32) (members position.opponent 32) }
{
    count_above(
        k as u32,
        sets::count(position.mover),
        sets::count(position.opponent),
    )
}

// K outside 3 to 9, or a count above it.
fn largest_wrong(k: u8, above: bool) -> bool
    ensures { result ≡ largest_wrong k above }
{
    (k < 3) | (9 < k) | above
}

// The length of a tablebase not exact.
fn tablebase_wrong(rings: u8, k: u8, length: usize) -> bool
    requires { (rings ≤ 3) × (3 ≤ k) × (k ≤ 9) }
    ensures { result ≡ tablebase_wrong rings k length }
{
    length != layout::tablebase_length(8 * rings as usize, k as usize)
}

// The refusal of a limit above the highest.
fn of_limit(limit: u32) -> Result<(), Refusal>
    ensures { met result ≡ refusal (pick wrong_limit (limit_wrong limit) ∷ []) }
{
    if LARGEST_LIMIT < limit {
        return Err(Refusal::Limit);
    }
    Ok(())
}

// The first refusal that K and a tablebase of so many entries meet.
fn of_largest(rings: u8, k: u8, above: bool, length: usize) -> Result<(), Refusal>
    requires { rings ≤ 3 }
    ensures { met result ≡ refusal (largest_picks rings k above length) }
{
    if largest_wrong(k, above) {
        return Err(Refusal::Largest);
    }
    if tablebase_wrong(rings, k, length) {
        return Err(Refusal::InexactLength);
    }
    Ok(())
}

// The first refusal that rings, an edition, a board that a game must reach, K and a tablebase of so many entries meet.
pub fn of_tablebase(
    rings: u8,
    edition: u8,
    board: &[u8],
    k: u8,
    length: usize,
) -> Result<(), Refusal>
    ensures { met result ≡ refusal (tablebase_picks rings edition board.now k length) }
{
    board_refusals::of_ruled(rings, edition, board)?;
    let position = board::position_of(board);
    if reachability::unreachable(rings, edition, position) {
        return Err(Refusal::Unreachable);
    }
    of_largest(rings, k, stones_above(k, position), length)
}

// The first refusal that a call to check a tablebase meets.
pub fn of_check(rings: u8, edition: u8, k: u8, length: usize) -> Result<(), Refusal>
    ensures { met result ≡ refusal (check_picks rings edition k length) }
{
    board_refusals::of_edition(rings, edition)?;
    of_largest(rings, k, false, length)
}

// The first refusal that a call to fill a tablebase meets.
pub fn of_fill(rings: u8, edition: u8, k: u8, limit: u32, length: usize) -> Result<(), Refusal>
    ensures { met result ≡ refusal (fill_picks rings edition k limit length) }
{
    of_check(rings, edition, k, length)?;
    of_limit(limit)
}

// The first refusal that a call to fill a pair of tables meets before the lower tables are read.
pub fn of_pair(
    rings: u8,
    edition: u8,
    mover: u8,
    opponent: u8,
    k: u8,
    limit: u32,
    length: usize,
) -> Result<(), Refusal>
    ensures { met result ≡ refusal (tables_picks rings edition mover opponent k limit length) }
{
    let above = count_above(k as u32, mover as u32, opponent as u32);
    board_refusals::of_edition(rings, edition)?;
    board_refusals::of_stones(rings, mover, opponent)?;
    of_largest(rings, k, above, length)?;
    of_limit(limit)
}
