// The first refusal that rings and a board meet, or rings and counts, with an edition and a target or without.
#![tactic(auto)]

ghost use Rattle.std.specs.Prelude.{◌≡◌, ◌≤◌, length};
ghost use Rattle.sets.specs.Sets.{members};
ghost use Rattle.board.specs.Board.{count};
ghost use Rattle.answers.specs.Answers.{met};
ghost use Rattle.refusals.specs.Refusals.{refusal};
ghost use Rattle.refusals.specs.Conditions.{rings_wrong, edition_wrong, value_wrong, counts_wrong};
ghost use Rattle.refusals.specs.Conditions.{board_picks, edition_picks, ruled_picks, stones_picks, counts_picks, target_picks};

use answers::Refusal;

// Rings other than 1, 2 or 3.
pub fn rings_wrong(rings: u8) -> bool
    ensures { result ≡ rings_wrong rings }
{
    (rings < 1) | (3 < rings)
}

// An edition other than 1 or 2.
fn edition_wrong(edition: u8) -> bool
    ensures { result ≡ edition_wrong edition }
{
    (edition < 1) | (2 < edition)
}

// A value above 2.
fn value_wrong(board: &[u8]) -> bool
    ensures { result ≡ value_wrong board.now }
{
    board.iter().any(|&x| 2 < x)
}

// A count outside 3 to 9, or a sum above the points.
fn counts_wrong(points: u32, m: u32, o: u32) -> bool
    requires { (m ≤ 255) × (o ≤ 255) }
    ensures { result ≡ counts_wrong points m o }
{
    (m < 3) | (9 < m) | (o < 3) | (9 < o) | (points < m + o)
}

// The counts of a position's stones.
pub fn sides_wrong(points: u32, mover: u32, opponent: u32) -> bool
    ensures { result ≡ counts_wrong points (members mover 32) (members opponent 32) }
{
    counts_wrong(points, sets::count(mover), sets::count(opponent))
}

// The counts of a board's stones.
fn stones_wrong(points: u32, board: &[u8]) -> bool
    requires { length board.now ≤ 24 }
    ensures { result ≡ counts_wrong points (count 1 board.now) (count 2 board.now) }
{
    let position = board::position_of(board);
    sides_wrong(points, position.mover, position.opponent)
}

// The first refusal that rings and a board meet.
pub fn of_board(rings: u8, board: &[u8]) -> Result<(), Refusal>
    ensures { met result ≡ refusal (board_picks rings board.now) }
{
    if rings_wrong(rings) {
        return Err(Refusal::Rings);
    }
    let points = 8 * rings;
    if board.len() != points as usize {
        return Err(Refusal::BoardLength);
    }
    if value_wrong(board) {
        return Err(Refusal::BoardValue);
    }
    if stones_wrong(points as u32, board) {
        return Err(Refusal::Counts);
    }
    Ok(())
}

// The first refusal that rings and an edition meet.
pub fn of_edition(rings: u8, edition: u8) -> Result<(), Refusal>
    ensures { met result ≡ refusal (edition_picks rings edition) }
{
    if rings_wrong(rings) {
        return Err(Refusal::Rings);
    }
    if edition_wrong(edition) {
        return Err(Refusal::Edition);
    }
    Ok(())
}

// The first refusal that rings, an edition and a board meet.
pub fn of_ruled(rings: u8, edition: u8, board: &[u8]) -> Result<(), Refusal>
    ensures { met result ≡ refusal (ruled_picks rings edition board.now) }
{
    of_edition(rings, edition)?;
    of_board(rings, board)
}

// The first refusal that rings, an edition, a board and a target of so many bytes meet.
pub fn of_target(rings: u8, edition: u8, board: &[u8], room: usize) -> Result<(), Refusal>
    ensures { met result ≡ refusal (target_picks rings edition board.now room) }
{
    of_ruled(rings, edition, board)?;
    if room != board.len() {
        return Err(Refusal::InexactLength);
    }
    Ok(())
}

// The first refusal that rings and counts meet.
pub fn of_stones(rings: u8, mover: u8, opponent: u8) -> Result<(), Refusal>
    ensures { met result ≡ refusal (stones_picks rings mover opponent) }
{
    if rings_wrong(rings) {
        return Err(Refusal::Rings);
    }
    if counts_wrong(8 * rings as u32, mover as u32, opponent as u32) {
        return Err(Refusal::Counts);
    }
    Ok(())
}

// The first refusal that rings, counts and a target of so many bytes meet.
pub fn of_counts(rings: u8, mover: u8, opponent: u8, room: usize) -> Result<(), Refusal>
    ensures { met result ≡ refusal (counts_picks rings mover opponent room) }
{
    of_stones(rings, mover, opponent)?;
    if room != 8 * rings as usize {
        return Err(Refusal::InexactLength);
    }
    Ok(())
}
