// The ranks of a position with one stone more, of one side, at one vacant point after the other from the lowest up. From point to point only what the
// stones between the two add is reckoned again.
#![tactic(auto)]

ghost use Rattle.std.specs.Prelude.{◌≡◌, suc, ◌+◌, ◌≤◌, ◌<◌, set};
ghost use Rattle.sets.specs.Sets.{members};
ghost use Rattle.board.specs.Board.{digit, board_of};
ghost use Rattle.ranking.specs.Inner.Rankable.{Rankable};
ghost use Rattle.ranking.specs.Rank.{rank};
ghost use Rattle.inserting.specs.Inner.Inserting.{Inserting, Vacant, put_stone};

use board::Position;

// For so few points a walk costs more than it saves.
pub const WALK_PAYS_ABOVE: u32 = 4;

// The point reached; the stones below it, and the opponent's among them; and what the position's stones add to the rank where the new stone is counted
// below those from here on.
#[derive(Clone, Copy)]
pub struct Insertion {
    pub at: usize,
    pub stones: usize,
    pub o: usize,
    pub gain: usize,
}

// The position with one stone more, the opponent's or the mover's.
fn put_stone(position: Position, theirs: bool, p: usize) -> Position
    requires { p < 32 }
    ensures { result ≡ put_stone theirs position p }
{
    if theirs {
        return Position {
            mover: position.mover,
            opponent: sets::with(position.opponent, p),
        };
    }
    Position {
        mover: sets::with(position.mover, p),
        opponent: position.opponent,
    }
}

// How many points below p are members.
fn count_below(s: u32, p: usize) -> usize
    requires { p < 32 }
    ensures { result ≡ members s p }
{
    sets::count(s & ((1u32 << p) - 1)) as usize
}

// Begins at a vacant point, with the rank of the position that has the stone there.
pub fn begin(points: usize, position: Position, theirs: bool, at: usize) -> Insertion
    requires rankable { Rankable points position }
    requires vacant { Vacant (board_of points position) at }
    ensures { (result.at ≡ at) × Inserting (board_of points position) theirs result }
{
    let whole = ranking::rank(points, put_stone(position, theirs, at));
    let o = count_below(position.opponent, at);
    let stones = count_below(position.mover, at) + o;
    let here = ranking::contribution(theirs, at, stones + 1, o + theirs as usize);
    Insertion {
        at: at,
        stones: stones,
        o: o,
        gain: whole - here,
    }
}

// The rank of the position with the stone at the point reached.
pub fn rank_at(points: usize, position: Position, theirs: bool, walk: Insertion) -> usize
    requires rankable { Rankable points position }
    requires vacant { Vacant (board_of points position) walk.at × Inserting (board_of points position) theirs walk }
    ensures { result ≡ rank (set (board_of points position) walk.at (suc (digit theirs))) }
{
    walk.gain + ranking::contribution(theirs, walk.at, walk.stones + 1, walk.o + theirs as usize)
}

// Passes a point. A stone there is from now on below the new one.
fn pass(points: usize, position: Position, theirs: bool, walk: Insertion) -> Insertion
    requires rankable { Rankable points position }
    requires at_lt_points { (walk.at < points) × Inserting (board_of points position) theirs walk }
    ensures { (result.at ≡ walk.at + 1) × Inserting (board_of points position) theirs result }
{
    let p = walk.at;
    if sets::has(position.mover | position.opponent, p) {
        let x = sets::has(position.opponent, p);
        let stones = walk.stones + 1;
        let o = walk.o + x as usize;
        let old = ranking::contribution(x, p, stones + 1, o + theirs as usize);
        let new = ranking::contribution(x, p, stones, o);
        return Insertion {
            at: p + 1,
            stones: stones,
            o: o,
            gain: walk.gain + new - old,
        };
    }
    Insertion {
        at: p + 1,
        stones: walk.stones,
        o: walk.o,
        gain: walk.gain,
    }
}

// Goes on to a point.
pub fn go_to(
    points: usize,
    position: Position,
    theirs: bool,
    walk: Insertion,
    to: usize,
) -> Insertion
    requires rankable { Rankable points position }
    requires at_le_to { (walk.at ≤ to) × (to < points) × Inserting (board_of points position) theirs walk }
    ensures { (result.at ≡ to) × Inserting (board_of points position) theirs result }
{
    let mut now = walk;
    while now.at < to {
        now = pass(points, position, theirs, now);
    }
    now
}
