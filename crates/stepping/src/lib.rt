// The position of the next rank, and of a rank a few steps on, from a position: no loop over the points.
#![tactic(auto)]

ghost use Rattle.std.specs.Prelude.{◌≡◌, suc, ◌+◌, ◌-◌, ◌*◌, ◌/◌, ◌^◌, ◌≤◌, ◌<◌};
ghost use Rattle.board.specs.Board.{count, board_of, position_of, OnBoard};
ghost use Rattle.sizes.specs.Size.{size};
ghost use Rattle.ranking.specs.Rank.{rank};
ghost use Rattle.ranking.specs.Unrank.{unrank};
ghost use Rattle.stepping.specs.Inner.Ends.{Ends};

use board::Position;

// The points outside a set that follow a member of it.
fn ends(s: u32) -> u32
    requires { s < 2 ^ 24 }
    ensures { Ends s result }
{
    2 * s - (2 * s & s)
}

// The set of n points from `start` on.
fn run(n: usize, start: usize) -> u32
    requires { n + start < 32 }
    ensures { result ≡ (2 ^ n - 1) * 2 ^ start }
{
    (1u32 << (n + start)) - (1u32 << start)
}

// The members from point n on.
fn from(s: u32, n: usize) -> u32
    requires { n < 32 }
    ensures { result ≡ s / 2 ^ n * 2 ^ n }
{
    (s >> n) << n
}

// One side of a board once the points up to p change: n stones from `start` on, one at p or none, and those above p as they are.
fn side(s: u32, p: usize, here: usize, n: usize, start: usize) -> u32
    requires { (s < 2 ^ 24) × (p < 24) × (here ≤ 1) × (n + start ≤ p) }
    ensures { result ≡ (2 ^ n - 1) * 2 ^ start + (here * 2 ^ p + s / 2 ^ (p + 1) * 2 ^ (p + 1)) }
{
    run(n, start) + (((here as u32) << p) + from(s, p + 1))
}

// The position of the next rank. Its lowest point p that holds less than the point before takes the least higher value from below; what is then
// left below p is put first: the opponent's stones, the mover's, and the vacant points. The values rise up to p, so the stones there are two runs:
// the mover's from the lowest stone, the opponent's from t, the lowest of theirs, or p where there is none.
pub fn next(points: usize, position: Position) -> Position
    requires points_bound { (points ≤ 24) × OnBoard points position }
    requires b_bound { let b = board_of points position in suc (rank b) < size points (count 1 b) (count 2 b) }
    ensures { let b = board_of points position in result ≡ position_of (unrank points (count 1 b) (count 2 b) (suc (rank b))) }
{
    let stones = position.mover | position.opponent;
    let p = sets::lowest(ends(position.opponent) | ends(stones));
    let t = sets::lowest(sets::with(position.opponent, p));
    let m = t - sets::lowest(stones);
    let o = p - t;
    let was = sets::has(position.mover, p) as usize;
    let one = (1 - was) * (0 < m) as usize;
    let mover = m + was - one;
    let opponent = o + one - 1;
    Position {
        mover: side(position.mover, p, one, mover, opponent),
        opponent: side(position.opponent, p, 1 - one, opponent, 0),
    }
}

// Up to so many steps are cheaper than the way through the points.
const STEPS: usize = 20;

// The position of a rank from that of a lower rank: by steps where they are few.
pub fn advance(
    points: usize,
    mover: usize,
    opponent: usize,
    position: Position,
    known: usize,
    rank: usize,
) -> Position
    requires points_bound { (points ≤ 24) × (known ≤ rank) × (rank < size points mover opponent) }
    requires position_value { position ≡ position_of (unrank points mover opponent known) }
    ensures { result ≡ position_of (unrank points mover opponent rank) }
{
    if STEPS < rank - known {
        return ranking::unrank(points, mover, opponent, rank);
    }
    let mut at = position;
    for _ in known..rank {
        at = next(points, at);
    }
    at
}
