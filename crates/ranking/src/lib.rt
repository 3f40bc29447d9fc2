// The rank of a position, and the position of a rank.
#![tactic(auto)]

ghost use Rattle.std.specs.Prelude.{◌≡◌, cond, suc, ◌+◌, ◌-◌, ◌≤◌, ◌<◌};
ghost use Rattle.board.specs.Board.{digit, board_of, position_of};
ghost use Rattle.sizes.specs.Size.{size};
ghost use Rattle.ranking.specs.Rank.{rank};
ghost use Rattle.ranking.specs.Inner.Rankable.{Rankable};
ghost use Rattle.ranking.specs.Unrank.{below, top_value, unrank};

use board::Position;

// With m and o stones on n + 1 points, how many boards have a lower value than x at the highest point.
fn below(x: u8, n: usize, m: usize, o: usize) -> usize
    requires { (n < 24) × (m ≤ 24) × (o ≤ 24) }
    ensures { result ≡ below x n m o }
{
    if x == 0 {
        return 0;
    }
    let vacant = sizes::size(n, m, o);
    if x == 1 {
        return vacant;
    }
    if m == 0 {
        return vacant;
    }
    vacant + sizes::size(n, m - 1, o)
}

// One of two numbers. Short enough for a conditional move: a branch on whose stone it is would be mispredicted half the time.
fn choose(test: bool, a: usize, b: usize) -> usize
    ensures { result ≡ cond test a b }
{
    if test {
        return a;
    }
    b
}

// What a stone at p adds to the rank, the opponent's or the mover's, with so many stones at the points up to p of which o are the opponent's: the
// boards that have a lower value there, as one product of two binomials.
pub fn contribution(theirs: bool, p: usize, stones: usize, o: usize) -> usize
    requires { (p < 24) × (o ≤ stones) × (stones ≤ p + 1) }
    ensures { result ≡ below (suc (digit theirs)) p (stones - o) o }
{
    sizes::binomial(p, choose(theirs, o, stones))
        * sizes::binomial(choose(theirs, p + 1 - o, stones), stones - o)
}

// The rank of a position's board. The stones come from the lowest up, so the counts so far are those of the board's part; vacant points add nothing.
pub fn rank(points: usize, position: Position) -> usize
    requires { Rankable points position }
    ensures { result ≡ rank (board_of points position) }
{
    let mut stones: usize = 0;
    let mut o: usize = 0;
    let mut r: usize = 0;
    let mut left = position.mover | position.opponent;
    while left != 0 {
        let p = sets::take_lowest(left);
        let theirs = sets::has(position.opponent, p.lowest);
        stones += 1;
        o += theirs as usize;
        r += contribution(theirs, p.lowest, stones, o);
        left = p.rest;
    }
    r
}

// What stands at the highest of n + 1 points in the board of rank r with m and o stones.
fn top_value(n: usize, m: usize, o: usize, r: usize) -> u8
    requires { (n < 24) × (m ≤ 24) × (o ≤ 24) }
    ensures { result ≡ top_value n m o r }
{
    if r < below(1, n, m, o) {
        return 0;
    }
    if r < below(2, n, m, o) {
        return 1;
    }
    2
}

// The position whose board has this rank, from the highest point down.
pub fn unrank(points: usize, mover: usize, opponent: usize, rank: usize) -> Position
    requires { (points ≤ 24) × (rank < size points mover opponent) }
    ensures { result ≡ position_of (unrank points mover opponent rank) }
{
    let mut first: u32 = 0;
    let mut second: u32 = 0;
    let mut m = mover;
    let mut o = opponent;
    let mut r = rank;
    for i in (0..points).rev() {
        let x = top_value(i, m, o, r);
        r -= below(x, i, m, o);
        m -= (x == 1) as usize;
        o -= (x == 2) as usize;
        first = 2 * first + (x == 1) as u32;
        second = 2 * second + (x == 2) as u32;
    }
    Position {
        mover: first,
        opponent: second,
    }
}
