// Where the tables of a tablebase (document 01: shelf) start, and how long it is.
#![tactic(auto)]

ghost use Rattle.std.specs.Prelude.{◌≡◌, map, ◌*◌, ◌^◌, ◌≤◌};
ghost use Rattle.lists.specs.Lists.{range, each};
ghost use Rattle.layout.specs.Layout.{table, row, entries, start, end, tablebase_length};

// The entries of the first n tables of m of the mover's stones.
fn row(points: usize, m: usize, n: usize) -> usize
    requires { (points ≤ 24) × (m ≤ 24) × (n ≤ 7) }
    ensures { (result ≡ entries points (map (λ o. table m o) (range 3 n))) × (result ≤ 2 ^ 48 * 7) }
{
    let mut sum: usize = 0;
    for j in 0..n {
        sum += sizes::size(points, m, 3 + j);
    }
    sum
}

// The entries of the first n rows.
fn rows(points: usize, k: usize, n: usize) -> usize
    requires { (points ≤ 24) × (3 ≤ k) × (k ≤ 9) × (n ≤ 8) }
    ensures { (result ≡ entries points (each (λ m. row k m) (range 3 n))) × (result ≤ 2 ^ 48 * 56) }
{
    let mut sum: usize = 0;
    for i in 0..n {
        sum += row(points, 3 + i, k - 2);
    }
    sum
}

// Where table (m, o) starts.
pub fn start(points: usize, k: usize, m: usize, o: usize) -> usize
    requires { (points ≤ 24) × (k ≤ 9) × (3 ≤ m) × (m ≤ k) × (3 ≤ o) × (o ≤ k) }
    ensures { (result ≡ start points k m o) × (result ≤ 2 ^ 54) }
{
    rows(points, k, m - 3) + row(points, m, o - 3)
}

// Where table (m, o) ends: the places from its start on and below its end are its own.
pub fn end(points: usize, k: usize, m: usize, o: usize) -> usize
    requires { (points ≤ 24) × (k ≤ 9) × (3 ≤ m) × (m ≤ k) × (3 ≤ o) × (o ≤ k) }
    ensures { (result ≡ end points k m o) × (result ≤ 2 ^ 55) }
{
    start(points, k, m, o) + sizes::size(points, m, o)
}

// How many entries a tablebase of largest count k has.
pub fn tablebase_length(points: usize, k: usize) -> usize
    requires { (points ≤ 24) × (3 ≤ k) × (k ≤ 9) }
    ensures { (result ≡ tablebase_length points k) × (result ≤ 2 ^ 54) }
{
    rows(points, k, k - 2)
}
