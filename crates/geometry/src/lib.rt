// The board's geometry: neighbours and mills as fixed tables by point number (document 01, "The board").
#![tactic(auto)]

ghost use Rattle.std.specs.Prelude.{◌≡◌, [], ◌<◌, length, get_or};
ghost use Rattle.sets.specs.Sets.{set_from};
ghost use Rattle.geometry.specs.Geometry.{neighbours, mills};
ghost use Rattle.geometry.specs.Tables.{mill_point};

// Four places for each point: its neighbours by rising number, then zeros.
static NEIGHBOURS: [usize; 96] = [
    1, 7, 0, 0, 0, 2, 9, 0, 1, 3, 0, 0, 2, 4, 11, 0, 3, 5, 0, 0, 4, 6, 13, 0, 5, 7, 0, 0, 0, 6, 15,
    0, 9, 15, 0, 0, 1, 8, 10, 17, 9, 11, 0, 0, 3, 10, 12, 19, 11, 13, 0, 0, 5, 12, 14, 21, 13, 15,
    0, 0, 7, 8, 14, 23, 17, 23, 0, 0, 9, 16, 18, 0, 17, 19, 0, 0, 11, 18, 20, 0, 19, 21, 0, 0, 13,
    20, 22, 0, 21, 23, 0, 0, 15, 16, 22, 0,
];

// How many neighbours each point has.
static DEGREES: [usize; 24] = [
    2, 3, 2, 3, 2, 3, 2, 3, 2, 4, 2, 4, 2, 4, 2, 4, 2, 3, 2, 3, 2, 3, 2, 3,
];

// Three places for each mill: the four of each ring from the outermost, then the four across the rings.
static MILLS: [usize; 48] = [
    0, 1, 2, 2, 3, 4, 4, 5, 6, 6, 7, 0, 8, 9, 10, 10, 11, 12, 12, 13, 14, 14, 15, 8, 16, 17, 18,
    18, 19, 20, 20, 21, 22, 22, 23, 16, 1, 9, 17, 3, 11, 19, 5, 13, 21, 7, 15, 23,
];

// Neighbour j of a point, 0 where it has fewer.
pub fn neighbour(p: usize, j: usize) -> usize
    requires { (p < 24) × (j < 4) }
    ensures { result ≡ get_or (neighbours 3 p) j 0 }
{
    NEIGHBOURS[4 * p + j]
}

// How many neighbours a point has.
pub fn degree(p: usize) -> usize
    requires { p < 24 }
    ensures { result ≡ length (neighbours 3 p) }
{
    DEGREES[p]
}

// Point j of a mill.
pub fn mill_point(mill: usize, j: usize) -> usize
    requires { (mill < 16) × (j < 3) }
    ensures { result ≡ mill_point mill j }
{
    MILLS[3 * mill + j]
}

// A mill as a set.
pub fn mill_set(mill: usize) -> u32
    requires { mill < 16 }
    ensures { result ≡ set_from (get_or (mills 3) mill []) }
{
    sets::of_three(
        mill_point(mill, 0),
        mill_point(mill, 1),
        mill_point(mill, 2),
    )
}
