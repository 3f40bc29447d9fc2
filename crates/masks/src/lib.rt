// The masks of a board: the neighbours of each point and the two mills through it, as sets. A call derives them once from the fixed tables and lends
// them down. This crate alone knows where the parts lie.
#![tactic(auto)]

ghost use Rattle.std.specs.Prelude.{◌≡◌, [], ◌-◌, ◌*◌, ◌^◌, ◌≤◌, ◌<◌, length, get_or, replicate};
ghost use Rattle.sets.specs.Sets.{set_from};
ghost use Rattle.geometry.specs.Geometry.{neighbours, mills, mills_through};
ghost use Rattle.masks.specs.Inner.Masks.{Masks};
ghost use Rattle.masks.specs.Inner.Placing.{placed, mill_placed, mills_placed};

// The neighbours of a point.
pub fn neighbours(masks: &[u32; 72], rings: usize, p: usize) -> u32
    requires { Masks rings masks.now × (p < 24) }
    ensures { result ≡ set_from (neighbours rings p) }
{
    masks[p]
}

// Mill j through a point, the empty set where there is none.
pub fn mill(masks: &[u32; 72], rings: usize, p: usize, j: usize) -> u32
    requires { Masks rings masks.now × (p < 24) × (j < 2) }
    ensures { result ≡ set_from (get_or (mills_through rings p) j []) }
{
    masks[24 + 2 * p + j]
}

// A mill at the first of the two places of one of its points, or at the second where the first is taken.
fn place(masks: &mut [u32; 72], p: usize, mill: u32)
    requires { p < 24 }
    ensures { masks.new ≡ placed p mill masks.old }
{
    let first = 24 + 2 * p;
    let taken = masks[first] != 0;
    masks[first + taken as usize] = mill;
}

// One of the sixteen mills at its three points.
fn place_mill(masks: &mut [u32; 72], mill: usize)
    requires { mill < 16 }
    ensures { masks.new ≡ mill_placed mill masks.old }
{
    let s = geometry::mill_set(mill);
    place(masks, geometry::mill_point(mill, 0), s);
    place(masks, geometry::mill_point(mill, 1), s);
    place(masks, geometry::mill_point(mill, 2), s);
}

// How many of the sixteen mills are mills of the board.
fn mill_count(rings: usize) -> usize
    requires { rings ≤ 3 }
    ensures { (result ≡ length (mills rings)) × (result ≤ 16) }
{
    if rings == 3 {
        return 16;
    }
    4 * rings
}

// The mills of the board, each at its points.
fn mills_placed(rings: usize) -> [u32; 72]
    requires { rings ≤ 3 }
    ensures { result ≡ mills_placed (length (mills rings)) (replicate 72 0) }
{
    let count = mill_count(rings);
    let mut masks = [0u32; 72];
    for i in 0..count {
        place_mill(&mut masks, i);
    }
    masks
}

// The neighbours of one point on three rings: two, three or four.
fn neighbour_mask(p: usize) -> u32
    requires { p < 24 }
    ensures { result ≡ set_from (neighbours 3 p) }
{
    let degree = geometry::degree(p);
    let first = sets::with(0, geometry::neighbour(p, 0));
    let two = sets::with(first, geometry::neighbour(p, 1));
    if degree == 2 {
        return two;
    }
    let three = sets::with(two, geometry::neighbour(p, 2));
    if degree == 3 {
        return three;
    }
    sets::with(three, geometry::neighbour(p, 3))
}

// The points of a board.
fn all_points(rings: usize) -> u32
    requires { rings ≤ 3 }
    ensures { result ≡ 2 ^ (8 * rings) - 1 }
{
    (1u32 << (8 * rings)) - 1
}

// The masks of a board.
pub fn masks_of(rings: usize) -> [u32; 72]
    requires { rings ≤ 3 }
    ensures { Masks rings result }
{
    let points = all_points(rings);
    let mut masks = mills_placed(rings);
    for p in 0..24 {
        masks[p] = points & neighbour_mask(p);
    }
    masks
}
