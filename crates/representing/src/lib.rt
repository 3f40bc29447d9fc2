// The representative of a board's class: images of a whole board of 24 points, and the one of least rank.
#![tactic(auto)]

ghost use Rattle.std.specs.Prelude.{◌≡◌, ◌*◌, ◌≤◌, ◌<◌, length};
ghost use Rattle.board.specs.Board.{Values};
ghost use Rattle.ranking.specs.Rank.{rank};
ghost use Rattle.symmetry.specs.Symmetries.{symmetries, ring_from, source, image, whole};
ghost use Rattle.symmetry.specs.Representative.{in_use, least_image, representative};

const SYMMETRIES: usize = 16;

// The ring whose stones symmetry g brings to a ring: the rings reversed, or not.
fn ring_from(rings: usize, g: usize, ring: usize) -> usize
    requires { (rings ≤ 3) × (ring < rings) }
    ensures { (result ≡ ring_from rings g ring) × (result < 3) }
{
    if g / 8 == 1 {
        return rings - 1 - ring;
    }
    ring
}

// The point whose stone symmetry g brings to a point; a point not in use stays.
fn source(rings: usize, g: usize, point: usize) -> usize
    requires { (rings ≤ 3) × (point < 24) }
    ensures { (result ≡ source rings g point) × (result < 24) }
{
    if point < 8 * rings {
        return 8 * ring_from(rings, g, point / 8) + symmetry::place_from(g, point % 8);
    }
    point
}

// The image of a whole board.
fn image(rings: usize, g: usize, board: [u8; 24]) -> [u8; 24]
    requires { rings ≤ 3 }
    ensures { result ≡ image rings g board }
{
    let mut out = [0u8; 24];
    for p in 0..24 {
        out[p] = board[source(rings, g, p)];
    }
    out
}

// A board as a whole board of 24 points, the points not in use vacant.
fn whole(board: &[u8]) -> [u8; 24]
    requires { length board.now ≤ 24 }
    ensures { result ≡ whole board.now }
{
    let mut points = [0u8; 24];
    points[..board.len()].copy_from_slice(board);
    points
}

// The rank of a whole board's points in use.
fn rank_in_use(rings: usize, board: [u8; 24]) -> usize
    requires { (rings ≤ 3) × Values board }
    ensures { result ≡ rank (in_use rings board) }
{
    let points = 8 * rings;
    let position = board::position_of(&board[..points]);
    ranking::rank(points, position)
}

// The least image of a whole board, which is its own image under symmetry 0. The rank of the least so far is carried beside it.
fn least_image(rings: usize, board: [u8; 24]) -> [u8; 24]
    requires { (rings ≤ 3) × Values board }
    ensures { result ≡ least_image rings board symmetries }
{
    let mut best = board;
    let mut least = rank_in_use(rings, board);
    for g in 1..SYMMETRIES {
        let next = image(rings, g, board);
        let rank = rank_in_use(rings, next);
        if rank < least {
            best = next;
            least = rank;
        }
    }
    best
}

// The rank of the representative of a board's class.
pub fn representative_rank(rings: usize, board: &[u8]) -> usize
    requires { (rings ≤ 3) × (length board.now ≡ 8 * rings) × Values board.now }
    ensures { result ≡ rank (representative rings board.now) }
{
    let points = whole(board);
    let least = least_image(rings, points);
    rank_in_use(rings, least)
}
