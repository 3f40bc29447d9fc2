// Where the tables of a tablebase lie: a table and the one below it, and the tables of a position's successors.
#![tactic(auto)]

ghost use Rattle.std.specs.Prelude.{◌≡◌, ◌*◌, ◌≤◌};
ghost use Rattle.board.specs.Board.{count, board_of};
ghost use Rattle.layout.specs.Layout.{start, end};
ghost use Rattle.plies.specs.Inner.Positions.{Placed};
ghost use Rattle.tables.specs.Inner.Tables.{lower_start, lower_end, Located};

use parts::Part;

// The table (mover, opponent): its own part, and that of the table which a removal leads to, empty where that leaves two stones.
#[derive(Clone, Copy)]
pub struct Table {
    pub mover: usize,
    pub opponent: usize,
    pub own: Part,
    pub lower: Part,
}

// Where the tables of a position's successors start: of those without a removal, and of those with one.
#[derive(Clone, Copy)]
pub struct Starts {
    pub same: usize,
    pub fewer: usize,
}

fn part_of(points: usize, k: usize, m: usize, o: usize) -> Part
    requires { (points ≤ 24) × (k ≤ 9) × (3 ≤ m) × (m ≤ k) × (3 ≤ o) × (o ≤ k) }
    ensures { (result.start ≡ start points k m o) × (result.end ≡ end points k m o) }
{
    Part {
        start: layout::start(points, k, m, o),
        end: layout::end(points, k, m, o),
    }
}

// The part of table (o - 1, m), which a removal from (m, o) leads to.
fn lower_part(points: usize, k: usize, m: usize, o: usize) -> Part
    requires { (points ≤ 24) × (k ≤ 9) × (3 ≤ m) × (m ≤ k) × (3 ≤ o) × (o ≤ k) }
    ensures { (result.start ≡ lower_start points k m o) × (result.end ≡ lower_end points k m o) }
{
    if o == 3 {
        return Part { start: 0, end: 0 };
    }
    part_of(points, k, o - 1, m)
}

pub fn table_of(points: usize, k: usize, m: usize, o: usize) -> Table
    requires { (points ≤ 24) × (k ≤ 9) × (3 ≤ m) × (m ≤ k) × (3 ≤ o) × (o ≤ k) }
    ensures { Located points k m o result }
{
    Table {
        mover: m,
        opponent: o,
        own: part_of(points, k, m, o),
        lower: lower_part(points, k, m, o),
    }
}

// The sides change names after a ply, so the successors without a removal are in table (o, m).
pub fn starts_of(rings: usize, k: usize, position: board::Position) -> Starts
    requires placed { Placed rings position }
    requires k_bound { (k ≤ 9) × (3 ≤ count 1 (board_of (8 * rings) position)) × (count 1 (board_of (8 * rings) position) ≤ k)
        × (3 ≤ count 2 (board_of (8 * rings) position)) × (count 2 (board_of (8 * rings) position) ≤ k) }
    ensures same { result.same ≡ start (8 * rings) k (count 2 (board_of (8 * rings) position)) (count 1 (board_of (8 * rings) position)) }
    ensures fewer { result.fewer ≡ lower_start (8 * rings) k (count 1 (board_of (8 * rings) position)) (count 2 (board_of (8 * rings) position)) }
{
    let m = sets::count(position.mover) as usize;
    let o = sets::count(position.opponent) as usize;
    let table = table_of(8 * rings, k, m, o);
    let lower = table.lower;
    Starts {
        same: layout::start(8 * rings, k, o, m),
        fewer: lower.start,
    }
}
