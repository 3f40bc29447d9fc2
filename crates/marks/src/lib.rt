// Open positions marked: one, and those that have one stone more than a given one.
#![tactic(auto)]

ghost use Rattle.std.specs.Prelude.{◌≡◌, map, suc, ◌+◌, ◌*◌, length, set};
ghost use Rattle.sets.specs.Sets.{elements};
ghost use Rattle.board.specs.Board.{digit, board_of};
ghost use Rattle.ranking.specs.Rank.{rank};
ghost use Rattle.marks.specs.Inner.Marks.{mark_at, marked, places};
ghost use Rattle.marks.specs.Inner.Putting.{Markable, Putting};

use parts::Part;

// Marks a position in its table.
pub fn mark_position(tablebase: &mut [u16], rings: usize, part: Part, position: board::Position)
    requires { Markable (length tablebase.old) rings part position }
    ensures { tablebase.new ≡ mark_at (part.start + rank (board_of (8 * rings) position)) tablebase.old }
{
    let r = ranking::rank(8 * rings, position);
    parts::mark_entry(tablebase, part, r);
}

// Marks the positions that have one stone more, the opponent's or the mover's, at each of some vacant points. They are ranked in one walk up the points.
pub fn mark_put(
    tablebase: &mut [u16],
    rings: usize,
    part: Part,
    base: board::Position,
    theirs: bool,
    points: u32,
)
    requires { Putting (length tablebase.old) rings part base theirs points }
    ensures { tablebase.new
        ≡ marked (places part.start (map (λ p. set (board_of (8 * rings) base) p (suc (digit theirs))) (elements 32 points))) tablebase.old }
{
    if points != 0 {
        let mut walk = inserting::begin(8 * rings, base, theirs, sets::lowest(points));
        let mut left = points;
        while left != 0 {
            let p = sets::take_lowest(left);
            walk = inserting::go_to(8 * rings, base, theirs, walk, p.lowest);
            let r = inserting::rank_at(8 * rings, base, theirs, walk);
            parts::mark_entry(tablebase, part, r);
            left = p.rest;
        }
    }
}
