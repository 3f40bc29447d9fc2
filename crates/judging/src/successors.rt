// Whether some successor of a position has an entry that is asked for: over sets, and no further than the first that has.
ghost use Rattle.std.specs.Prelude.{◌≡◌, ◌*◌, length};
ghost use Rattle.lists.specs.Lists.{any};
ghost use Rattle.board.specs.Board.{board_of};
ghost use Rattle.rules.specs.Ply.{destinations, stone_moves, after_ply, removable, successors};
ghost use Rattle.masks.specs.Inner.Masks.{Masks};
ghost use Rattle.probing.specs.Inner.Conditions.{Probing};
ghost use Rattle.asking.specs.Inner.Questions.{Movable, entry_asked};

use asking::{Question, Stone};

// Whether some move of one stone under the question's edition, to the set of its destinations, leads to a position whose entry is asked for.
fn some_destination(
    tablebase: &[u16],
    masks: &[u32; 72],
    rings: usize,
    question: Question,
    position: board::Position,
    stone: Stone,
) -> bool
    requires probing { Probing (length tablebase.now) rings question.starts position }
    requires movable { Movable rings masks.now position stone }
    ensures { result ≡ any (λ m. entry_asked tablebase.now question (board_of (8 * rings) position)
        (after_ply (board_of (8 * rings) position) m))
        (stone_moves (removable question.edition) rings (board_of (8 * rings) position) stone.from
        (destinations rings (board_of (8 * rings) position) stone.from)) }
{
    if sets::count(stone.tos) <= inserting::WALK_PAYS_ABOVE {
        return asking::some_slide(tablebase, masks, rings, question, position, stone);
    }
    jumping::some_jump(tablebase, masks, rings, question, position, stone)
}

// Whether some successor of a position under the question's edition has an entry that is asked for.
pub fn some_successor(
    tablebase: &[u16],
    masks: &[u32; 72],
    rings: usize,
    question: Question,
    position: board::Position,
) -> bool
    requires probing { Probing (length tablebase.now) rings question.starts position }
    requires masks { Masks rings masks.now }
    ensures { result ≡ any (λ c. entry_asked tablebase.now question (board_of (8 * rings) position) c)
        (successors (removable question.edition) rings (board_of (8 * rings) position)) }
{
    let mut left = position.mover;
    while left != 0 {
        let from = sets::take_lowest(left);
        let tos = plies::destinations(rings, masks, position, from.lowest);
        if some_destination(
            tablebase,
            masks,
            rings,
            question,
            position,
            Stone {
                from: from.lowest,
                tos: tos,
            },
        ) {
            return true;
        }
        left = from.rest;
    }
    false
}
