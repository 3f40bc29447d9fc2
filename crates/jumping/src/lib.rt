// Whether some move of a stone leads to an entry that is asked for, in one walk up its destinations: each rank is found from the one before.
#![tactic(auto)]

ghost use Rattle.std.specs.Prelude.{◌≡◌, ◌+◌, ◌*◌, length};
ghost use Rattle.lists.specs.Lists.{any};
ghost use Rattle.sets.specs.Sets.{elements};
ghost use Rattle.board.specs.Board.{board_of};
ghost use Rattle.rules.specs.Ply.{removable, destinations, stone_moves, after_ply};
ghost use Rattle.probing.specs.Inner.Conditions.{Probing};
ghost use Rattle.asking.specs.Inner.Questions.{Movable, Removing, entry_asked};
ghost use Rattle.jumping.specs.Inner.Jumping.{Jumping};

use asking::{Question, Stone};

// A slide by its number, the position after its stone is lifted, and a walk that has reached its destination.
#[derive(Clone, Copy)]
pub struct Jump {
    pub slide: usize,
    pub lifted: board::Position,
    pub walk: inserting::Insertion,
}

// Whether one of the moves of a slide leads to an entry that is asked for, where a walk has reached its destination: without a removal the rank is
// the walk's.
fn some_at(
    tablebase: &[u16],
    rings: usize,
    question: Question,
    position: board::Position,
    jump: Jump,
    removals: u32,
) -> bool
    requires probing { Probing (length tablebase.now) rings question.starts position }
    requires removing { Removing rings position jump.slide removals × Jumping rings position jump }
    ensures { result ≡ any (λ p. entry_asked tablebase.now question (board_of (8 * rings) position)
        (after_ply (board_of (8 * rings) position) (jump.slide + p))) (elements 32 removals) }
{
    if removals == plies::NO_REMOVAL {
        let r = inserting::rank_at(8 * rings, jump.lifted, true, jump.walk);
        let starts = question.starts;
        return asking::asked(question, tablebase[starts.same + r]);
    }
    asking::some_removal(tablebase, rings, question, position, jump.slide, removals)
}

// Whether some move of one stone under the question's edition, to the set of its destinations, leads to such an entry.
pub fn some_jump(
    tablebase: &[u16],
    masks: &[u32; 72],
    rings: usize,
    question: Question,
    position: board::Position,
    stone: Stone,
) -> bool
    requires probing { Probing (length tablebase.now) rings question.starts position }
    requires movable { Movable rings masks.now position stone × (stone.tos ≡ 0 → ⊥) }
    ensures { result ≡ any (λ m. entry_asked tablebase.now question (board_of (8 * rings) position)
        (after_ply (board_of (8 * rings) position) m))
        (stone_moves (removable question.edition) rings (board_of (8 * rings) position) stone.from
        (destinations rings (board_of (8 * rings) position) stone.from)) }
{
    let lifted = board::Position {
        mover: position.opponent,
        opponent: sets::without(position.mover, stone.from),
    };
    let mut walk = inserting::begin(8 * rings, lifted, true, sets::lowest(stone.tos));
    let mut left = stone.tos;
    while left != 0 {
        let point = sets::take_lowest(left);
        walk = inserting::go_to(8 * rings, lifted, true, walk, point.lowest);
        let removals = plies::removals(
            rings,
            question.edition,
            masks,
            position,
            stone.from,
            point.lowest,
        );
        if some_at(
            tablebase,
            rings,
            question,
            position,
            Jump {
                slide: making::slide_number(stone.from, point.lowest),
                lifted: lifted,
                walk: walk,
            },
            removals,
        ) {
            return true;
        }
        left = point.rest;
    }
    false
}
