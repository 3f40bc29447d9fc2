// Whether one of the moves of a slide, or of a stone, leads to an entry that is asked for: one move after the other, and no further than the first
// that does.
ghost use Rattle.std.specs.Prelude.{◌≡◌, ◌+◌, ◌*◌, length};
ghost use Rattle.lists.specs.Lists.{any};
ghost use Rattle.sets.specs.Sets.{elements};
ghost use Rattle.board.specs.Board.{board_of};
ghost use Rattle.rules.specs.Ply.{removable, destinations, stone_moves, after_ply};
ghost use Rattle.rules.specs.Inner.Making.{Makeable};
ghost use Rattle.probing.specs.Inner.Conditions.{Probing};
ghost use Rattle.asking.specs.Inner.Questions.{Movable, Removing, entry_asked};

use super::ranges::{Question, asked};

// One of the mover's stones, and where it may go.
#[derive(Clone, Copy)]
pub struct Stone {
    pub from: usize,
    pub tos: u32,
}

// Whether a move leads to a position whose entry is asked for.
fn leads(
    tablebase: &[u16],
    rings: usize,
    question: Question,
    position: board::Position,
    number: usize,
) -> bool
    requires probing { Probing (length tablebase.now) rings question.starts position }
    requires makeable { Makeable rings (board_of (8 * rings) position) number }
    ensures { result ≡ entry_asked tablebase.now question (board_of (8 * rings) position) (after_ply (board_of (8 * rings) position) number) }
{
    let entry = probing::entry_after_move(tablebase, rings, question.starts, position, number);
    asked(question, entry)
}

// Whether one of the moves of a slide, given by what they remove, leads to such a position.
pub fn some_removal(
    tablebase: &[u16],
    rings: usize,
    question: Question,
    position: board::Position,
    slide: usize,
    removals: u32,
) -> bool
    requires probing { Probing (length tablebase.now) rings question.starts position }
    requires removing { Removing rings position slide removals }
    ensures { result ≡ any (λ p. entry_asked tablebase.now question (board_of (8 * rings) position)
        (after_ply (board_of (8 * rings) position) (slide + p))) (elements 32 removals) }
{
    let mut left = removals;
    while left != 0 {
        let removed = sets::take_lowest(left);
        if leads(tablebase, rings, question, position, slide + removed.lowest) {
            return true;
        }
        left = removed.rest;
    }
    false
}

// Whether some move of one stone under the question's edition, to the set of its destinations, leads to such a position.
pub fn some_slide(
    tablebase: &[u16],
    masks: &[u32; 72],
    rings: usize,
    question: Question,
    position: board::Position,
    stone: Stone,
) -> bool
    requires probing { Probing (length tablebase.now) rings question.starts position }
    requires movable { Movable rings masks.now position stone }
    ensures { result ≡ any (λ m. entry_asked tablebase.now question (board_of (8 * rings) position)
        (after_ply (board_of (8 * rings) position) m))
        (stone_moves (removable question.edition) rings (board_of (8 * rings) position) stone.from
        (destinations rings (board_of (8 * rings) position) stone.from)) }
{
    let mut left = stone.tos;
    while left != 0 {
        let to = sets::take_lowest(left);
        let removals = plies::removals(
            rings,
            question.edition,
            masks,
            position,
            stone.from,
            to.lowest,
        );
        if some_removal(
            tablebase,
            rings,
            question,
            position,
            making::slide_number(stone.from, to.lowest),
            removals,
        ) {
            return true;
        }
        left = to.rest;
    }
    false
}
