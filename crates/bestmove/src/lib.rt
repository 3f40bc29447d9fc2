// The best move of a position by the entries of its successors.
#![tactic(auto)]

ghost use Rattle.std.specs.Prelude.{◌≡◌, true, false, map, ◌*◌, ltb, length};
ghost use Rattle.board.specs.Board.{count, board_of};
ghost use Rattle.rules.specs.Ply.{removable};
ghost use Rattle.rules.specs.Inner.Making.{Makeable};
ghost use Rattle.rules.specs.MoveList.{listed_moves};
ghost use Rattle.probing.specs.Inner.Conditions.{Probing};
ghost use Rattle.bestmove.specs.Inner.Choosing.{NoneVoid, Candidates, Choosing};
ghost use Rattle.bestmove.specs.Best.{best_entry, best_move};
ghost use Rattle.bestmove.specs.Inner.Worth.{entry_by, worth};

use tables::Starts;

// No position has more moves.
const MOVES_MAX: usize = 324;

// A move, and the entry of the successor that it leads to.
#[derive(Clone, Copy)]
pub struct Best {
    pub number: u16,
    pub entry: u16,
}

// What a move to an entry is worth.
fn worth(entry: u16) -> u32
    ensures { result ≡ worth entry }
{
    let e = entry as u32;
    if parts::VOID_WIDE <= e {
        return parts::DRAW_WIDE;
    }
    let nearness = parts::VOID_WIDE - e;
    if e % 2 == 1 {
        return parts::DRAW_WIDE - nearness;
    }
    parts::DRAW_WIDE + nearness
}

// Of two moves the first, unless the second is better.
fn better(first: Best, second: Best) -> Best
    ensures { result ≡ elim (ltb (worth first.entry) (worth second.entry)) [ true ↦ second | false ↦ first ] }
{
    if worth(first.entry) < worth(second.entry) {
        return second;
    }
    first
}

// A move with the entry that it leads to.
fn with_entry(
    tablebase: &[u16],
    rings: usize,
    starts: Starts,
    position: board::Position,
    number: u16,
) -> Best
    requires probing { Probing (length tablebase.now) rings starts position }
    requires makeable { Makeable rings (board_of (8 * rings) position) number }
    ensures { (result.number ≡ number) × (result.entry ≡ entry_by tablebase.now starts.same starts.fewer (board_of
        (8 * rings) position) number) }
{
    Best {
        number: number,
        entry: probing::entry_after_move(tablebase, rings, starts, position, number as usize),
    }
}

// The best of some moves of a position, given as a list.
fn best_of(
    tablebase: &[u16],
    rings: usize,
    starts: Starts,
    position: board::Position,
    moves: &[u16],
) -> Best
    requires probing { Probing (length tablebase.now) rings starts position }
    requires candidates { Candidates tablebase.now rings starts position moves.now }
    ensures number { result.number ≡ best_move (λ m. entry_by tablebase.now starts.same starts.fewer (board_of (8 * rings) position) m)
        moves.now }
    ensures entry { result.entry ≡ best_entry (map (λ m. entry_by tablebase.now starts.same starts.fewer (board_of
        (8 * rings) position) m)
        moves.now) }
{
    let mut best = with_entry(tablebase, rings, starts, position, moves[0]);
    for number in &moves[1..] {
        let next = with_entry(tablebase, rings, starts, position, *number);
        best = better(best, next);
    }
    best
}

// The best move under an edition of a position that has a move and no successor whose entry is void.
pub fn best_move(
    tablebase: &[u16],
    masks: &[u32; 72],
    rings: usize,
    edition: u8,
    starts: Starts,
    position: board::Position,
) -> Best
    requires none_void { NoneVoid (removable edition) tablebase.now rings starts position }
    requires choosing { Choosing rings masks.now position }
    ensures number { result.number ≡ best_move (λ m. entry_by tablebase.now starts.same starts.fewer (board_of (8 * rings) position) m)
        (listed_moves (removable edition) rings (board_of (8 * rings) position)) }
    ensures entry { result.entry ≡ best_entry (map (λ m. entry_by tablebase.now starts.same starts.fewer (board_of
        (8 * rings) position) m)
        (listed_moves (removable edition) rings (board_of (8 * rings) position))) }
{
    let counts = listing::count_moves(rings, edition, masks, position);
    let count = counts.captures + counts.others;
    let mut list = [0u16; MOVES_MAX];
    listing::list_moves(rings, edition, masks, position, counts.captures, &mut list);
    best_of(tablebase, rings, starts, position, &list[..count])
}
