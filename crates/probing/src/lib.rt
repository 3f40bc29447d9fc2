// Entries read from a tablebase, of a position and of the one that a ply leads to, where each table is given by its start.
#![tactic(auto)]

ghost use Rattle.std.specs.Prelude.{◌≡◌, ◌+◌, ◌*◌, ◌≤◌, length, get_or};
ghost use Rattle.board.specs.Board.{count, board_of};
ghost use Rattle.sizes.specs.Size.{size};
ghost use Rattle.ranking.specs.Rank.{rank};
ghost use Rattle.rules.specs.Ply.{after_ply};
ghost use Rattle.rules.specs.Inner.Making.{Makeable};
ghost use Rattle.plies.specs.Inner.Positions.{Placed};
ghost use Rattle.probing.specs.Inner.Probes.{probe};
ghost use Rattle.probing.specs.Inner.Conditions.{Probing, AfterPly};

use tables::Starts;

// The entry of a position in the table that starts at a place.
pub fn entry_in(tablebase: &[u16], rings: usize, start: usize, position: board::Position) -> u16
    requires placed { Placed rings position }
    requires position_in_bounds { start + size (8 * rings) (count 1 (board_of (8 * rings) position)) (count 2 (board_of (8 * rings) position)) ≤ length tablebase.now }
    ensures { result ≡ get_or tablebase.now (start + rank (board_of (8 * rings) position)) 0 }
{
    tablebase[start + ranking::rank(8 * rings, position)]
}

// The entry of the position after a ply, where the opponent had so many stones: the sides have changed names, so these are the mover's now.
pub fn entry_after(
    tablebase: &[u16],
    rings: usize,
    starts: Starts,
    opponent: usize,
    position: board::Position,
) -> u16
    requires { AfterPly (length tablebase.now) rings starts opponent position }
    ensures { result ≡ probe tablebase.now starts.same starts.fewer opponent (board_of (8 * rings) position) }
{
    let stones = sets::count(position.mover) as usize;
    if stones == opponent {
        return entry_in(tablebase, rings, starts.same, position);
    }
    if stones < 3 {
        return 0;
    }
    entry_in(tablebase, rings, starts.fewer, position)
}

// The entry of the position that a move leads to, whatever rule allows it.
pub fn entry_after_move(
    tablebase: &[u16],
    rings: usize,
    starts: Starts,
    position: board::Position,
    number: usize,
) -> u16
    requires probing { Probing (length tablebase.now) rings starts position }
    requires makeable { Makeable rings (board_of (8 * rings) position) number }
    ensures { result ≡ probe tablebase.now starts.same starts.fewer (count 2 (board_of (8 * rings) position)) (after_ply (board_of
        (8 * rings) position) number) }
{
    let opponent = sets::count(position.opponent) as usize;
    let after = making::after_ply(rings, position, number);
    entry_after(tablebase, rings, starts, opponent, after)
}
