// Positions that no game reaches, on sets: stones are counted first, and mills looked for only against nine.
#![tactic(auto)]

ghost use Rattle.std.specs.Prelude.{◌≡◌, not, ◌&&◌, ◌*◌, eqb};
ghost use Rattle.sets.specs.Sets.{has, members};
ghost use Rattle.board.specs.Board.{board_of};
ghost use Rattle.rules.specs.Unreachable.{has_mill};
ghost use Rattle.plies.specs.Inner.Positions.{Placed};
ghost use Rattle.refusals.specs.Conditions.{position_unreachable};

use board::Position;

// The stones of a side of which none was removed.
const ALL_STONES: u32 = 9;

// The edition under which such positions are refused.
const EDITION: u8 = 1;

// Whether some mill of three rings is full.
fn has_mill(stones: u32) -> bool
    ensures { result ≡ has_mill 3 (λ q. has stones q) }
{
    for i in 0..16 {
        if sets::share_three(stones, geometry::mill_set(i)) {
            return true;
        }
    }
    false
}

// Whether neither side has nine stones, as in most positions.
fn none_has_nine(position: Position) -> bool
    ensures { result ≡ (not (eqb (members position.mover 32) 9) && not (eqb (members position.opponent 32) 9)) }
{
    (sets::count(position.mover) != ALL_STONES) & (sets::count(position.opponent) != ALL_STONES)
}

// Whether a side has nine stones and the other a full mill.
fn nine_against_mill(side: u32, other: u32) -> bool
    ensures { result ≡ (eqb (members side 32) 9 && has_mill 3 (λ q. has other q)) }
{
    if sets::count(side) != ALL_STONES {
        return false;
    }
    has_mill(other)
}

// Whether a position is refused under an edition, since no game reaches it.
pub fn unreachable(rings: u8, edition: u8, position: Position) -> bool
    requires { Placed rings position }
    ensures { result ≡ position_unreachable rings edition (board_of (8 * rings) position) }
{
    if edition != EDITION {
        return false;
    }
    if rings != 3 {
        return false;
    }
    if none_has_nine(position) {
        return false;
    }
    nine_against_mill(position.mover, position.opponent)
        || nine_against_mill(position.opponent, position.mover)
}
