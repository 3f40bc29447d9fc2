// A position in a whole tablebase: its entry, and its best move.
#![tactic(auto)]

ghost use Rattle.std.specs.Prelude.{◌≡◌, ◌*◌, length};
ghost use Rattle.board.specs.Board.{board_of};
ghost use Rattle.rules.specs.Ply.{removable};
ghost use Rattle.outcomes.specs.Places.{entry_at};
ghost use Rattle.masks.specs.Inner.Masks.{Masks};
ghost use Rattle.entries.specs.Inner.Choices.{choice, choice_at};
ghost use Rattle.entries.specs.Inner.Whole.{InTablebase};

use answers::Refusal;
use bestmove::Best;

// The entry of a position in a tablebase of largest count k.
pub fn entry_of(tablebase: &[u16], rings: usize, k: usize, position: board::Position) -> u16
    requires { InTablebase (length tablebase.now) rings k position }
    ensures { result ≡ entry_at rings k tablebase.now (board_of (8 * rings) position) }
{
    let mover = sets::count(position.mover) as usize;
    let opponent = sets::count(position.opponent) as usize;
    let start = layout::start(8 * rings, k, mover, opponent);
    probing::entry_in(tablebase, rings, start, position)
}

// The best move of a position under an edition, by the entries of its successors; or that the mover is blocked, or that a successor is void.
pub fn best_of(
    tablebase: &[u16],
    masks: &[u32; 72],
    rings: usize,
    edition: u8,
    k: usize,
    position: board::Position,
) -> Result<Best, Refusal>
    requires { InTablebase (length tablebase.now) rings k position × Masks rings masks.now }
    ensures { choice result ≡ choice_at (removable edition) rings k tablebase.now (board_of (8 * rings) position) }
{
    if plies::blocked(rings, masks, position) {
        return Err(Refusal::Blocked);
    }
    let starts = tables::starts_of(rings, k, position);
    if judging::void_after(tablebase, masks, rings, edition, starts, position) {
        return Err(Refusal::VoidRead);
    }
    Ok(bestmove::best_move(tablebase, masks, rings, edition, starts, position))
}
