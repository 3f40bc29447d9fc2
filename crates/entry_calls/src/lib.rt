// The entry of a board in a tablebase, and its best move under a rules edition.
#![tactic(auto)]

ghost use Rattle.std.specs.Prelude.{◌≡◌};
ghost use Rattle.answers.specs.Answers.{looked, chosen};
ghost use Rattle.entry_calls.specs.LookupCall.{lookup_call};
ghost use Rattle.entry_calls.specs.BestMoveCall.{best_move_call};

use answers::{BestMove, Refusal};

// The entry of a board in a tablebase of largest count k: 65,535 draw, else plies to the end, even lost, odd won. It means the outcome under the
// rules edition with which the tablebase was filled, whatever edition is named. Refusals: 1, 20, 2, 3, 4, 15, 11, 6, 12.
pub fn lookup(
    rings: u8,
    edition: u8,
    board: &[u8],
    k: u8,
    tablebase: &[u16],
) -> Result<u16, Refusal>
    ensures { looked result ≡ lookup_call rings edition board.now k tablebase.now }
{
    tablebase_refusals::of_tablebase(rings, edition, board, k, tablebase.len())?;
    let position = board::position_of(board);
    let entry = entries::entry_of(tablebase, rings as usize, k as usize, position);
    if entry == parts::VOID {
        return Err(Refusal::VoidRead);
    }
    Ok(entry)
}

// The best move of a board under rules edition 1 or 2, by the entries of its successors: the first listed among quickest win, else a draw, else
// longest loss. Refusals: 1, 20, 2, 3, 4, 15, 11, 6, 9, 12.
pub fn best_move(
    rings: u8,
    edition: u8,
    board: &[u8],
    k: u8,
    tablebase: &[u16],
) -> Result<BestMove, Refusal>
    ensures { chosen result ≡ best_move_call rings edition board.now k tablebase.now }
{
    tablebase_refusals::of_tablebase(rings, edition, board, k, tablebase.len())?;
    let rings = rings as usize;
    let masks = masks::masks_of(rings);
    let position = board::position_of(board);
    let best = entries::best_of(tablebase, &masks, rings, edition, k as usize, position)?;
    Ok(BestMove {
        number: best.number,
        entry: best.entry,
    })
}
