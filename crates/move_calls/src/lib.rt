// The moves of a board under a rules edition, and the board after a move.
#![tactic(auto)]

ghost use Rattle.std.specs.Prelude.{◌≡◌};
ghost use Rattle.answers.specs.Answers.{listed, made};
ghost use Rattle.move_calls.specs.MovesCall.{moves_call, moves_list};
ghost use Rattle.move_calls.specs.MakeMoveCall.{make_move_call, make_move_target};

use answers::Refusal;

// Lists a board's moves under rules edition 1 or 2 at the start of the list: those with a removal by rising number, then the others by rising
// number. 324 places are always enough. Refusals: 1, 20, 2, 3, 4, 7.
pub fn moves(rings: u8, edition: u8, board: &[u8], list: &mut [u16]) -> Result<usize, Refusal>
    ensures answer { listed result ≡ moves_call rings edition board.now list.old }
    ensures list { list.new ≡ moves_list rings edition board.now list.old }
{
    board_refusals::of_ruled(rings, edition, board)?;
    let masks = masks::masks_of(rings as usize);
    let position = board::position_of(board);
    let counts = listing::count_moves(rings as usize, edition, &masks, position);
    let count = counts.captures + counts.others;
    if list.len() < count {
        return Err(Refusal::ShortTarget);
    }
    listing::list_moves(
        rings as usize,
        edition,
        &masks,
        position,
        counts.captures,
        list,
    );
    Ok(count)
}

// Writes the board after a move that is listed under the edition over the target, of 8 × rings bytes: the sides have changed names.
// Refusals: 1, 20, 2, 3, 4, 6, 8.
pub fn make_move(
    rings: u8,
    edition: u8,
    board: &[u8],
    number: u16,
    target: &mut [u8],
) -> Result<(), Refusal>
    ensures answer { made result ≡ make_move_call rings edition board.now number target.old }
    ensures target { target.new ≡ make_move_target rings edition board.now number target.old }
{
    board_refusals::of_target(rings, edition, board, target.len())?;
    let masks = masks::masks_of(rings as usize);
    let position = board::position_of(board);
    if !making::is_move(rings as usize, edition, &masks, position, number as usize) {
        return Err(Refusal::Move);
    }
    let after = making::after_ply(rings as usize, position, number as usize);
    board::write_board(after, target);
    Ok(())
}
