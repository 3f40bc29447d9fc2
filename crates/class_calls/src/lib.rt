// The representative of a board's class.
#![tactic(auto)]

ghost use Rattle.std.specs.Prelude.{◌≡◌};
ghost use Rattle.answers.specs.Answers.{represented};
ghost use Rattle.class_calls.specs.RepresentativeCall.{representative_call};

use answers::Refusal;

// The rank of the representative of a board's class. Refusals: 1, 2, 3, 4.
pub fn representative(rings: u8, board: &[u8]) -> Result<u64, Refusal>
    ensures { represented result ≡ representative_call rings board.now }
{
    board_refusals::of_board(rings, board)?;
    Ok(representing::representative_rank(rings as usize, board) as u64)
}
