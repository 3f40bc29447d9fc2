// The rank of a board, and the board of a rank.
#![tactic(auto)]

ghost use Rattle.std.specs.Prelude.{◌≡◌};
ghost use Rattle.answers.specs.Answers.{ranked, unranked};
ghost use Rattle.rank_calls.specs.RankCall.{rank_call};
ghost use Rattle.rank_calls.specs.UnrankCall.{unrank_call, unrank_target};

use answers::Refusal;

// The rank of a board of 8 × rings bytes, 0 vacant, 1 the side to move, 2 the other side. Refusals: 1, 2, 3, 4.
pub fn rank(rings: u8, board: &[u8]) -> Result<u64, Refusal>
    ensures { ranked result ≡ rank_call rings board.now }
{
    board_refusals::of_board(rings, board)?;
    let position = board::position_of(board);
    Ok(ranking::rank(board.len(), position) as u64)
}

// Writes the board of a rank among those of the given counts over the target, of 8 × rings bytes. Refusals: 1, 4, 6, 5.
pub fn unrank(
    rings: u8,
    mover: u8,
    opponent: u8,
    rank: u64,
    target: &mut [u8],
) -> Result<(), Refusal>
    ensures answer { unranked result ≡ unrank_call rings mover opponent rank target.old }
    ensures target { target.new ≡ unrank_target rings mover opponent rank target.old }
{
    board_refusals::of_counts(rings, mover, opponent, target.len())?;
    let size = sizes::size(target.len(), mover as usize, opponent as usize);
    if size as u64 <= rank {
        return Err(Refusal::Rank);
    }
    let position = ranking::unrank(
        target.len(),
        mover as usize,
        opponent as usize,
        rank as usize,
    );
    board::write_board(position, target);
    Ok(())
}
