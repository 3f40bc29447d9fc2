// The rank, the entry and the best move that a line shows of a board, each by the public call.
#![tactic(auto)]

ghost use Rattle.std.specs.Prelude.{◌≡◌, not, eqb};
ghost use Rattle.answers.specs.Answers.{value};
ghost use Rattle.rank_calls.specs.RankCall.{rank_call};
ghost use Rattle.fields.specs.Fields.{entry_field, move_field};

// The largest count of the tablebase.
pub const LARGEST_COUNT: u8 = 5;

// The rules edition that `desk` keeps.
pub const DESK_EDITION: u8 = 1;

// Entry and move are `-` on two and three rings.
fn is_absent(rings: u8) -> bool
    ensures { result ≡ not (eqb rings 1) }
{
    rings != 1
}

// The rank of a board, 0 where the call is turned back.
pub fn rank_of(rings: u8, board: &[u8]) -> u64
    ensures { result ≡ value (rank_call rings board.now) 0 }
{
    rank_calls::rank(rings, board).unwrap_or(0)
}

// The entry of a board on one ring, `-` where the call is turned back.
pub fn entry_of(tablebase: &[u16], rings: u8, board: &[u8]) -> Option<u64>
    ensures { result ≡ entry_field tablebase.now rings board.now }
{
    if is_absent(rings) {
        return None;
    }
    let answer = entry_calls::lookup(rings, DESK_EDITION, board, LARGEST_COUNT, tablebase);
    let Ok(entry) = answer else {
        return None;
    };
    Some(entry as u64)
}

// The best move of a board on one ring, `-` where the call is turned back.
pub fn move_of(tablebase: &[u16], rings: u8, board: &[u8]) -> Option<u64>
    ensures { result ≡ move_field tablebase.now rings board.now }
{
    if is_absent(rings) {
        return None;
    }
    let answer = entry_calls::best_move(rings, DESK_EDITION, board, LARGEST_COUNT, tablebase);
    let Ok(best) = answer else {
        return None;
    };
    Some(best.number as u64)
}
