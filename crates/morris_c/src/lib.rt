// The calls of crate `morris` for C and Rust, as include/morris.h declares them: numbers and slices only. A slice is a pointer and a length.
//
// Each function returns the number of the refusal that its arguments meet, 0 for none, and gives values through `&mut`, zero after a refusal. The
// contracts are those of `morris`, by the same definitions.
#![tactic(auto)]

ghost use Rattle.std.specs.Prelude.{◌≡◌, []};
ghost use Rattle.answers.specs.Answers.{number as number_of, value, answer as answered};
ghost use Rattle.morris.specs.Calls.{rank_call, unrank_call, unrank_target, moves_call, moves_list, make_move_call, make_move_target, representative_call};
ghost use Rattle.morris.specs.Calls.{FillCall, FillPairCall, lookup_call, best_move_call, check_call, read_frame_call, write_frame_call, write_frame_target};

// The rank of a board.
#[unsafe(no_mangle)]
pub extern "C" fn morris_rank(rings: u8, board: &[u8], rank: &mut u64) -> u8
    ensures refusal { result ≡ number_of (rank_call rings board.now) }
    ensures rank { rank.new ≡ value (rank_call rings board.now) 0 }
{
    numbers::one(morris::rank(rings, board), rank)
}

// Writes the board of a rank among those of the given counts over the target.
#[unsafe(no_mangle)]
pub extern "C" fn morris_unrank(
    rings: u8,
    mover: u8,
    opponent: u8,
    rank: u64,
    target: &mut [u8],
) -> u8
    ensures refusal { result ≡ number_of (unrank_call rings mover opponent rank target.old) }
    ensures target { target.new ≡ unrank_target rings mover opponent rank target.old }
{
    numbers::done(morris::unrank(rings, mover, opponent, rank, target))
}

// Lists a board's moves under a rules edition, captures first, at the start of the list, and says how many.
#[unsafe(no_mangle)]
pub extern "C" fn morris_moves(
    rings: u8,
    edition: u8,
    board: &[u8],
    moves: &mut [u16],
    count: &mut usize,
) -> u8
    ensures refusal { result ≡ number_of (moves_call rings edition board.now moves.old) }
    ensures moves { moves.new ≡ moves_list rings edition board.now moves.old }
    ensures count { count.new ≡ value (moves_call rings edition board.now moves.old) 0 }
{
    numbers::one(morris::moves(rings, edition, board, moves), count)
}

// Writes the board after a move that is listed under the edition over the target.
#[unsafe(no_mangle)]
pub extern "C" fn morris_make_move(
    rings: u8,
    edition: u8,
    board: &[u8],
    number: u16,
    target: &mut [u8],
) -> u8
    ensures refusal { result ≡ number_of (make_move_call rings edition board.now number target.old) }
    ensures target { target.new ≡ make_move_target rings edition board.now number target.old }
{
    numbers::done(morris::make_move(rings, edition, board, number, target))
}

// The rank of the representative of a board's class.
#[unsafe(no_mangle)]
pub extern "C" fn morris_representative(rings: u8, board: &[u8], rank: &mut u64) -> u8
    ensures refusal { result ≡ number_of (representative_call rings board.now) }
    ensures rank { rank.new ≡ value (representative_call rings board.now) 0 }
{
    numbers::one(morris::representative(rings, board), rank)
}

// Fills the tablebase of largest count k under an edition.
#[unsafe(no_mangle)]
pub extern "C" fn morris_fill(
    rings: u8,
    edition: u8,
    k: u8,
    limit: u32,
    tablebase: &mut [u16],
) -> u8
    ensures { FillCall rings edition k limit tablebase.old tablebase.new (answered result []) }
{
    numbers::done(morris::fill(rings, edition, k, limit, tablebase))
}

// Fills the tables of two counts, either way round, over the entries of their lower tables, under an edition.
#[unsafe(no_mangle)]
pub extern "C" fn morris_fill_pair(
    rings: u8,
    edition: u8,
    mover: u8,
    opponent: u8,
    k: u8,
    limit: u32,
    tablebase: &mut [u16],
) -> u8
    ensures { FillPairCall rings edition mover opponent k limit tablebase.old tablebase.new (answered result []) }
{
    numbers::done(morris::fill_pair(rings, edition, mover, opponent, k, limit, tablebase))
}

// The entry of a board in a tablebase of largest count k, under the edition with which it was filled.
#[unsafe(no_mangle)]
pub extern "C" fn morris_lookup(
    rings: u8,
    edition: u8,
    board: &[u8],
    k: u8,
    tablebase: &[u16],
    entry: &mut u16,
) -> u8
    ensures refusal { result ≡ number_of (lookup_call rings edition board.now k tablebase.now) }
    ensures entry { entry.new ≡ value (lookup_call rings edition board.now k tablebase.now) 0 }
{
    numbers::one(morris::lookup(rings, edition, board, k, tablebase), entry)
}

// The best move of a board under an edition, and the entry of the successor that it leads to.
#[unsafe(no_mangle)]
pub extern "C" fn morris_best_move(
    rings: u8,
    edition: u8,
    board: &[u8],
    k: u8,
    tablebase: &[u16],
    number: &mut u16,
    entry: &mut u16,
) -> u8
    ensures refusal { result ≡ number_of (best_move_call rings edition board.now k tablebase.now) }
    ensures number { number.new ≡ value (best_move_call rings edition board.now k tablebase.now) 0 }
    ensures entry { entry.new ≡ value (best_move_call rings edition board.now k tablebase.now) 1 }
{
    numbers::chosen(
        morris::best_move(rings, edition, board, k, tablebase),
        number,
        entry,
    )
}

// Whether every entry of a tablebase of largest count k is right under an edition, or the first index that fails.
#[unsafe(no_mangle)]
pub extern "C" fn morris_check(
    rings: u8,
    edition: u8,
    k: u8,
    tablebase: &[u16],
    passed: &mut u8,
    index: &mut u64,
) -> u8
    ensures refusal { result ≡ number_of (check_call rings edition k tablebase.now) }
    ensures passed { passed.new ≡ value (check_call rings edition k tablebase.now) 0 }
    ensures index { index.new ≡ value (check_call rings edition k tablebase.now) 1 }
{
    numbers::checked(morris::check(rings, edition, k, tablebase), passed, index)
}

// Reads a frame: the rings, the points of the side to move, those of the other side.
#[unsafe(no_mangle)]
pub extern "C" fn morris_read_frame(
    frame: &[u8],
    rings: &mut u8,
    mover: &mut u32,
    opponent: &mut u32,
) -> u8
    ensures refusal { result ≡ number_of (read_frame_call frame.now) }
    ensures rings { rings.new ≡ value (read_frame_call frame.now) 0 }
    ensures mover { mover.new ≡ value (read_frame_call frame.now) 1 }
    ensures opponent { opponent.new ≡ value (read_frame_call frame.now) 2 }
{
    numbers::frame_read(morris::read_frame(frame), rings, mover, opponent)
}

// Writes rings and a board as a frame over the start of the target, and says how many characters.
#[unsafe(no_mangle)]
pub extern "C" fn morris_write_frame(
    rings: u8,
    board: &[u8],
    frame: &mut [u8],
    written: &mut usize,
) -> u8
    ensures refusal { result ≡ number_of (write_frame_call rings board.now frame.old) }
    ensures frame { frame.new ≡ write_frame_target rings board.now frame.old }
    ensures written { written.new ≡ value (write_frame_call rings board.now frame.old) 0 }
{
    numbers::one(morris::write_frame(rings, board, frame), written)
}
