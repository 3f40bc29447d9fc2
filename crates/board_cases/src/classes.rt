// Representatives of classes.
use notation::{Points, board_of, number, points_of, refused};
use play_cases::three_rings;
use std::io;

fn representative_of(rt: &impl Print, rings: u8, board: &[u8]) -> io::Result<()> {
    print!(rt; "representative {rings} {}:", Points(board))?;
    match class_calls::representative(rings, board) {
        Ok(r) => number(rt, r)?,
        Err(refusal) => refused(rt, refusal.number())?,
    }
    println!(rt)
}

// The rank of the representative of a board's class.
fn representative(rt: &impl Print, rings: u8, length: usize, digits: u64) -> io::Result<()> {
    let board = board_of(digits);
    representative_of(rt, rings, &board[..length.min(24)])
}

// Whether a rank is its own representative's.
fn is_own(rings: u8, mover: u8, opponent: u8, rank: u64) -> bool {
    let mut all = [0u8; 24];
    let board = &mut all[..points_of(rings)];
    let Ok(()) = rank_calls::unrank(rings, mover, opponent, rank, board) else {
        return false;
    };
    let Ok(r) = class_calls::representative(rings, board) else {
        return false;
    };
    r == rank
}

// How many classes a table has: as many as it has ranks that are.
fn classes(rt: &impl Print, rings: u8, mover: u8, opponent: u8, size: u64) -> io::Result<()> {
    let own = (0..size)
        .filter(|r| is_own(rings, mover, opponent, *r))
        .count();
    println!(rt; "classes {rings} {mover} {opponent}: {own}")
}

// A board, a turn and a mirror of it; others, one with its rings reversed, one that no game reaches; and each refusal. Then the classes of whole
// tables.
pub fn run(rt: &impl Print) -> io::Result<()> {
    representative(rt, 1, 8, 02122011)?;
    representative(rt, 1, 8, 11021220)?;
    representative(rt, 1, 8, 10221201)?;
    representative(rt, 1, 8, 11120202)?;
    representative(rt, 1, 8, 22211100)?;
    representative(rt, 2, 16, 0001001002220101)?;
    representative(rt, 2, 16, 0222010100010010)?;
    representative_of(rt, 3, &three_rings())?;
    representative(rt, 3, 24, 222222222111)?;
    representative(rt, 0, 8, 02122011)?;
    representative(rt, 1, 7, 2122011)?;
    representative(rt, 1, 8, 42122011)?;
    representative(rt, 1, 8, 01122011)?;
    classes(rt, 1, 3, 3, 560)?;
    classes(rt, 1, 5, 3, 56)?;
    classes(rt, 2, 3, 3, 160160)
}
