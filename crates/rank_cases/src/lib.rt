// Document 01's cases of ranks, boards of ranks and lengths of tablebases, a printed line for each.
#![tactic(auto)]

ghost use Rattle.std.specs.Prelude.{◌≤◌};

use notation::{Points, board_of, number, points_of, refused, text};
use std::io;

// The rank of a board of so many points.
fn rank(rt: &impl Print, rings: u8, length: usize, digits: u64) -> io::Result<()> {
    let all = board_of(digits);
    let board = &all[..length.min(24)];
    print!(rt; "rank {rings} {}:", Points(board))?;
    match rank_calls::rank(rings, board) {
        Ok(r) => number(rt, r)?,
        Err(refusal) => refused(rt, refusal.number())?,
    }
    println!(rt)
}

// The board of a rank, and what a target of sevens then holds: after a refusal it holds them still.
fn unrank(
    rt: &impl Print,
    rings: u8,
    mover: u8,
    opponent: u8,
    rank: u64,
    length: usize,
) -> io::Result<()> {
    print!(rt; "unrank {rings} {mover} {opponent} {rank}:")?;
    let mut all = [7u8; 24];
    let target = &mut all[..length.min(24)];
    match rank_calls::unrank(rings, mover, opponent, rank, target) {
        Ok(()) => text(rt, b" written")?,
        Err(refusal) => refused(rt, refusal.number())?,
    }
    println!(rt; " {}", Points(target))
}

// Whether the board of a rank has that rank.
fn comes_back(rings: u8, mover: u8, opponent: u8, rank: u64) -> bool {
    let mut all = [0u8; 24];
    let target = &mut all[..points_of(rings)];
    let Ok(()) = rank_calls::unrank(rings, mover, opponent, rank, target) else {
        return false;
    };
    let Ok(r) = rank_calls::rank(rings, target) else {
        return false;
    };
    r == rank
}

// How many of the first ranks come back from their boards.
fn round_trips(rt: &impl Print, rings: u8, mover: u8, opponent: u8, ranks: u64) -> io::Result<()> {
    let same = (0..ranks)
        .filter(|r| comes_back(rings, mover, opponent, *r))
        .count();
    println!(rt; "round trips {rings} {mover} {opponent}: {same} of {ranks}")
}

// Starred: one ring, 3-3. Then each refusal of a board, and the first of two; and a board that no game reaches.
fn ranks(rt: &impl Print) -> io::Result<()> {
    rank(rt, 1, 8, 00111222)?;
    rank(rt, 1, 8, 10011222)?;
    rank(rt, 1, 8, 20011122)?;
    rank(rt, 1, 8, 22211100)?;
    rank(rt, 1, 8, 02122011)?;
    rank(rt, 1, 8, 11120202)?;
    rank(rt, 0, 8, 00111222)?;
    rank(rt, 4, 3, 222)?;
    rank(rt, 1, 7, 0111222)?;
    rank(rt, 2, 8, 30111222)?;
    rank(rt, 1, 8, 30111222)?;
    rank(rt, 1, 8, 00311222)?;
    rank(rt, 1, 8, 00011222)?;
    rank(rt, 1, 0, 0)?;
    rank(rt, 1, 8, 11111222)?;
    rank(rt, 3, 24, 222222222111)
}

// Boards of ranks on one ring, and each refusal; on three rings the first and the last of the two sizes that document 01 gives.
fn unranks(rt: &impl Print) -> io::Result<()> {
    unrank(rt, 1, 3, 3, 0, 8)?;
    unrank(rt, 1, 3, 3, 559, 8)?;
    unrank(rt, 1, 3, 3, 560, 8)?;
    unrank(rt, 1, 5, 3, 0, 8)?;
    unrank(rt, 1, 5, 4, 0, 8)?;
    unrank(rt, 1, 2, 3, 0, 8)?;
    unrank(rt, 1, 3, 10, 0, 8)?;
    unrank(rt, 0, 3, 3, 0, 8)?;
    unrank(rt, 1, 3, 3, 560, 9)?;
    unrank(rt, 1, 5, 4, 560, 9)?;
    unrank(rt, 1, 3, 3, 18446744073709551615, 8)?;
    unrank(rt, 3, 3, 3, 2691919, 24)?;
    unrank(rt, 3, 3, 3, 2691920, 24)?;
    unrank(rt, 3, 8, 8, 0, 24)?;
    unrank(rt, 3, 8, 8, 9465511769, 24)?;
    unrank(rt, 3, 8, 8, 9465511770, 24)
}

// How many entries a tablebase of largest count k has.
fn length(rt: &impl Print, rings: u8, k: u8) -> io::Result<()>
    requires { (rings ≤ 3) × (3 ≤ k) × (k ≤ 9) }
{
    let entries = layout::tablebase_length(8 * rings as usize, k as usize);
    println!(rt; "length {rings} {k}: {entries}")
}

// Lengths: one ring as document 01 gives them, with K 9, and some of two and three rings.
fn lengths(rt: &impl Print) -> io::Result<()> {
    length(rt, 1, 3)?;
    length(rt, 1, 4)?;
    length(rt, 1, 5)?;
    length(rt, 1, 9)?;
    length(rt, 2, 3)?;
    length(rt, 2, 4)?;
    length(rt, 3, 3)?;
    length(rt, 3, 4)?;
    length(rt, 3, 5)?;
    length(rt, 3, 9)
}

pub fn run(rt: &impl Print) -> io::Result<()> {
    ranks(rt)?;
    unranks(rt)?;
    lengths(rt)?;
    round_trips(rt, 1, 3, 3, 560)?;
    round_trips(rt, 1, 5, 3, 56)?;
    round_trips(rt, 2, 3, 3, 160160)?;
    round_trips(rt, 3, 3, 4, 10000)
}
