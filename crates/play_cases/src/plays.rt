// Moves listed and made. A case is written as its call is, so that the functions over it take their arguments one by one too.
use super::boards::three_rings;
use notation::{Numbers, Points, board_of, number, points_of, refused, text, wider, with_digit};
use std::io;

fn list_over(
    rt: &impl Print,
    rings: u8,
    edition: u8,
    board: &[u8],
    list: &mut [u16],
) -> io::Result<()> {
    print!(rt; "moves {rings} {edition} {}:", Points(board))?;
    match move_calls::moves(rings, edition, board, list) {
        Ok(n) => number(rt, n as u64)?,
        Err(refusal) => refused(rt, refusal.number())?,
    }
    println!(rt; " in{}", Numbers(list))
}

// The moves of a board of so many points, and what a list of sevens then holds.
fn moves(
    rt: &impl Print,
    rings: u8,
    edition: u8,
    length: usize,
    digits: u64,
    room: usize,
) -> io::Result<()> {
    let board = board_of(digits);
    let mut list = [7u16; 12];
    list_over(
        rt,
        rings,
        edition,
        &board[..length.min(24)],
        &mut list[..room.min(12)],
    )
}

fn make_over(
    rt: &impl Print,
    rings: u8,
    edition: u8,
    board: &[u8],
    move_number: u16,
    target: &mut [u8],
) -> io::Result<()> {
    print!(rt;
        "make move {rings} {edition} {} {move_number}:",
        Points(board)
    )?;
    match move_calls::make_move(rings, edition, board, move_number, target) {
        Ok(()) => text(rt, b" written")?,
        Err(refusal) => refused(rt, refusal.number())?,
    }
    println!(rt; " {}", Points(target))
}

// The board after a move, and what a target of sevens then holds.
fn make_move(
    rt: &impl Print,
    rings: u8,
    edition: u8,
    length: usize,
    digits: u64,
    move_number: u16,
    room: usize,
) -> io::Result<()> {
    let board = board_of(digits);
    let mut target = [7u8; 24];
    make_over(
        rt,
        rings,
        edition,
        &board[..length.min(24)],
        move_number,
        &mut target[..room.min(24)],
    )
}

// Worked boards: document 01's own, a shield, no shield, the vacated point, four stones on one ring, two rings, three rings. Then each
// refusal of a list but 20, and a blocked mover with no list at all; and a board that no game reaches.
fn lists(rt: &impl Print) -> io::Result<()> {
    moves(rt, 1, 1, 8, 02122011, 10)?;
    moves(rt, 1, 1, 8, 21011222, 4)?;
    moves(rt, 1, 1, 8, 01011222, 8)?;
    moves(rt, 1, 1, 8, 22201011, 9)?;
    moves(rt, 1, 1, 8, 20211211, 2)?;
    moves(rt, 2, 1, 16, 0001001002220101, 12)?;
    list_over(rt, 3, 1, &three_rings(), &mut [7; 9])?;
    moves(rt, 0, 1, 8, 02122011, 2)?;
    moves(rt, 1, 1, 7, 2122011, 2)?;
    moves(rt, 1, 1, 8, 02122311, 2)?;
    moves(rt, 1, 1, 8, 02022011, 2)?;
    moves(rt, 1, 1, 8, 02122011, 7)?;
    moves(rt, 1, 1, 8, 02122011, 8)?;
    moves(rt, 1, 1, 8, 22221111, 0)?;
    list_over(rt, 3, 1, &board_of(222222222111), &mut [7; 37])
}

// Edition 2 removes a stone outside any mill as edition 1 does, and none where all stand in one mill, or in two. Then 20, after 1 and before each other
// refusal.
fn lists_by_edition(rt: &impl Print) -> io::Result<()> {
    moves(rt, 1, 2, 8, 21011222, 4)?;
    moves(rt, 1, 2, 8, 01011222, 8)?;
    moves(rt, 2, 1, 16, 0001101100022222, 12)?;
    moves(rt, 2, 2, 16, 0001101100022222, 5)?;
    moves(rt, 1, 0, 8, 02122011, 10)?;
    moves(rt, 1, 3, 8, 02122011, 10)?;
    moves(rt, 1, 255, 8, 02122011, 10)?;
    moves(rt, 4, 3, 8, 02122011, 2)?;
    moves(rt, 1, 0, 7, 2122011, 2)?;
    moves(rt, 1, 3, 8, 02122311, 2)?;
    moves(rt, 1, 0, 8, 02022011, 2)?;
    moves(rt, 1, 3, 8, 02122011, 7)
}

// Moves made, with a removal and without, and each refusal but 20; two stones may be left. And one of a board that no game reaches.
fn plies(rt: &impl Print) -> io::Result<()> {
    make_move(rt, 1, 1, 8, 02122011, 5187, 8)?;
    make_move(rt, 1, 1, 8, 02122011, 5188, 8)?;
    make_move(rt, 1, 1, 8, 02122011, 95, 8)?;
    make_move(rt, 1, 1, 8, 02122011, 96, 8)?;
    make_move(rt, 1, 1, 8, 02122011, 5215, 8)?;
    make_move(rt, 1, 1, 8, 02122011, 65535, 8)?;
    make_move(rt, 1, 1, 8, 02122011, 96, 9)?;
    make_move(rt, 1, 1, 8, 02022011, 95, 9)?;
    make_move(rt, 1, 1, 8, 02132011, 95, 8)?;
    make_move(rt, 1, 1, 7, 2122011, 95, 7)?;
    make_move(rt, 4, 1, 8, 02122011, 95, 8)?;
    make_over(rt, 3, 1, &three_rings(), 18996, &mut [7; 24])?;
    make_over(rt, 3, 1, &board_of(222222222111), 415, &mut [7; 24])
}

// A closed mill in both editions: with a removal and without where a stone stands outside any mill, then where all stand in mills. Then 20, after 1 and
// before each other refusal.
fn plies_by_edition(rt: &impl Print) -> io::Result<()> {
    make_move(rt, 1, 2, 8, 02122011, 5187, 8)?;
    make_move(rt, 1, 2, 8, 02122011, 5215, 8)?;
    make_move(rt, 1, 1, 8, 01011222, 3232, 8)?;
    make_move(rt, 1, 1, 8, 01011222, 3263, 8)?;
    make_move(rt, 1, 2, 8, 01011222, 3232, 8)?;
    make_move(rt, 1, 2, 8, 01011222, 3263, 8)?;
    make_move(rt, 1, 0, 8, 02122011, 95, 8)?;
    make_move(rt, 1, 3, 8, 02122011, 95, 8)?;
    make_move(rt, 4, 3, 8, 02122011, 95, 8)?;
    make_move(rt, 1, 0, 7, 2122011, 95, 7)?;
    make_move(rt, 1, 3, 8, 02132011, 95, 8)?;
    make_move(rt, 1, 0, 8, 02022011, 95, 8)?;
    make_move(rt, 1, 3, 8, 02122011, 95, 9)?;
    make_move(rt, 1, 0, 8, 02122011, 96, 8)
}

// What stands for a move's end among the digits: the rank of the board after it, 1000 where its mover has two stones.
fn next(rings: u8, edition: u8, board: &[u8], move_number: u16) -> u64 {
    let mut all = [0u8; 24];
    let target = &mut all[..points_of(rings)];
    let Ok(()) = move_calls::make_move(rings, edition, board, move_number, target) else {
        return 0;
    };
    let Ok(r) = rank_calls::rank(rings, target) else {
        return 1000;
    };
    r
}

// A board's moves in their order: after a 1, the digits of a number are their numbers, each with the rank that it leads to.
fn list_digits(rings: u8, edition: u8, board: &[u8], list: &[u16]) -> u64 {
    list.iter().fold(1, |digits, number| {
        let rank = next(rings, edition, board, *number);
        with_digit(with_digit(digits, wider(*number)), rank)
    })
}

// A table under a rules edition.
#[derive(Clone, Copy)]
struct Table {
    rings: u8,
    edition: u8,
    mover: u8,
    opponent: u8,
}

// The digits of the moves of a rank's board, and how many moves it has.
fn digits_at(table: Table, rank: u64) -> u64 {
    let Table {
        rings,
        edition,
        mover,
        opponent,
    } = table;
    let mut all = [0u8; 24];
    let board = &mut all[..points_of(rings)];
    let list = &mut [0u16; 324];
    let Ok(()) = rank_calls::unrank(rings, mover, opponent, rank, board) else {
        return 0;
    };
    let Ok(n) = move_calls::moves(rings, edition, board, list) else {
        return 0;
    };
    with_digit(
        list_digits(rings, edition, board, &list[..n.min(324)]),
        n as u64,
    )
}

// And of so many ranks, a step apart.
fn table_digits(table: Table, n: u64, step: u64) -> u64 {
    (0..n)
        .map(|i| digits_at(table, i.wrapping_mul(step)))
        .fold(0, with_digit)
}

fn lists_of(
    rt: &impl Print,
    rings: u8,
    edition: u8,
    mover: u8,
    opponent: u8,
    n: u64,
    step: u64,
) -> io::Result<()> {
    let table = Table {
        rings,
        edition,
        mover,
        opponent,
    };
    let digits = table_digits(table, n, step);
    println!(rt; "lists of moves {rings} {edition} {mover} {opponent}: digits {digits}")
}

// All lists of one ring, and those of tables of two and three rings from end to end; under edition 2 those with three or five opposing stones, since
// four never all stand in mills.
pub fn run(rt: &impl Print) -> io::Result<()> {
    lists(rt)?;
    lists_by_edition(rt)?;
    plies(rt)?;
    plies_by_edition(rt)?;
    lists_of(rt, 1, 1, 3, 3, 560, 1)?;
    lists_of(rt, 1, 1, 3, 4, 280, 1)?;
    lists_of(rt, 1, 1, 3, 5, 56, 1)?;
    lists_of(rt, 1, 1, 4, 3, 280, 1)?;
    lists_of(rt, 1, 1, 4, 4, 70, 1)?;
    lists_of(rt, 1, 1, 5, 3, 56, 1)?;
    lists_of(rt, 2, 1, 3, 4, 20000, 20)?;
    lists_of(rt, 2, 1, 5, 4, 20000, 72)?;
    lists_of(rt, 3, 1, 3, 9, 20000, 29745)?;
    lists_of(rt, 3, 1, 4, 3, 20000, 605)?;
    lists_of(rt, 3, 1, 9, 9, 20000, 327202)?;
    lists_of(rt, 1, 2, 3, 3, 560, 1)?;
    lists_of(rt, 1, 2, 4, 3, 280, 1)?;
    lists_of(rt, 2, 2, 3, 3, 20000, 8)?;
    lists_of(rt, 2, 2, 4, 5, 20000, 72)?;
    lists_of(rt, 3, 2, 4, 3, 20000, 605)
}
