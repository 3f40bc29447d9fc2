// Document 01's cases of entries looked up and of best moves, in a tablebase of one ring, a printed line for each. A case is written as its call is, so that
// the functions over it take their arguments one by one too.
#![tactic(auto)]

use fill_cases::{VOID_ENTRY, make_up};
use morris::{BestMove, Refusal};
use notation::{Points, board_of, number, refused, wider, with_digit};
use std::io;

// The entry of a board of so many points in a tablebase of largest count k.
fn lookup(
    rt: &impl Print,
    rings: u8,
    edition: u8,
    length: usize,
    digits: u64,
    k: u8,
    tablebase: &[u16],
) -> io::Result<()> {
    let all = board_of(digits);
    let board = &all[..length.min(24)];
    print!(rt; "lookup {rings} {edition} {} {k}:", Points(board))?;
    match morris::lookup(rings, edition, board, k, tablebase) {
        Ok(e) => number(rt, wider(e))?,
        Err(refusal) => refused(rt, refusal.number())?,
    }
    println!(rt)
}

// The best move of a board, and the entry of the successor that it leads to.
fn best_move(
    rt: &impl Print,
    rings: u8,
    edition: u8,
    length: usize,
    digits: u64,
    k: u8,
    tablebase: &[u16],
) -> io::Result<()> {
    let all = board_of(digits);
    let board = &all[..length.min(24)];
    print!(rt; "best move {rings} {edition} {} {k}:", Points(board))?;
    match morris::best_move(rings, edition, board, k, tablebase) {
        Ok(best) => {
            number(rt, wider(best.number))?;
            number(rt, wider(best.entry))?;
        }
        Err(refusal) => refused(rt, refusal.number())?,
    }
    println!(rt)
}

// The entry of a board, and its best move.
fn both(
    rt: &impl Print,
    rings: u8,
    edition: u8,
    length: usize,
    digits: u64,
    k: u8,
    tablebase: &[u16],
) -> io::Result<()> {
    lookup(rt, rings, edition, length, digits, k, tablebase)?;
    best_move(rt, rings, edition, length, digits, k, tablebase)
}

// Document 01's two boards, four against four, five against three, and a draw; K 9 has the same places; two boards whose entries are others under
// edition 2. Then each refusal but 12, 15 and 20, and the first of two.
fn lookups(rt: &impl Print, tablebase: &[u16]) -> io::Result<()> {
    lookup(rt, 1, 1, 8, 02122011, 5, tablebase)?;
    lookup(rt, 1, 1, 8, 11120202, 5, tablebase)?;
    lookup(rt, 1, 1, 8, 11112222, 5, tablebase)?;
    lookup(rt, 1, 1, 8, 11212121, 5, tablebase)?;
    lookup(rt, 1, 1, 8, 00121122, 5, tablebase)?;
    lookup(rt, 1, 1, 8, 02122011, 9, tablebase)?;
    lookup(rt, 1, 1, 8, 11212121, 9, tablebase)?;
    lookup(rt, 1, 1, 8, 01011222, 5, tablebase)?;
    lookup(rt, 1, 1, 8, 10111222, 5, tablebase)?;
    lookup(rt, 0, 1, 8, 02122011, 5, tablebase)?;
    lookup(rt, 4, 1, 3, 011, 5, tablebase)?;
    lookup(rt, 1, 1, 7, 2122011, 5, tablebase)?;
    lookup(rt, 2, 1, 8, 32122011, 5, tablebase)?;
    lookup(rt, 1, 1, 8, 32122011, 5, tablebase)?;
    lookup(rt, 1, 1, 8, 02322011, 5, tablebase)?;
    lookup(rt, 1, 1, 8, 02022011, 2, tablebase)?;
    lookup(rt, 1, 1, 8, 02122011, 2, tablebase)?;
    lookup(rt, 1, 1, 8, 02122011, 10, tablebase)?;
    lookup(rt, 1, 1, 8, 11212121, 4, tablebase)?;
    lookup(rt, 1, 1, 8, 02122011, 4, tablebase)
}

// 20 after 1 and before each other refusal but 12 and 15.
fn lookups_by_edition(rt: &impl Print, tablebase: &[u16]) -> io::Result<()> {
    lookup(rt, 1, 0, 8, 02122011, 5, tablebase)?;
    lookup(rt, 1, 3, 8, 02122011, 5, tablebase)?;
    lookup(rt, 4, 3, 3, 011, 5, tablebase)?;
    lookup(rt, 1, 0, 7, 2122011, 5, tablebase)?;
    lookup(rt, 1, 3, 8, 02322011, 5, tablebase)?;
    lookup(rt, 1, 0, 8, 02022011, 5, tablebase)?;
    lookup(rt, 1, 3, 8, 02122011, 2, tablebase)?;
    lookup(rt, 1, 0, 8, 02122011, 4, tablebase)
}

// Document 01's two boards; the last listed of three wins, a draw rather than a loss, a capture before a lower number of equal worth; a
// blocked mover; two boards whose entries are others under edition 2. Then each refusal but 12, 15 and 20, and the first of two.
fn best_moves(rt: &impl Print, tablebase: &[u16]) -> io::Result<()> {
    best_move(rt, 1, 1, 8, 02122011, 5, tablebase)?;
    best_move(rt, 1, 1, 8, 11120202, 5, tablebase)?;
    best_move(rt, 1, 1, 8, 01121222, 5, tablebase)?;
    best_move(rt, 1, 1, 8, 00121122, 5, tablebase)?;
    best_move(rt, 1, 1, 8, 01221221, 5, tablebase)?;
    best_move(rt, 1, 1, 8, 11112222, 5, tablebase)?;
    best_move(rt, 1, 1, 8, 01011222, 5, tablebase)?;
    best_move(rt, 1, 1, 8, 10111222, 5, tablebase)?;
    best_move(rt, 0, 1, 3, 011, 5, tablebase)?;
    best_move(rt, 1, 1, 7, 2122011, 5, tablebase)?;
    best_move(rt, 1, 1, 8, 02322011, 5, tablebase)?;
    best_move(rt, 1, 1, 8, 02022011, 2, tablebase)?;
    best_move(rt, 1, 1, 8, 11212121, 4, tablebase)?;
    best_move(rt, 1, 1, 8, 11112222, 4, tablebase)
}

// 20 after 1 and before each other refusal but 12 and 15.
fn best_moves_by_edition(rt: &impl Print, tablebase: &[u16]) -> io::Result<()> {
    best_move(rt, 1, 0, 8, 02122011, 5, tablebase)?;
    best_move(rt, 1, 3, 8, 02122011, 5, tablebase)?;
    best_move(rt, 4, 3, 3, 011, 5, tablebase)?;
    best_move(rt, 1, 0, 7, 2122011, 5, tablebase)?;
    best_move(rt, 1, 3, 8, 02322011, 5, tablebase)?;
    best_move(rt, 1, 0, 8, 02022011, 5, tablebase)?;
    best_move(rt, 1, 3, 8, 02122011, 2, tablebase)?;
    best_move(rt, 1, 0, 8, 02122011, 4, tablebase)?;
    best_move(rt, 1, 3, 8, 11112222, 5, tablebase)
}

// Nine stones against a mill on three rings, of either side, with K 9 and K 2; under edition 2; 4, 20 and 2 before 15. Then nine against three that are no
// mill, eight against a mill, and nine against a mill on two rings.
fn unreachable(rt: &impl Print, tablebase: &[u16]) -> io::Result<()> {
    both(rt, 3, 1, 24, 222222222111, 9, tablebase)?;
    both(rt, 3, 1, 24, 222222222111, 2, tablebase)?;
    both(rt, 3, 2, 24, 222222222111, 9, tablebase)?;
    both(rt, 3, 1, 24, 111111111222, 9, tablebase)?;
    both(rt, 3, 2, 24, 111111111222, 2, tablebase)?;
    both(rt, 3, 1, 24, 2222222221111111111, 9, tablebase)?;
    both(rt, 3, 3, 24, 222222222111, 9, tablebase)?;
    both(rt, 3, 1, 23, 222222222111, 9, tablebase)?;
    both(rt, 3, 1, 24, 2222222221011, 9, tablebase)?;
    both(rt, 3, 1, 24, 22222222111, 9, tablebase)?;
    both(rt, 2, 1, 16, 222222222111, 9, tablebase)
}

fn entry_of(answer: Result<u16, Refusal>) -> u64 {
    match answer {
        Ok(e) => wider(e),
        Err(refusal) => 65536 + refusal.number() as u64,
    }
}

fn choice_of(answer: Result<BestMove, Refusal>) -> u64 {
    match answer {
        Ok(best) => with_digit(wider(best.number), wider(best.entry)),
        Err(refusal) => refusal.number() as u64,
    }
}

// A tablebase of one ring with K 5, and the edition under which all its boards are asked about.
#[derive(Clone, Copy)]
struct Asked<'a> {
    edition: u8,
    tablebase: &'a [u16],
}

// A rank's entry and best move as two more digits.
fn with_board(asked: Asked<'_>, digits: u64, mover: u8, opponent: u8, rank: u64) -> u64 {
    let Asked { edition, tablebase } = asked;
    let board = &mut [0u8; 8];
    let Ok(()) = morris::unrank(1, mover, opponent, rank, board) else {
        return digits;
    };
    let entry = entry_of(morris::lookup(1, edition, board, 5, tablebase));
    let choice = choice_of(morris::best_move(1, edition, board, 5, tablebase));
    with_digit(with_digit(digits, entry), choice)
}

impl Asked<'_> {
    // The entries and best moves of a table's boards, as the digits of a number modulo a prime.
    fn answers(
        self,
        rt: &impl Print,
        word: &str,
        mover: u8,
        opponent: u8,
        size: u64,
    ) -> io::Result<()> {
        let edition = self.edition;
        let digits = (0..size).fold(0, |digits, rank| {
            with_board(self, digits, mover, opponent, rank)
        });
        println!(rt; "{word} 1 {edition} {mover} {opponent}: digits {digits}")
    }

    // Every table of the tablebase.
    fn tables(self, rt: &impl Print, word: &str) -> io::Result<()> {
        self.answers(rt, word, 3, 3, 560)?;
        self.answers(rt, word, 3, 4, 280)?;
        self.answers(rt, word, 3, 5, 56)?;
        self.answers(rt, word, 4, 3, 280)?;
        self.answers(rt, word, 4, 4, 70)?;
        self.answers(rt, word, 5, 3, 56)
    }
}

// One void, where document 01's first board stands: its entry and its predecessors' best moves are refused, its own best move is not.
fn void_entry(rt: &impl Print) -> io::Result<()> {
    let mut entries = [7u16; 1302];
    entries[117] = VOID_ENTRY;
    let tablebase = &entries[..];
    lookup(rt, 1, 1, 8, 02122011, 5, tablebase)?;
    lookup(rt, 1, 1, 8, 11120202, 5, tablebase)?;
    lookup(rt, 1, 1, 8, 02122011, 3, tablebase)?;
    lookup(rt, 1, 0, 8, 02122011, 5, tablebase)?;
    best_move(rt, 1, 1, 8, 02122011, 5, tablebase)?;
    best_move(rt, 1, 1, 8, 10211022, 5, tablebase)?;
    best_move(rt, 1, 1, 8, 10211022, 4, tablebase)?;
    best_move(rt, 1, 3, 8, 10211022, 5, tablebase)?;
    best_move(rt, 1, 1, 8, 11120202, 5, tablebase)?;
    let asked = Asked {
        edition: 1,
        tablebase,
    };
    asked.answers(rt, "answers beside a void", 3, 3, 560)
}

// One void, where a closed mill without a removal leads: a successor under edition 2 alone.
fn void_after_no_removal(rt: &impl Print) -> io::Result<()> {
    let mut entries = [7u16; 1302];
    entries[136] = VOID_ENTRY;
    let tablebase = &entries[..];
    best_move(rt, 1, 1, 8, 01011222, 5, tablebase)?;
    best_move(rt, 1, 2, 8, 01011222, 5, tablebase)
}

// In a tablebase filled under edition 2: document 01's first board, two boards whose entries are others under edition 1, a blocked mover. An entry means
// the outcome under the edition of the fill, under whichever it is looked up.
fn edition_2(rt: &impl Print, tablebase: &[u16]) -> io::Result<()> {
    lookup(rt, 1, 2, 8, 02122011, 5, tablebase)?;
    lookup(rt, 1, 2, 8, 01011222, 5, tablebase)?;
    lookup(rt, 1, 2, 8, 10111222, 5, tablebase)?;
    lookup(rt, 1, 2, 8, 11112222, 5, tablebase)?;
    best_move(rt, 1, 2, 8, 02122011, 5, tablebase)?;
    best_move(rt, 1, 2, 8, 01011222, 5, tablebase)?;
    best_move(rt, 1, 2, 8, 10111222, 5, tablebase)?;
    best_move(rt, 1, 2, 8, 11112222, 5, tablebase)?;
    print!(rt; "filled under 2 ")?;
    lookup(rt, 1, 1, 8, 01011222, 5, tablebase)?;
    let asked = Asked {
        edition: 2,
        tablebase,
    };
    asked.tables(rt, "answers")
}

fn filled_under_1(rt: &impl Print) -> io::Result<()> {
    let mut entries = [0u16; 1302];
    let _ = morris::fill(1, 1, 5, 2000, &mut entries);
    let tablebase = &entries[..];
    lookups(rt, tablebase)?;
    lookups_by_edition(rt, tablebase)?;
    best_moves(rt, tablebase)?;
    best_moves_by_edition(rt, tablebase)?;
    unreachable(rt, tablebase)?;
    let asked = Asked {
        edition: 1,
        tablebase,
    };
    asked.tables(rt, "answers")
}

fn filled_under_2(rt: &impl Print) -> io::Result<()> {
    let mut tablebase = [0u16; 1302];
    let _ = morris::fill(1, 2, 5, 2000, &mut tablebase);
    edition_2(rt, &tablebase)
}

fn over_made_up(rt: &impl Print) -> io::Result<()> {
    let mut entries = [0u16; 1302];
    make_up(&mut entries, 40);
    let tablebase = &entries[..];
    for edition in [1, 2] {
        Asked { edition, tablebase }.tables(rt, "made-up answers")?;
    }
    Ok(())
}

pub fn run(rt: &impl Print) -> io::Result<()> {
    filled_under_1(rt)?;
    filled_under_2(rt)?;
    void_entry(rt)?;
    void_after_no_removal(rt)?;
    over_made_up(rt)
}
