// The first pass: how many plies each position has, and which positions are ends or one ply before one.
use second_order::{Board, Position, Tables, adjoin};

// What stands at a place until its depth is found, and stays there for a draw.
pub const OPEN: u16 = 65535;

// A rules edition: where all opposing stones stand in mills, a mill may take any of them in the first, none in the second.
#[derive(Clone, Copy, PartialEq, Eq)]
pub enum Edition {
    First,
    Second,
}

// What is filled: all tables, those of them to be filled, and the rules edition.
#[derive(Clone, Copy)]
pub struct Filling {
    pub tables: Tables,
    pub filled: Tables,
    pub edition: Edition,
}

// Plies counted: how many, and whether one of them takes a stone.
#[derive(Clone, Copy, Default)]
struct Tally {
    plies: u16,
    taking: bool,
}

// Whether an opposing stone outside any mill stands at a point.
fn is_free(board: &Board, p: usize) -> bool {
    (board.at(p) == 2) & !board.in_mill(p)
}

// How many opposing stones stand outside any mill.
fn free_stones(board: &Board) -> u16 {
    (0..24).filter(|p| is_free(board, *p)).count() as u16
}

// How many of the opponent's stones a mill may take: those outside any mill, if there are such.
pub fn removals(position: &Position, edition: Edition) -> u16 {
    let free = free_stones(&position.board);
    if (free == 0) & (edition == Edition::First) {
        return position.o as u16;
    }
    free
}

// Whether a mill may take the stone at a point: it is outside any mill, or all are inside and the edition gives any.
pub fn may_be_taken(board: &Board, edition: Edition, p: usize) -> bool {
    is_free(board, p) | ((edition == Edition::First) & (free_stones(board) == 0))
}

// Whether a stone may go from one point to another: to a vacant one, with three stones to any, else to a neighbour. A move is taken back by
// the same rule. Most points are no neighbours, and are not looked at.
pub fn goes(position: &Position, from: usize, to: usize) -> bool {
    ((position.m == 3) | adjoin(from, to)) && position.board.at(to) == 0
}

impl Tally {
    // With the plies of one move: one, or one for each removal where it closes a mill that has any.
    fn with_move(self, position: &Position, removals: u16, from: usize, to: usize) -> Tally {
        if !goes(position, from, to) {
            return self;
        }
        let takes = position.board.moved(from, to).in_mill(to) & (0 < removals);
        let plies = if takes { removals } else { 1 };
        Tally {
            plies: self.plies.wrapping_add(plies),
            taking: self.taking | takes,
        }
    }

    // All plies of a position.
    fn of(position: &Position, removals: u16) -> Tally {
        let points = position.board.points();
        let mut tally = Tally::default();
        for from in 0..points {
            if position.board.at(from) == 1 {
                for to in 0..points {
                    tally = tally.with_move(position, removals, from, to);
                }
            }
        }
        tally
    }

    // 0 for a mover with no ply, 1 where a ply leaves two stones, else open.
    fn first_entry(&self, opponent: u8) -> u16 {
        if self.plies == 0 {
            return 0;
        }
        if self.taking & (opponent == 3) {
            return 1;
        }
        OPEN
    }
}

// Writes at each place to be filled its first entry, and beside it how many plies the position has. By place, since the check does not cover both
// buffers in one `zip` with the positions.
pub fn open(filling: &Filling, entries: &mut [u16], counts: &mut [u16]) {
    for (place, position) in (0..entries.len()).zip(filling.tables.positions()) {
        let (Some(entry), Some(count)) = (entries.get_mut(place), counts.get_mut(place)) else {
            return;
        };
        if filling.filled.start(position.m, position.o).is_some() {
            let tally = Tally::of(&position, removals(&position, filling.edition));
            *entry = tally.first_entry(position.o);
            *count = tally.plies;
        }
    }
}
