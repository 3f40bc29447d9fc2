// The positions of a tablebase gone through in order: table after table, in each board after board.
use super::points::Board;
use super::tables::Tables;

// A position of a tablebase: its counts and its board.
#[derive(Clone, Copy)]
pub struct Position {
    pub board: Board,
    pub m: u8,
    pub o: u8,
}

impl Position {
    // The position under the sides' other names.
    pub fn turned(&self) -> Position {
        Position {
            m: self.o,
            o: self.m,
            board: self.board.turned(),
        }
    }
}

impl Tables {
    // The first position of the tables 10 m + o from a number on.
    fn first_from(&self, from: usize) -> Option<Position> {
        for table in from..100 {
            if self.starts[table].is_some() {
                let m = table / 10;
                let o = table % 10;
                return Some(Position {
                    m: m as u8,
                    o: o as u8,
                    board: Board::first(self.rings, m, o),
                });
            }
        }
        None
    }

    // Where a position stands, if its table is one of these.
    pub fn place(&self, position: &Position) -> Option<usize> {
        let start = self.start(position.m, position.o)?;
        Some(start.wrapping_add(position.board.rank()?))
    }

    // Their positions, from the first place on.
    pub fn positions(&self) -> Positions<'_> {
        Positions {
            tables: self,
            next: self.first_from(0),
        }
    }
}

// The positions of tables that are still to come.
#[derive(Drop)]
pub struct Positions<'a> {
    tables: &'a Tables,
    next: Option<Position>,
}

impl Iterator for Positions<'_> {
    type Item = Position;

    // The one to come is made in place: a wave takes a third longer where it is a new value, which is copied from call to call.
    fn next(&mut self) -> Option<Position> {
        let next = self.next.as_mut()?;
        let position = *next;
        if !next.board.advance() {
            let table = 10 * position.m as usize + position.o as usize;
            self.next = self.tables.first_from(table + 1);
        }
        Some(position)
    }
}
