// A wave: from the positions of one depth back to those that a ply leads from.
use super::plies::{Filling, OPEN, goes, may_be_taken, removals};
use second_order::{Board, Position};

// What a wave goes over: what is filled, the depth found, and the entries, beside each how many plies its position has left.
#[derive(Drop)]
struct Backwards<'a> {
    filling: &'a Filling,
    depth: u16,
    entries: &'a mut [u16],
    counts: &'a mut [u16],
}

// The move of a ply that is taken back.
#[derive(Clone, Copy)]
struct Move {
    to: usize,
    from: usize,
}

// A position is named `last` as it stands after the ply, and `before` as it stood before it, both under the names of then: the side that made the ply is the
// mover.
impl Backwards<'_> {
    // Decides an open position one ply before the depth: won by a lost successor, lost by the last won one.
    fn settle(&mut self, place: usize) {
        let Some(entry) = self.entries.get_mut(place) else {
            return;
        };
        let Some(left) = self.counts.get_mut(place) else {
            return;
        };
        if *entry != OPEN {
            return;
        }
        if self.depth % 2 == 1 {
            *left = left.wrapping_sub(1);
            if *left != 0 {
                return;
            }
        }
        *entry = self.depth.wrapping_add(1);
    }

    // A position that the ply leads from, if its table is to be filled.
    fn reach(&mut self, before: &Position) {
        if let Some(place) = self.filling.filled.place(before) {
            self.settle(place);
        }
    }

    // With the stone back that a mill took from a point, if it may have taken it.
    fn with_taken(&mut self, last: &Position, board: Board, taken: usize) {
        if may_be_taken(&board, self.filling.edition, taken) {
            self.reach(&Position {
                board,
                m: last.m,
                o: last.o.wrapping_add(1),
            });
        }
    }

    // Whether a move to a point takes none of the opposing stones on the board: it closes no mill, or none of them may be taken.
    fn takes_none(&self, last: &Position, to: usize) -> bool {
        !last.board.in_mill(to) || removals(last, self.filling.edition) == 0
    }

    // With a move taken back that took no stone, if it may have taken none.
    fn without_removal(&mut self, last: &Position, way: Move) {
        if self.takes_none(last, way.to) {
            let board = last.board.moved(way.to, way.from);
            self.reach(&Position { board, ..*last });
        }
    }

    // With a move taken back that took a stone, if it closed a mill: any that it may have taken. The point that the move went to was vacant before.
    fn with_removal(&mut self, last: &Position, way: Move) {
        if !last.board.in_mill(way.to) {
            return;
        }
        let without = last.board.moved(way.to, way.from);
        for taken in 0..without.points() {
            if (without.at(taken) == 0) & (taken != way.to) {
                self.with_taken(last, without.with_stone(taken, 2), taken);
            }
        }
    }

    // With a move taken back, if it can have been made.
    fn back_to(&mut self, last: &Position, way: Move) {
        if goes(last, way.to, way.from) {
            self.without_removal(last, way);
            self.with_removal(last, way);
        }
    }

    // With every last ply taken back: each move of a stone of the side that moved.
    fn back(&mut self, last: &Position) {
        let points = last.board.points();
        for to in 0..points {
            if last.board.at(to) == 1 {
                for from in 0..points {
                    self.back_to(last, Move { to, from });
                }
            }
        }
    }

    // Takes the position at a place back if it has this depth and a table to be filled can come before it.
    fn visit(&mut self, place: usize, position: &Position) {
        if self.entries.get(place).copied() != Some(self.depth) {
            return;
        }
        if self.filling.filled.lead_to(position.m, position.o) {
            self.back(&position.turned());
        }
    }
}

// Goes through all positions and takes back those of a depth.
pub fn wave(filling: &Filling, depth: u16, entries: &mut [u16], counts: &mut [u16]) {
    let places = 0..entries.len();
    let mut backwards = Backwards {
        filling,
        depth,
        entries,
        counts,
    };
    for (place, position) in places.zip(filling.tables.positions()) {
        backwards.visit(place, &position);
    }
}
