// The boards of equal counts in document 01's order: the first, the last, and each after the one before.
ghost use Rattle.std.specs.Prelude.{◌<◌, IfSome};

use super::points::Board;
use std::array;

// What stands at a point of the first board: 2s at the lowest points, over them 1s, and vacant points highest.
fn first_at(m: usize, o: usize, p: usize) -> u8 {
    if p < o {
        return 2;
    }
    if p - o < m {
        return 1;
    }
    0
}

impl Board {
    // The first board with so many stones.
    pub fn first(rings: u8, m: usize, o: usize) -> Board {
        Board {
            rings,
            values: array::from_fn(|p| first_at(m, o, p)),
        }
    }

    // The last board with so many stones: the first one turned round.
    pub fn last(rings: u8, m: usize, o: usize) -> Board {
        let mut board = Board::first(rings, m, o);
        let points = board.points();
        board.values[..points].reverse();
        board
    }

    // The lowest point that has less than the one under it, which the last board alone has not: what stands under it can be no higher, so the
    // next board has more there.
    fn lowest_to_raise(&self) -> Option<usize>
        ensures { IfSome result (λ p. p < 24) }
    {
        for p in 1..self.points() {
            if self.values[p] < self.values[p - 1] {
                return Some(p);
            }
        }
        None
    }

    // Makes it the next board, if it is not the last, and says whether it did: as little more at that point as can be, and the lowest order of what is
    // left under it, which is the present one turned round. Under it what stands never falls from a point to the next, so the lowest point that has more
    // has the least of these.
    pub fn advance(&mut self) -> bool {
        let Some(p) = self.lowest_to_raise() else {
            return false;
        };
        let v = self.values[p];
        if let Some(q) = self.values[..p].iter().position(|w| v < *w) {
            self.values.swap(p, q);
        }
        self.values[..p].reverse();
        true
    }
}
