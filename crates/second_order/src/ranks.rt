// The rank of a board, counted: the board is read from its highest point down, and beside it all readings that come before its own.
//
// `lower` has in cell 12 + 11 m + o how many of these have m 1s and o 2s so far. A row and a column of cells before them stay 0, for the counts
// of one stone less than none.
ghost use Rattle.std.specs.Prelude.{◌+◌, ◌<◌, ◌≤◌};

use super::points::Board;

// The cell of a reading of no point.
const NOTHING_READ: usize = 12;

// One more 1 leads a row further, one more 2 to the next cell.
const ROW: usize = 11;

fn one_more(lower: &mut [usize; 132], cell: usize) {
    if let Some(readings) = lower.get_mut(cell) {
        *readings = readings.wrapping_add(1);
    }
}

// One more point: a cell's own readings go on with a vacant point, those of one 2 less with a 2, those of one 1 less with a 1.
fn read_cell(lower: &mut [usize; 132], cell: usize)
    requires { (11 ≤ cell) × (cell < 132) }
{
    let with_stone = lower[cell - 1].wrapping_add(lower[cell - ROW]);
    lower[cell] = lower[cell].wrapping_add(with_stone);
}

// A row up to o 2s, from the last cell to the first: each is made from cells before it as they were.
fn read_row(lower: &mut [usize; 132], first: usize, o: usize)
    requires { (11 ≤ first) × (first + o < 132) }
{
    for twos in (0..o + 1).rev() {
        read_cell(lower, first + twos);
    }
}

// One more point for every lower reading of up to m 1s and o 2s: one with more cannot end with the board's counts.
fn read_point(lower: &mut [usize; 132], m: usize, o: usize)
    requires { (m ≤ 9) × (o ≤ 9) }
{
    for ones in (0..m + 1).rev() {
        read_row(lower, NOTHING_READ + ROW * ones, o);
    }
}

// The readings that come before the board's own from a point on where v stands: as its own so far, and with less there.
fn branch_off(lower: &mut [usize; 132], own: usize, v: u8) {
    if v != 0 {
        one_more(lower, own);
    }
    if v == 2 {
        one_more(lower, own.wrapping_add(ROW));
    }
}

// The cell of the board's own reading after a point where v stands.
fn own_after(own: usize, v: u8) -> usize {
    match v {
        1 => own.wrapping_add(ROW),
        2 => own.wrapping_add(1),
        _ => own,
    }
}

impl Board {
    // How many boards of the same counts come before this one. A board with more than nine stones of a side is in no table, and has no rank.
    pub fn rank(&self) -> Option<usize> {
        let m = self.count(1);
        let o = self.count(2);
        if (9 < m) | (9 < o) {
            return None;
        }
        let mut lower = [0usize; 132];
        let mut own = NOTHING_READ;
        for v in self.values[..self.points()].iter().rev() {
            read_point(&mut lower, m, o);
            branch_off(&mut lower, own, *v);
            own = own_after(own, *v);
        }
        lower.get(own).copied()
    }
}
