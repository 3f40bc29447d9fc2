// Where the tables of a tablebase start, by rising m, then o. A table is as long as its last board's rank says.
ghost use Rattle.std.specs.Prelude.{◌<◌, IfSome};

use super::points::Board;

// The tables of a tablebase, or some of them.
#[derive(Clone, Copy)]
pub struct Tables {
    pub rings: u8,

    // At 10 m + o where table (m, o) starts.
    pub(crate) starts: [Option<usize>; 100],

    // How long the tablebase is.
    pub length: usize,
}

// The size of table 10 m + o in a tablebase of largest count k, if it has such a table.
fn table_size(rings: u8, k: u8, table: usize) -> Option<usize> {
    let m = table / 10;
    let o = table % 10;
    let k = k as usize;
    if (m < 3) | (o < 3) | (k < m) | (k < o) | (8 * (rings as usize) < m + o) {
        return None;
    }
    Some(Board::last(rings, m, o).rank()?.wrapping_add(1))
}

// Where the start of table (m, o) stands, if m and o are digits.
fn index(m: u8, o: u8) -> Option<usize>
    ensures { IfSome result (λ i. i < 100) }
{
    if (9 < m) | (9 < o) {
        return None;
    }
    Some(10 * m as usize + o as usize)
}

impl Tables {
    // All tables of a tablebase of largest count k.
    pub fn of(rings: u8, k: u8) -> Tables {
        let mut starts = [None; 100];
        let mut length: usize = 0;
        for (table, start) in starts.iter_mut().enumerate() {
            if let Some(size) = table_size(rings, k, table) {
                *start = Some(length);
                length = length.wrapping_add(size);
            }
        }
        Tables {
            rings,
            starts,
            length,
        }
    }

    // Where table (m, o) starts.
    pub fn start(&self, m: u8, o: u8) -> Option<usize> {
        self.starts[index(m, o)?]
    }

    // The tables (m, o) and (o, m) alone, if there are such.
    pub fn pair(&self, m: u8, o: u8) -> Option<Tables> {
        let mut pair = *self;
        pair.starts = [None; 100];
        pair.starts[index(m, o)?] = Some(self.start(m, o)?);
        pair.starts[index(o, m)?] = Some(self.start(o, m)?);
        Some(pair)
    }

    // Whether a ply of one of these tables can lead to table (m, o): the sides had the other names, and one stone more may have stood.
    pub fn lead_to(&self, m: u8, o: u8) -> bool {
        self.start(o, m).is_some() | self.start(o, m.wrapping_add(1)).is_some()
    }
}
