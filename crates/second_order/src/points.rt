// A board, whatever its rings: 0 vacant, 1 the side to move, 2 the other, which are numbers here as in the papers, since these order boards by them.
// Which points adjoin and which stones stand in a mill follows from ring, p / 8, and place, p % 8.
ghost use Rattle.std.specs.Prelude.{◌≤◌};

// A board of so many rings, and what stands at each of 24 points.
#[derive(Clone, Copy)]
pub struct Board {
    pub(crate) values: [u8; 24],
    pub rings: u8,
}

impl Board {
    // How many points it has.
    pub fn points(&self) -> usize
        ensures { result ≤ 24 }
    {
        (8 * self.rings as usize).min(24)
    }

    // What stands at a point.
    pub fn at(&self, p: usize) -> u8 {
        self.values.get(p).copied().unwrap_or(0)
    }

    // Writes what stands at a point.
    fn put(&mut self, p: usize, v: u8) {
        if let Some(value) = self.values.get_mut(p) {
            *value = v;
        }
    }

    // How many points have a value.
    pub fn count(&self, v: u8) -> usize {
        self.values.iter().filter(|w| **w == v).count()
    }

    // The board with one stone moved.
    pub fn moved(&self, from: usize, to: usize) -> Board {
        let mut next = *self;
        next.put(to, self.at(from));
        next.put(from, 0);
        next
    }

    // The board with one stone more.
    pub fn with_stone(&self, p: usize, v: u8) -> Board {
        let mut next = *self;
        next.put(p, v);
        next
    }

    // The board under the sides' other names, value by value: `map` on an array first makes an option of each.
    pub fn turned(&self) -> Board {
        let mut next = *self;
        for v in next.values.iter_mut() {
            *v = renamed(*v);
        }
        next
    }

    // Whether a value stands at both points.
    fn both(&self, p: usize, q: usize, v: u8) -> bool {
        (self.at(p) == v) & (self.at(q) == v)
    }

    // Whether the stone at a point stands in a full mill: a corner's two sides; the middle of a side; the spoke through three rings.
    pub fn in_mill(&self, p: usize) -> bool {
        let v = self.at(p);
        if p % 2 == 0 {
            let forwards = self.both(round(p, 1), round(p, 2), v);
            let back = self.both(round(p, 6), round(p, 7), v);
            return forwards | back;
        }
        let side = self.both(round(p, 1), round(p, 7), v);
        let spoke = self.both(inwards(p, 1), inwards(p, 2), v);
        side | ((self.rings == 3) & spoke)
    }
}

// A value under the sides' other names.
fn renamed(v: u8) -> u8 {
    match v {
        1 => 2,
        2 => 1,
        _ => v,
    }
}

// Whether two points adjoin: places side by side on a ring, or the same odd place on rings side by side.
pub fn adjoin(p: usize, q: usize) -> bool {
    if p / 8 == q / 8 {
        let apart = (8 + p % 8 - q % 8) % 8;
        return (apart == 1) | (apart == 7);
    }
    (p % 2 == 1) & (p % 8 == q % 8) & ((p / 8).abs_diff(q / 8) == 1)
}

// The point so many places further round the ring.
fn round(p: usize, places: usize) -> usize {
    p / 8 * 8 + (p % 8 + places % 8) % 8
}

// The point so many rings further in, and outermost again after the innermost.
fn inwards(p: usize, rings: usize) -> usize {
    (p % 24 + 8 * (rings % 3)) % 24
}
