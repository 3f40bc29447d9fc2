// Sums over the entries of a tablebase.
use notation::{wider, with_digit};
use std::{fmt, io};

pub const DRAW_ENTRY: u16 = 65535;

pub const VOID_ENTRY: u16 = 65534;

// The sums of entries: how many are won, lost, drawn and void, their depths together, and the entries as the digits of a number modulo a prime.
#[derive(Clone, Copy, Default)]
struct Sums {
    won: u64,
    lost: u64,
    drawn: u64,
    void: u64,
    depths: u64,
    digits: u64,
}

impl Sums {
    fn add(&mut self, entry: u16) {
        let kind = match entry {
            DRAW_ENTRY => &mut self.drawn,
            VOID_ENTRY => &mut self.void,
            depth => {
                self.depths = self.depths.wrapping_add(wider(depth));
                if depth % 2 == 1 {
                    &mut self.won
                } else {
                    &mut self.lost
                }
            }
        };
        *kind = kind.wrapping_add(1);
        self.digits = with_digit(self.digits, wider(entry));
    }

    fn of(tablebase: &[u16]) -> Sums {
        let mut sums = Sums::default();
        for entry in tablebase {
            sums.add(*entry);
        }
        sums
    }
}

impl fmt::Display for Sums {
    fn fmt<W: fmt::Write>(&self, f: &mut fmt::Formatter<W>) -> fmt::Result {
        let Sums {
            won,
            lost,
            drawn,
            void,
            depths,
            digits,
        } = *self;
        write!(
            f,
            "won {won} lost {lost} drawn {drawn} void {void} depths {depths} digits {digits}"
        )
    }
}

pub fn contents(rt: &impl Print, tablebase: &[u16]) -> io::Result<()> {
    println!(rt; "; {}", Sums::of(tablebase))
}
