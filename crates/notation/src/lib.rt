// How the test programs write boards, numbers and refusals, and the boards and sums that they have in common. Where a write fails, its error is the answer
// and nothing more is written; no other error comes.
#![tactic(auto)]

ghost use Rattle.std.specs.Prelude.{◌≤◌};

use std::{fmt, io};

// A board as the papers write it, from the highest point down.
#[derive(Clone, Copy)]
pub struct Points<'a>(pub &'a [u8]);

impl fmt::Display for Points<'_> {
    fn fmt<W: fmt::Write>(&self, f: &mut fmt::Formatter<W>) -> fmt::Result {
        for v in self.0.iter().rev() {
            write!(f, "{v}")?;
        }
        Ok(())
    }
}

// The numbers of a list, each after a space.
#[derive(Clone, Copy)]
pub struct Numbers<'a>(pub &'a [u16]);

impl fmt::Display for Numbers<'_> {
    fn fmt<W: fmt::Write>(&self, f: &mut fmt::Formatter<W>) -> fmt::Result {
        for n in self.0 {
            write!(f, " {n}")?;
        }
        Ok(())
    }
}

// Bytes as the characters that they are in ASCII.
#[derive(Clone, Copy)]
pub struct Ascii<'a>(pub &'a [u8]);

impl fmt::Display for Ascii<'_> {
    fn fmt<W: fmt::Write>(&self, f: &mut fmt::Formatter<W>) -> fmt::Result {
        for b in self.0 {
            f.write_char(char::from(*b))?;
        }
        Ok(())
    }
}

// What the arms of an answer write: a word, a number after a space, a refusal.
pub fn text(rt: &impl Print, s: &[u8]) -> io::Result<()> {
    rt.write_all(s)
}

pub fn number(rt: &impl Print, n: u64) -> io::Result<()> {
    print!(rt; " {n}")
}

pub fn refused(rt: &impl Print, n: u8) -> io::Result<()> {
    print!(rt; " refused {n}")
}

pub fn wider(x: u16) -> u64 {
    x as u64
}

// One more digit of a number in base 65,537, modulo a prime.
pub fn with_digit(digits: u64, digit: u64) -> u64 {
    (digits % 1000003 * 65537).wrapping_add(digit) % 1000003
}

// The board that a number's digits write, the last of them point 0.
pub fn board_of(digits: u64) -> [u8; 24] {
    let mut board = [0u8; 24];
    let mut left = digits;
    for point in board.iter_mut() {
        *point = (left % 10) as u8;
        left /= 10;
    }
    board
}

// How many points so many rings have, of a board's 24 at most.
pub fn points_of(rings: u8) -> usize
    ensures { result ≤ 24 }
{
    (8 * rings as usize).min(24)
}
