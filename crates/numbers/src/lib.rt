// An answer as numbers: document 01's number is returned, the values are given through `&mut`. "A refusal returns its number and zero elsewhere."
//
// A refusal is any error that converts to its number: `answers::Refusal`, or the number itself.
#![tactic(auto)]

ghost use Rattle.std.specs.Prelude.{◌≡◌};
ghost use Rattle.std.specs.Result.{ResultUnwrapsOrElse};
ghost use Rattle.answers.specs.Answers.{MetBy, value_by};
ghost use Rattle.answers.specs.Answers.{move_values, passed_or_fails, frame_values};

use answers::{BestMove, Frame};

// An answer without a value: a board written, tables filled.
pub fn done<E: Into<u8>>(answer: Result<(), E>) -> u8
    ensures { MetBy E.converts answer result }
{
    match answer {
        Ok(()) => 0,
        Err(refusal) => refusal.into(),
    }
}

// An answer of one value: a rank, a count, an entry.
pub fn one<T: Copy + Default, E: Into<u8>>(answer: Result<T, E>, value: &mut T) -> u8
    ensures refusal { MetBy E.converts answer result }
    ensures value { ResultUnwrapsOrElse answer T.is_default value.new }
{
    match answer {
        Ok(own) => {
            *value = own;
            0
        }
        Err(refusal) => {
            *value = T::default();
            refusal.into()
        }
    }
}

// A move, and the entry of the successor that it leads to.
pub fn chosen<E: Into<u8>>(answer: Result<BestMove, E>, number: &mut u16, entry: &mut u16) -> u8
    ensures refusal { MetBy E.converts answer result }
    ensures number { number.new ≡ value_by move_values answer 0 }
    ensures entry { entry.new ≡ value_by move_values answer 1 }
{
    match answer {
        Ok(best) => {
            *number = best.number;
            *entry = best.entry;
            0
        }
        Err(refusal) => {
            *number = 0;
            *entry = 0;
            refusal.into()
        }
    }
}

// Whether a tablebase passed, and the first index that fails.
pub fn checked<E: Into<u8>>(answer: Result<Option<u64>, E>, passed: &mut u8, index: &mut u64) -> u8
    ensures refusal { MetBy E.converts answer result }
    ensures passed { passed.new ≡ value_by passed_or_fails answer 0 }
    ensures index { index.new ≡ value_by passed_or_fails answer 1 }
{
    match answer {
        Ok(None) => {
            *passed = 1;
            *index = 0;
            0
        }
        Ok(Some(i)) => {
            *passed = 0;
            *index = i;
            0
        }
        Err(refusal) => {
            *passed = 0;
            *index = 0;
            refusal.into()
        }
    }
}

// The position of a frame.
pub fn frame_read<E: Into<u8>>(
    answer: Result<Frame, E>,
    rings: &mut u8,
    mover: &mut u32,
    opponent: &mut u32,
) -> u8
    ensures refusal { MetBy E.converts answer result }
    ensures rings { rings.new ≡ value_by frame_values answer 0 }
    ensures mover { mover.new ≡ value_by frame_values answer 1 }
    ensures opponent { opponent.new ≡ value_by frame_values answer 2 }
{
    match answer {
        Ok(frame) => {
            *rings = frame.rings;
            *mover = frame.mover;
            *opponent = frame.opponent;
            0
        }
        Err(refusal) => {
            *rings = 0;
            *mover = 0;
            *opponent = 0;
            refusal.into()
        }
    }
}
