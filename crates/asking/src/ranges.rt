// What is asked of successors: a range of keys, which put the entries in an order of their own.
ghost use Rattle.std.specs.Prelude.{◌≡◌};
ghost use Rattle.asking.specs.Inner.Keys.{key, asked};

use tables::Starts;

// The keys of the entries that are not won start here: the lost ones by depth, then void and draw.
pub const NOT_WON: u32 = 65536;

// The edition, for it says which successors a position has; their tables, by where they start; and the keys that are asked for: from low on and below
// high.
#[derive(Clone, Copy)]
pub struct Question {
    pub edition: u8,
    pub starts: Starts,
    pub low: u32,
    pub high: u32,
}

// The key of an entry.
fn key(entry: u16) -> u32
    ensures { result ≡ key entry }
{
    let e = entry as u32;
    if (e % 2 == 1) & (e < parts::VOID_WIDE) {
        return e;
    }
    NOT_WON + e
}

// Whether an entry is asked for.
pub fn asked(question: Question, entry: u16) -> bool
    ensures { result ≡ asked question.low question.high entry }
{
    let k = key(entry);
    (question.low <= k) & (k < question.high)
}
