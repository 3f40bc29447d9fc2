// Entries sought in a tablebase: the first place of one, the least depth in a table, a void.
#![tactic(auto)]

ghost use Rattle.std.specs.Prelude.{◌≡◌, ◌+◌, ◌≤◌, length, nat_eq};
ghost use Rattle.lists.specs.Lists.{any};
ghost use Rattle.game.specs.Game.{void_entry};
ghost use Rattle.parts.specs.Parts.{part_of};
ghost use Rattle.finding.specs.Inner.Finding.{First, NoneBefore, is_at, occurs, nearer, least_from};

// Whether v is one of the two entries from place i on. Sixteen are tested at a time without a branch between them, which the machine does at once. Each of
// the four functions is twice the one before: a const argument cannot be halved.
fn in_two(tablebase: &[u16], i: usize, v: u16) -> bool
    requires { i + 2 ≤ length tablebase.now }
    ensures { result ≡ occurs v tablebase.now i 2 }
{
    (tablebase[i] == v) | (tablebase[i + 1] == v)
}

fn in_four(tablebase: &[u16], i: usize, v: u16) -> bool
    requires { i + 4 ≤ length tablebase.now }
    ensures { result ≡ occurs v tablebase.now i 4 }
{
    in_two(tablebase, i, v) | in_two(tablebase, i + 2, v)
}

fn in_eight(tablebase: &[u16], i: usize, v: u16) -> bool
    requires { i + 8 ≤ length tablebase.now }
    ensures { result ≡ occurs v tablebase.now i 8 }
{
    in_four(tablebase, i, v) | in_four(tablebase, i + 4, v)
}

fn in_sixteen(tablebase: &[u16], i: usize, v: u16) -> bool
    requires { i + 16 ≤ length tablebase.now }
    ensures { result ≡ occurs v tablebase.now i 16 }
{
    in_eight(tablebase, i, v) | in_eight(tablebase, i + 8, v)
}

// A place from `from` on and at most `end` before which v does not occur: sixteen entries with v come next, or fewer than sixteen are left. The place
// reached is the result: a `for` by steps would need it beside its counter.
fn pass(tablebase: &[u16], from: usize, end: usize, v: u16) -> usize
    requires { (from ≤ end) × (end ≤ length tablebase.now) }
    ensures { NoneBefore (is_at v tablebase.now) from end result }
{
    let mut i = from;
    while 16 <= end - i {
        if in_sixteen(tablebase, i, v) {
            return i;
        }
        i += 16;
    }
    i
}

// The first place of v from `from` on and below `end`, or `end`: a search that goes on from there ends by its own bound, with no second test.
pub fn find(tablebase: &[u16], from: usize, end: usize, v: u16) -> usize
    requires { (from ≤ end) × (end ≤ length tablebase.now) }
    ensures { First (is_at v tablebase.now) from end result }
{
    for i in pass(tablebase, from, end, v)..end {
        if tablebase[i] == v {
            return i;
        }
    }
    end
}

// How far an entry lies above `low`, if that is less than `above`. Entries below `low` wrap round and lie far above.
fn nearer(above: u16, e: u16, low: u16) -> u16
    requires { low + above ≤ void_entry }
    ensures { low + result ≡ nearer (low + above) e low }
{
    let d = e.wrapping_sub(low);
    d.min(above)
}

// The least depth from `low` on among the entries of a part, void where there is none. The loop is a minimum of differences, which the machine takes
// for several entries at once.
fn least_from(part: &[u16], low: u16) -> u16
    requires { low ≤ void_entry }
    ensures { result ≡ least_from low part.now }
{
    let mut above = parts::VOID - low;
    for e in part.iter().rev() {
        above = nearer(above, *e, low);
    }
    low + above
}

// Whether an entry of a part is void. The loop looks at all entries without a branch, which the machine does for several at once.
fn has_void(part: &[u16]) -> bool
    ensures { result ≡ any (λ e. nat_eq e void_entry) part.now }
{
    let mut found = false;
    for e in part {
        found = (*e == parts::VOID) | found;
    }
    found
}

// The least depth from `low` on in a table.
pub fn least_depth(tablebase: &[u16], part: parts::Part, low: u16) -> u16
    requires { (part.start ≤ part.end) × (part.end ≤ length tablebase.now) × (low ≤ void_entry) }
    ensures { result ≡ least_from low (part_of part.start part.end tablebase.now) }
{
    let start = part.start;
    let end = part.end;
    least_from(&tablebase[start..end], low)
}

// Whether an entry of a table is void.
pub fn void_within(tablebase: &[u16], part: parts::Part) -> bool
    requires { (part.start ≤ part.end) × (part.end ≤ length tablebase.now) }
    ensures { result ≡ any (λ e. nat_eq e void_entry) (part_of part.start part.end tablebase.now) }
{
    let start = part.start;
    let end = part.end;
    has_void(&tablebase[start..end])
}
