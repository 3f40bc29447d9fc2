// Document 02's check of tablebases, whoever made them: those that a fill makes, and others with entries that are not right. A printed line for each.
#![tactic(auto)]

mod changes;

use changes::{capped, decided, mark, write_anew};
use fill_cases::{DRAW_ENTRY, VOID_ENTRY, contents, put};
use notation::{number, refused, text};
use std::{fmt, io};

// A call of the check.
#[derive(Clone, Copy)]
struct Call<'a> {
    rings: u8,
    edition: u8,
    k: u8,
    tablebase: &'a [u16],
}

// The call, and how many entries it is lent.
impl fmt::Display for Call<'_> {
    fn fmt<W: fmt::Write>(&self, f: &mut fmt::Formatter<W>) -> fmt::Result {
        let Call {
            rings,
            edition,
            k,
            tablebase,
        } = *self;
        write!(f, "check {rings} {edition} {k} over {}", tablebase.len())
    }
}

impl<'a> Call<'a> {
    fn new(rings: u8, edition: u8, k: u8, tablebase: &'a [u16]) -> Call<'a> {
        Call {
            rings,
            edition,
            k,
            tablebase,
        }
    }
}

// What a call answers.
fn answer(rt: &impl Print, call: Call<'_>) -> io::Result<()> {
    let Call {
        rings,
        edition,
        k,
        tablebase,
    } = call;
    print!(rt; ":")?;
    match morris::check(rings, edition, k, tablebase) {
        Ok(None) => text(rt, b" passed"),
        Ok(Some(index)) => {
            text(rt, b" fails at")?;
            number(rt, index)
        }
        Err(refusal) => refused(rt, refusal.number()),
    }
}

// A tablebase as a fill under one edition made it, checked under the same or the other.
fn filled(rt: &impl Print, under: u8, call: Call<'_>) -> io::Result<()> {
    print!(rt; "{call} filled under {under}")?;
    answer(rt, call)?;
    println!(rt)
}

// Both editions; K 9 has the same places, and the first of them are those of K 3.
fn one_ring_filled(rt: &impl Print, under: u8) -> io::Result<()> {
    let mut tablebase = [0u16; 1302];
    let _ = morris::fill(1, under, 5, 2000, &mut tablebase);
    let of_three = &tablebase[..560];
    filled(rt, under, Call::new(1, 1, 5, &tablebase))?;
    filled(rt, under, Call::new(1, 2, 5, &tablebase))?;
    filled(rt, under, Call::new(1, under, 9, &tablebase))?;
    filled(rt, under, Call::new(1, under, 3, of_three))
}

// A tablebase filled under edition 1 but for one entry.
fn with_entry(
    rt: &impl Print,
    rings: u8,
    k: u8,
    place: usize,
    entry: u16,
    tablebase: &mut [u16],
) -> io::Result<()> {
    let _ = morris::fill(rings, 1, k, 2000, tablebase);
    put(tablebase, place, entry);
    let call = Call::new(rings, 1, k, tablebase);
    print!(rt; "{call} filled under 1 with {entry} at {place}")?;
    answer(rt, call)?;
    println!(rt)
}

fn one_ring_with(rt: &impl Print, place: usize, entry: u16) -> io::Result<()> {
    let mut tablebase = [0u16; 1302];
    with_entry(rt, 1, 5, place, entry, &mut tablebase)
}

// A win, a loss, a draw and a blocked mover's entry written as others, in the first place and in the last.
fn wrong_themselves(rt: &impl Print) -> io::Result<()> {
    one_ring_with(rt, 117, 3)?;
    one_ring_with(rt, 117, 65533)?;
    one_ring_with(rt, 0, DRAW_ENTRY)?;
    one_ring_with(rt, 225, 4)?;
    one_ring_with(rt, 225, DRAW_ENTRY)?;
    one_ring_with(rt, 4, 1)?;
    one_ring_with(rt, 4, 2)?;
    one_ring_with(rt, 4, VOID_ENTRY)?;
    one_ring_with(rt, 1301, 2)?;
    one_ring_with(rt, 1301, DRAW_ENTRY)?;
    one_ring_with(rt, 1301, VOID_ENTRY)
}

// Wins in one, with a loss in 2 or in 4 among their successors, by which they are not right. Then changes by which a position before them is not.
fn wrong_by_successors(rt: &impl Print) -> io::Result<()> {
    one_ring_with(rt, 3, 3)?;
    one_ring_with(rt, 561, 5)?;
    one_ring_with(rt, 117, 0)?;
    one_ring_with(rt, 1020, 2)?;
    one_ring_with(rt, 1020, VOID_ENTRY)
}

// One entry throughout, in a buffer of so many entries, 1303 at most.
fn throughout(
    rt: &impl Print,
    rings: u8,
    edition: u8,
    k: u8,
    length: usize,
    entry: u16,
) -> io::Result<()> {
    let mut entries = [0u16; 1303];
    let tablebase = &mut entries[..length.min(1303)];
    tablebase.fill(entry);
    let call = Call::new(rings, edition, k, tablebase);
    print!(rt; "{call} of {entry}")?;
    answer(rt, call)?;
    println!(rt)
}

// All of one kind.
fn uniform(rt: &impl Print) -> io::Result<()> {
    throughout(rt, 1, 1, 5, 1302, DRAW_ENTRY)?;
    throughout(rt, 1, 1, 5, 1302, VOID_ENTRY)?;
    throughout(rt, 1, 1, 5, 1302, 0)?;
    throughout(rt, 1, 1, 5, 1302, 1)?;
    throughout(rt, 1, 1, 5, 1302, 65533)
}

// Each refusal; then the first of two.
fn refusals(rt: &impl Print) -> io::Result<()> {
    throughout(rt, 0, 1, 5, 1302, 7)?;
    throughout(rt, 4, 1, 5, 1302, 7)?;
    throughout(rt, 1, 0, 5, 1302, 7)?;
    throughout(rt, 1, 3, 5, 1302, 7)?;
    throughout(rt, 1, 1, 2, 1302, 7)?;
    throughout(rt, 1, 1, 10, 1302, 7)?;
    throughout(rt, 1, 1, 5, 1301, 7)?;
    throughout(rt, 1, 1, 5, 1303, 7)?;
    throughout(rt, 1, 1, 5, 0, 7)?;
    throughout(rt, 1, 1, 4, 1302, 7)?;
    throughout(rt, 2, 1, 5, 1302, 7)?;
    throughout(rt, 4, 3, 5, 1302, 7)?;
    throughout(rt, 0, 1, 2, 1302, 7)?;
    throughout(rt, 4, 1, 5, 1301, 7)?;
    throughout(rt, 1, 0, 2, 1302, 7)?;
    throughout(rt, 1, 3, 5, 1301, 7)?;
    throughout(rt, 1, 1, 2, 1301, 7)?;
    throughout(rt, 1, 1, 10, 0, 7)
}

fn marks_alone(rt: &impl Print) -> io::Result<()> {
    let mut tablebase = [0u16; 1302];
    let _ = morris::fill(1, 1, 5, 2000, &mut tablebase);
    write_anew(&mut tablebase, mark);
    let call = Call::new(1, 1, 5, &tablebase);
    print!(rt; "{call} filled under 1 with marks alone")?;
    answer(rt, call)?;
    contents(rt, &tablebase)
}

// A depth written over the draws between two places.
fn decide(tablebase: &mut [u16], start: usize, end: usize, depth: u16) {
    if let Some(entries) = tablebase.get_mut(start..end) {
        write_anew(entries, |entry| decided(entry, depth));
    }
}

// The draws of three against four, and those of four against three, as depths.
fn draws_as(rt: &impl Print, first: u16, second: u16) -> io::Result<()> {
    let mut tablebase = [0u16; 1302];
    let _ = morris::fill(1, 1, 5, 2000, &mut tablebase);
    decide(&mut tablebase, 560, 840, first);
    decide(&mut tablebase, 896, 1176, second);
    let call = Call::new(1, 1, 5, &tablebase);
    print!(rt; "{call} filled under 1 with draws of 3 4 as {first} and of 4 3 as {second}")?;
    answer(rt, call)?;
    contents(rt, &tablebase)
}

// Wins and losses whose marks hold each other up: such a loss comes after each such win, and wins alone after each such loss. By their depths the wins
// are right or the losses, never both. Then a void, which is no loss after a win, and one that is not right whatever wins come after it.
fn families(rt: &impl Print) -> io::Result<()> {
    draws_as(rt, 7, 6)?;
    draws_as(rt, 7, 8)?;
    draws_as(rt, 65533, 65532)?;
    draws_as(rt, 65533, VOID_ENTRY)?;
    draws_as(rt, VOID_ENTRY, 65533)
}

// The pairs in order, each written anew before a larger one is filled over it; one that K leaves out is refused.
fn fill_in_pairs<F: Fn(u16) -> u16>(rings: u8, k: u8, tablebase: &mut [u16], change: F)
    requires { F.IsAlwaysCallable change }
{
    for (mover, opponent) in [(3, 3), (4, 3), (4, 4), (5, 3)] {
        let _ = morris::fill_pair(rings, 1, mover, opponent, k, 2000, tablebase);
        write_anew(tablebase, &change);
    }
}

// As the buyers' old library made it: a cap as the depth of what ends beyond it, and larger tables over that number.
fn with_cap(rt: &impl Print, rings: u8, k: u8, cap: u16, tablebase: &mut [u16]) -> io::Result<()> {
    fill_in_pairs(rings, k, tablebase, |entry| capped(entry, cap));
    let call = Call::new(rings, 1, k, tablebase);
    print!(rt; "{call} filled in pairs under 1 with cap {cap}")?;
    answer(rt, call)?;
    contents(rt, tablebase)
}

// The same with the cap over draws too, which are as open at the cap.
fn with_cap_over_draws(rt: &impl Print, cap: u16, tablebase: &mut [u16]) -> io::Result<()> {
    fill_in_pairs(1, 5, tablebase, |entry| entry.min(cap));
    let call = Call::new(1, 1, 5, tablebase);
    print!(rt; "{call} filled in pairs under 1 with cap {cap} over draws too")?;
    answer(rt, call)?;
    contents(rt, tablebase)
}

// No depth is above 5.
fn one_ring_caps(rt: &impl Print, tablebase: &mut [u16]) -> io::Result<()> {
    with_cap(rt, 1, 5, 5, tablebase)?;
    with_cap(rt, 1, 5, 4, tablebase)?;
    with_cap(rt, 1, 5, 3, tablebase)?;
    with_cap(rt, 1, 5, 2, tablebase)?;
    with_cap(rt, 1, 5, 1, tablebase)?;
    with_cap_over_draws(rt, 5, tablebase)?;
    with_cap_over_draws(rt, 4, tablebase)
}

// Losses by their quickest successor, not by their slowest; a win by its slowest; a void after a draw that has no other successor but wins; the last
// entry as a win, and as a loss before which a draw is not right.
fn two_rings_with(rt: &impl Print, tablebase: &mut [u16]) -> io::Result<()> {
    with_entry(rt, 2, 4, 9809, 2, tablebase)?;
    with_entry(rt, 2, 4, 1521238, 6, tablebase)?;
    with_entry(rt, 2, 4, 1861789, 5, tablebase)?;
    with_entry(rt, 2, 4, 33841, VOID_ENTRY, tablebase)?;
    with_entry(rt, 2, 4, 1861859, 1, tablebase)?;
    with_entry(rt, 2, 4, 1861859, 2, tablebase)
}

fn two_rings_filled(rt: &impl Print, under: u8, tablebase: &mut [u16]) -> io::Result<()> {
    let _ = morris::fill(2, under, 4, 2000, tablebase);
    filled(rt, under, Call::new(2, 1, 4, tablebase))?;
    filled(rt, under, Call::new(2, 2, 4, tablebase))
}

// No depth is above 13, and none of three against three above 9.
fn two_rings_over(rt: &impl Print, tablebase: &mut [u16]) -> io::Result<()> {
    two_rings_filled(rt, 1, tablebase)?;
    two_rings_filled(rt, 2, tablebase)?;
    two_rings_with(rt, tablebase)?;
    with_cap(rt, 2, 4, 9, tablebase)?;
    with_cap(rt, 2, 4, 2, tablebase)
}

// All in one buffer, since the stack has little more room.
fn two_rings(rt: &impl Print) -> io::Result<()> {
    let mut tablebase = [0u16; 1861860];
    two_rings_over(rt, &mut tablebase)
}

pub fn run(rt: &impl Print) -> io::Result<()> {
    one_ring_filled(rt, 1)?;
    one_ring_filled(rt, 2)?;
    uniform(rt)?;
    wrong_themselves(rt)?;
    wrong_by_successors(rt)?;
    marks_alone(rt)?;
    families(rt)?;
    one_ring_caps(rt, &mut [0; 1302])?;
    refusals(rt)?;
    two_rings(rt)
}
