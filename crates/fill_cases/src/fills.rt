// Tablebases filled, whole and pair by pair: what each call answered, and sums over what the buffer then holds. A case is written as its call is, so
// that the functions over it take their arguments one by one too.
use super::sums::{DRAW_ENTRY, VOID_ENTRY, contents};
use morris::Refusal;
use notation::{refused, text};
use std::io;

fn solved(rt: &impl Print, answer: Result<(), Refusal>) -> io::Result<()> {
    match answer {
        Ok(()) => text(rt, b" filled"),
        Err(refusal) => refused(rt, refusal.number()),
    }
}

// Writes one entry at a place.
pub fn put(tablebase: &mut [u16], place: usize, entry: u16) {
    if let Some(written) = tablebase.get_mut(place) {
        *written = entry;
    }
}

// A tablebase filled whole, in a buffer that holds one entry throughout.
fn fill_in(
    rt: &impl Print,
    rings: u8,
    edition: u8,
    k: u8,
    limit: u32,
    tablebase: &mut [u16],
    entry: u16,
) -> io::Result<()> {
    tablebase.fill(entry);
    let length = tablebase.len();
    print!(rt; "fill {rings} {edition} {k} {limit} over {length} of {entry}:")?;
    solved(rt, morris::fill(rings, edition, k, limit, tablebase))?;
    contents(rt, tablebase)
}

// The same in a buffer of so many entries, 1302 at most.
fn fill(
    rt: &impl Print,
    rings: u8,
    edition: u8,
    k: u8,
    limit: u32,
    length: usize,
    entry: u16,
) -> io::Result<()> {
    let mut tablebase = [0u16; 1302];
    let buffer = &mut tablebase[..length.min(1302)];
    fill_in(rt, rings, edition, k, limit, buffer, entry)
}

// The tables of two counts filled, in a buffer that holds what earlier lines left.
fn fill_pair(
    rt: &impl Print,
    rings: u8,
    edition: u8,
    mover: u8,
    opponent: u8,
    k: u8,
    limit: u32,
    tablebase: &mut [u16],
) -> io::Result<()> {
    print!(rt; "fill pair {rings} {edition} {mover} {opponent} {k} {limit}:")?;
    solved(
        rt,
        morris::fill_pair(rings, edition, mover, opponent, k, limit, tablebase),
    )?;
    contents(rt, tablebase)
}

// Whatever the buffer held: zeros, sevens, voids.
fn whole(rt: &impl Print, edition: u8, k: u8, length: usize) -> io::Result<()> {
    fill(rt, 1, edition, k, 2000, length, 0)?;
    fill(rt, 1, edition, k, 2000, length, 7)?;
    fill(rt, 1, edition, k, 2000, length, VOID_ENTRY)
}

// The entries of four against four: the last table with K 4.
fn four_against_four(rt: &impl Print) -> io::Result<()> {
    let mut tablebase = [7u16; 1190];
    let _ = morris::fill(1, 1, 4, 2000, &mut tablebase);
    print!(rt; "four against four")?;
    contents(rt, &tablebase[1120..1190])
}

// A whole fill with one limit, over the 560 entries of one ring with K 3.
fn within(rt: &impl Print, limit: u32) -> io::Result<()> {
    fill(rt, 1, 1, 3, limit, 560, 7)
}

// The limits of one ring with K 3: those too low and the least that is not, the highest and the first that is refused. Then each refusal of a
// whole tablebase but 20, and the first of two.
fn limits(rt: &impl Print) -> io::Result<()> {
    within(rt, 0)?;
    within(rt, 1)?;
    within(rt, 2)?;
    within(rt, 3)?;
    within(rt, 65533)?;
    within(rt, 65534)?;
    fill(rt, 0, 1, 3, 2000, 560, 7)?;
    fill(rt, 4, 1, 2, 2000, 560, 7)?;
    fill(rt, 1, 1, 2, 2000, 560, 7)?;
    fill(rt, 1, 1, 10, 65534, 560, 7)?;
    fill(rt, 1, 1, 4, 2000, 560, 7)?;
    fill(rt, 2, 1, 3, 65534, 560, 7)?;
    fill(rt, 3, 1, 9, 2000, 560, 7)?;
    within(rt, 65536)?;
    within(rt, 4294967295)
}

// Under edition 2 the highest limit that is too low and the least that is not. Then 20, after 1 and before each other refusal.
fn limits_by_edition(rt: &impl Print) -> io::Result<()> {
    fill(rt, 1, 2, 3, 2, 560, 7)?;
    fill(rt, 1, 2, 3, 3, 560, 7)?;
    fill(rt, 1, 0, 3, 2000, 560, 7)?;
    fill(rt, 1, 3, 3, 2000, 560, 7)?;
    fill(rt, 4, 3, 3, 2000, 560, 7)?;
    fill(rt, 1, 0, 2, 2000, 560, 7)?;
    fill(rt, 1, 3, 4, 2000, 560, 7)?;
    fill(rt, 1, 0, 3, 65534, 560, 7)?;
    fill(rt, 1, 3, 3, 1, 560, 7)
}

// Every pair of one ring in order: the last of them has the sums of a whole fill. K 9 has the same places, and four against five no room.
fn pairs(rt: &impl Print, edition: u8, tablebase: &mut [u16]) -> io::Result<()> {
    fill_pair(rt, 1, edition, 3, 3, 5, 2000, tablebase)?;
    fill_pair(rt, 1, edition, 4, 3, 5, 2000, tablebase)?;
    fill_pair(rt, 1, edition, 4, 4, 5, 2000, tablebase)?;
    fill_pair(rt, 1, edition, 3, 5, 5, 2000, tablebase)?;
    fill_pair(rt, 1, edition, 5, 3, 9, 2000, tablebase)?;
    fill_pair(rt, 1, edition, 5, 4, 9, 2000, tablebase)
}

// A pair with K 4 or less in a buffer of sevens.
fn refused_pair(
    rt: &impl Print,
    rings: u8,
    edition: u8,
    mover: u8,
    opponent: u8,
    k: u8,
    limit: u32,
) -> io::Result<()> {
    let mut tablebase = [7u16; 1190];
    fill_pair(
        rt,
        rings,
        edition,
        mover,
        opponent,
        k,
        limit,
        &mut tablebase,
    )
}

// Each refusal of a pair's counts, K, length and limit, and the first of two. Then 20, after 1 and before each of them.
fn refused_pairs(rt: &impl Print) -> io::Result<()> {
    refused_pair(rt, 0, 1, 3, 3, 4, 2000)?;
    refused_pair(rt, 4, 1, 2, 3, 4, 2000)?;
    refused_pair(rt, 1, 1, 2, 3, 4, 2000)?;
    refused_pair(rt, 1, 1, 3, 10, 4, 2000)?;
    refused_pair(rt, 1, 1, 5, 4, 3, 2000)?;
    refused_pair(rt, 1, 1, 3, 3, 2, 2000)?;
    refused_pair(rt, 1, 1, 3, 3, 10, 2000)?;
    refused_pair(rt, 1, 1, 5, 3, 4, 2000)?;
    refused_pair(rt, 1, 1, 3, 3, 5, 65534)?;
    refused_pair(rt, 1, 1, 3, 3, 4, 65534)?;
    refused_pair(rt, 1, 0, 3, 3, 4, 2000)?;
    refused_pair(rt, 1, 3, 3, 3, 4, 2000)?;
    refused_pair(rt, 4, 3, 3, 3, 4, 2000)?;
    refused_pair(rt, 1, 0, 2, 3, 4, 2000)?;
    refused_pair(rt, 1, 3, 3, 3, 2, 2000)?;
    refused_pair(rt, 1, 0, 3, 3, 5, 2000)?;
    refused_pair(rt, 1, 3, 3, 3, 4, 65534)
}

// A pair filled in a buffer with one void among zeros.
fn with_void(rt: &impl Print, edition: u8, place: usize, mover: u8, limit: u32) -> io::Result<()> {
    print!(rt; "void at {place} ")?;
    let mut tablebase = [0u16; 1190];
    put(&mut tablebase, place, VOID_ENTRY);
    fill_pair(rt, 1, edition, mover, 4, 4, limit, &mut tablebase)
}

// Four against four with limit 0: void before, in and after (3, 4), which alone is lower; then refusals beside 12; then 12 under edition 2, and 20
// before it.
fn voids(rt: &impl Print) -> io::Result<()> {
    fill_pair(rt, 1, 1, 4, 4, 4, 0, &mut [0; 1190])?;
    with_void(rt, 1, 559, 4, 0)?;
    with_void(rt, 1, 560, 4, 0)?;
    with_void(rt, 1, 839, 4, 0)?;
    with_void(rt, 1, 840, 4, 0)?;
    with_void(rt, 1, 559, 3, 0)?;
    with_void(rt, 1, 559, 3, 65534)?;
    with_void(rt, 2, 560, 4, 0)?;
    with_void(rt, 0, 560, 4, 0)
}

// A made-up entry: a draw, one of two depths that follow each other, or a depth below 9.
fn made_up(place: usize, depth: u16) -> u16 {
    let x = place % 1009 * 619 % 1009;
    match x % 4 {
        0 => DRAW_ENTRY,
        1 => depth,
        2 => depth.wrapping_add(1),
        _ => (x % 9) as u16,
    }
}

// Writes made-up entries throughout.
pub fn make_up(tablebase: &mut [u16], depth: u16) {
    for (place, entry) in tablebase.iter_mut().enumerate() {
        *entry = made_up(place, depth);
    }
}

// The pair (3, 4) with K 4 over made-up entries.
fn fill_over(
    rt: &impl Print,
    rings: u8,
    edition: u8,
    tablebase: &mut [u16],
    depth: u16,
    limit: u32,
) -> io::Result<()> {
    make_up(tablebase, depth);
    print!(rt; "made up {depth}")?;
    contents(rt, tablebase)?;
    fill_pair(rt, rings, edition, 3, 4, 4, limit, tablebase)
}

// On one ring: a gap before 40 with limits on either side of the end, one beyond the limit, and one up to the highest limit; the first of them under
// edition 2.
fn gaps(rt: &impl Print, tablebase: &mut [u16]) -> io::Result<()> {
    fill_over(rt, 1, 1, tablebase, 40, 2000)?;
    fill_pair(rt, 1, 1, 4, 3, 4, 40, tablebase)?;
    fill_pair(rt, 1, 1, 4, 3, 4, 41, tablebase)?;
    fill_over(rt, 1, 1, tablebase, 1999, 2000)?;
    fill_over(rt, 1, 1, tablebase, 65532, 65533)?;
    fill_over(rt, 1, 2, tablebase, 40, 2000)
}

// Two rings: K 3 whole.
fn two_rings_of_three(rt: &impl Print, edition: u8) -> io::Result<()> {
    let mut tablebase = [0u16; 160160];
    fill_in(rt, 2, edition, 3, 2000, &mut tablebase, 7)
}

// Two rings: a pair with a gap before 12.
fn two_rings_gap(rt: &impl Print) -> io::Result<()> {
    let mut tablebase = [0u16; 1861860];
    fill_over(rt, 2, 1, &mut tablebase, 12, 2000)
}

pub fn run(rt: &impl Print) -> io::Result<()> {
    whole(rt, 1, 3, 560)?;
    whole(rt, 1, 4, 1190)?;
    whole(rt, 1, 5, 1302)?;
    whole(rt, 1, 9, 1302)?;
    whole(rt, 2, 3, 560)?;
    whole(rt, 2, 4, 1190)?;
    whole(rt, 2, 5, 1302)?;
    whole(rt, 2, 9, 1302)?;
    four_against_four(rt)?;
    limits(rt)?;
    limits_by_edition(rt)?;
    pairs(rt, 1, &mut [7; 1302])?;
    pairs(rt, 2, &mut [7; 1302])?;
    refused_pairs(rt)?;
    voids(rt)?;
    gaps(rt, &mut [0; 1190])?;
    two_rings_of_three(rt, 1)?;
    two_rings_of_three(rt, 2)?;
    two_rings_gap(rt)
}
