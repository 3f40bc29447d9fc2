// The tablebases of the two solvers held against each other, entry by entry, under both editions: filled whole, and pairs over lower tables that are not
// symmetric. Then the tablebases of the two editions held against each other.
#![tactic(auto)]

use fill_cases::{contents, make_up, put};
use std::io;

// How many entries are equal, and the first that are not.
fn agreement(rt: &impl Print, entries: &[u16], others: &[u16]) -> io::Result<()> {
    let equal = entries.iter().zip(others).filter(|(x, y)| x == y).count();
    print!(rt; " {equal} of {} equal", entries.len())?;
    let mut places = entries.iter().zip(others).enumerate();
    if let Some((place, (x, y))) = places.find(|(_, (x, y))| x != y) {
        print!(rt; ", not at {place} {x} {y}")?;
    }
    Ok(())
}

// Whether the second solver did what it was asked for.
fn said(rt: &impl Print, did: bool) -> io::Result<()> {
    if !did {
        print!(rt; " not solved,")?;
    }
    Ok(())
}

// The first entries, so many or all.
fn first(entries: &mut [u16], length: usize) -> &mut [u16] {
    let n = length.min(entries.len());
    &mut entries[..n]
}

// Room for a tablebase by either solver.
#[derive(Drop)]
struct Both<'a> {
    entries: &'a mut [u16],
    others: &'a mut [u16],
}

impl Both<'_> {
    // One tablebase by either solver, of so many entries. The second works in the buffer that the first then fills. The buffers start with unequal entries,
    // so that nothing left as it was is taken for agreement.
    fn compare(
        &mut self,
        rt: &impl Print,
        rings: u8,
        edition: u8,
        k: u8,
        length: usize,
    ) -> io::Result<()> {
        print!(rt; "second {rings} {edition} {k}:")?;
        let entries = first(self.entries, length);
        let others = first(self.others, length);
        entries.fill(7);
        others.fill(9);
        said(rt, second::solve(rings, edition, k, entries, others))?;
        let _ = morris::fill(rings, edition, k, 2000, others);
        agreement(rt, entries, others)?;
        println!(rt)
    }

    // A pair with K 4 by either solver, over the entries that are given to each.
    fn compare_pair<F: Fn(&mut [u16])>(
        &mut self,
        rt: &impl Print,
        rings: u8,
        edition: u8,
        mover: u8,
        opponent: u8,
        give: F,
    ) -> io::Result<()>
        requires { F.IsAlwaysCallable give }
    {
        let entries = &mut *self.entries;
        let others = &mut *self.others;
        give(entries);
        let did = second::solve_pair(rings, edition, mover, opponent, 4, entries, others);
        said(rt, did)?;
        give(others);
        let _ = morris::fill_pair(rings, edition, mover, opponent, 4, 2000, others);
        agreement(rt, entries, others)?;
        contents(rt, others)
    }

    // The pair of four and so many stones, over a tablebase of K 4 but for one entry, so that what it gives to the pair is not symmetric.
    fn pair_over_change(
        &mut self,
        rt: &impl Print,
        rings: u8,
        edition: u8,
        opponent: u8,
        place: usize,
        entry: u16,
    ) -> io::Result<()> {
        print!(rt; "second pair {rings} {edition} 4 {opponent} 4 with {entry} at {place}:")?;
        self.compare_pair(rt, rings, edition, 4, opponent, |tablebase| {
            let _ = morris::fill(rings, edition, 4, 2000, tablebase);
            put(tablebase, place, entry);
        })
    }

    // The pair (3, 4) of one ring over made-up entries.
    fn pair_over_made_up(&mut self, rt: &impl Print, edition: u8, depth: u16) -> io::Result<()> {
        print!(rt; "second pair 1 {edition} 3 4 4 over made up {depth}:")?;
        self.compare_pair(rt, 1, edition, 3, 4, |tablebase| make_up(tablebase, depth))
    }

    // How many entries of a tablebase differ between the two editions.
    fn compare_editions(
        &mut self,
        rt: &impl Print,
        rings: u8,
        k: u8,
        length: usize,
    ) -> io::Result<()> {
        let entries = first(self.entries, length);
        let others = first(self.others, length);
        let _ = morris::fill(rings, 1, k, 2000, entries);
        let _ = morris::fill(rings, 2, k, 2000, others);
        let places = entries.iter().zip(others.iter());
        let different = places.filter(|(x, y)| x != y).count();
        println!(rt;
            "editions {rings} {k}: {different} of {} differ",
            entries.len()
        )
    }

    // The win given as a far deeper loss makes losses after a gap.
    fn two_rings_under(&mut self, rt: &impl Print, edition: u8) -> io::Result<()> {
        self.compare(rt, 2, edition, 3, 160160)?;
        self.compare(rt, 2, edition, 4, 1861860)?;
        self.pair_over_change(rt, 2, edition, 3, 5740, 500)
    }

    // Of four against four the draw given as a loss makes losses among the depths of the pair itself; its plies are the same in both editions, since four
    // stones never all stand in mills.
    fn two_rings(&mut self, rt: &impl Print) -> io::Result<()> {
        self.two_rings_under(rt, 1)?;
        self.pair_over_change(rt, 2, 1, 4, 179712, 0)?;
        self.two_rings_under(rt, 2)?;
        self.compare_editions(rt, 2, 3, 160160)?;
        self.compare_editions(rt, 2, 4, 1861860)
    }
}

fn one_ring(rt: &impl Print, edition: u8) -> io::Result<()> {
    let mut both = Both {
        entries: &mut [0; 1302],
        others: &mut [0; 1302],
    };
    both.compare(rt, 1, edition, 3, 560)?;
    both.compare(rt, 1, edition, 4, 1190)?;
    both.compare(rt, 1, edition, 5, 1302)?;
    both.compare(rt, 1, edition, 9, 1302)
}

// The changes: a draw given as a loss; one given as a loss far deeper than any other, under edition 1 a win, so that there is a gap.
fn one_ring_pairs(rt: &impl Print, edition: u8) -> io::Result<()> {
    let mut both = Both {
        entries: &mut [0; 1190],
        others: &mut [0; 1190],
    };
    both.pair_over_change(rt, 1, edition, 3, 140, 2)?;
    both.pair_over_change(rt, 1, edition, 3, 20, 500)?;
    both.pair_over_made_up(rt, edition, 40)
}

fn one_ring_editions(rt: &impl Print) -> io::Result<()> {
    let mut both = Both {
        entries: &mut [0; 1302],
        others: &mut [0; 1302],
    };
    both.compare_editions(rt, 1, 3, 560)?;
    both.compare_editions(rt, 1, 4, 1190)?;
    both.compare_editions(rt, 1, 5, 1302)?;
    both.compare_editions(rt, 1, 9, 1302)
}

// All in the same buffers, since the stack has room for no more.
fn two_rings(rt: &impl Print) -> io::Result<()> {
    let mut entries = [0u16; 1861860];
    let mut others = [0u16; 1861860];
    let mut both = Both {
        entries: &mut entries,
        others: &mut others,
    };
    both.two_rings(rt)
}

pub fn run(rt: &impl Print) -> io::Result<()> {
    for edition in [1, 2] {
        one_ring(rt, edition)?;
        one_ring_pairs(rt, edition)?;
    }
    one_ring_editions(rt)?;
    two_rings(rt)
}
