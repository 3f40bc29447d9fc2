// A pair of tables filled over the entries of its lower tables.
ghost use Rattle.answers.specs.Answers.{solved};
ghost use Rattle.fill_calls.specs.Fills.{FillPairCall};

use answers::Refusal;
use filling::Bounds;
use solver::Counts;

// Fills the tables of two counts, either way round, over the entries of their lower tables, under an edition. Refusals: 1, 20, 4, 11, 6, 10, 12, 13;
// after 13 every entry of the two tables is void.
pub fn fill_pair(
    rings: u8,
    edition: u8,
    mover: u8,
    opponent: u8,
    k: u8,
    limit: u32,
    tablebase: &mut [u16],
) -> Result<(), Refusal>
    ensures { FillPairCall rings edition mover opponent k limit tablebase.old tablebase.new (solved result) }
{
    tablebase_refusals::of_pair(rings, edition, mover, opponent, k, limit, tablebase.len())?;
    let m = mover as usize;
    let o = opponent as usize;
    if given::lower_void(tablebase, rings as usize, k as usize, m, o) {
        return Err(Refusal::VoidRead);
    }
    let masks = masks::masks_of(rings as usize);
    let limit = limit as u16;
    match given::solve_given(
        tablebase,
        &masks,
        Bounds {
            rings: rings as usize,
            edition: edition,
            k: k as usize,
            limit,
        },
        Counts {
            mover: m,
            opponent: o,
        },
    ) {
        Ok(()) => Ok(()),
        Err(_) => Err(Refusal::TooDeep),
    }
}
