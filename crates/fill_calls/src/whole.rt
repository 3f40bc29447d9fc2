// A tablebase filled whole.
ghost use Rattle.answers.specs.Answers.{solved};
ghost use Rattle.fill_calls.specs.Fills.{FillCall};

use answers::Refusal;
use filling::Bounds;

// Fills the tablebase of largest count k under an edition: at each place the plies to the end, or draw. Refusals: 1, 20, 11, 6, 10, 13; after 13
// every entry is void.
pub fn fill(rings: u8, edition: u8, k: u8, limit: u32, tablebase: &mut [u16]) -> Result<(), Refusal>
    ensures { FillCall rings edition k limit tablebase.old tablebase.new (solved result) }
{
    tablebase_refusals::of_fill(rings, edition, k, limit, tablebase.len())?;
    let masks = masks::masks_of(rings as usize);
    let limit = limit as u16;
    match solver::solve_all(
        tablebase,
        &masks,
        Bounds {
            rings: rings as usize,
            edition: edition,
            k: k as usize,
            limit,
        },
    ) {
        Ok(()) => Ok(()),
        Err(_) => Err(Refusal::TooDeep),
    }
}
