// A tablebase checked, whoever made it.
#![tactic(auto)]

ghost use Rattle.std.specs.Prelude.{◌≡◌};
ghost use Rattle.answers.specs.Answers.{checked};
ghost use Rattle.check_calls.specs.CheckCall.{check_call};

use answers::Refusal;
use checking::Kind;

// The first index at which the entry of a tablebase of largest count k is not right by its successors under an edition, counted in the tablebase;
// `None` where every entry is right. Refusals: 1, 20, 11, 6.
pub fn check(rings: u8, edition: u8, k: u8, tablebase: &[u16]) -> Result<Option<u64>, Refusal>
    ensures { checked result ≡ check_call rings edition k tablebase.now }
{
    tablebase_refusals::of_check(rings, edition, k, tablebase.len())?;
    let masks = masks::masks_of(rings as usize);
    match checking::check_all(
        tablebase,
        &masks,
        Kind {
            rings: rings as usize,
            edition: edition,
            k: k as usize,
        },
    ) {
        Ok(_) => Ok(None),
        Err(index) => Ok(Some(index as u64)),
    }
}
