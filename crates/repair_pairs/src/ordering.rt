//! The first of some pairs, each record once.
ghost use Rattle.std.specs.Prelude.{◌≡◌, ◌↔◌, ◌≤◌, IsTrue, IfOk, AllPairs};
ghost use Rattle.repair_pairs.specs.Finding.{IsMadeBy, AreFirstOf, IsCheaper};

use crate::found::Pair;
use gcg_read::Event;
use repair_single::makes;
use std::alloc::{AllocError, Global};

/// Whether one of the pairs makes this record.
fn is_made_by(reported: &[Pair], right: &[Event]) -> bool
    ensures { IsTrue result ↔ IsMadeBy reported.now right.now }
{
    for pair in reported {
        if makes(&pair.then, right) {
            return true;
        }
    }
    false
}

/// The first `most` of some pairs, with each record that they make only once.
pub(crate) fn first_pairs(
    alloc: Global,
    found: Vec<Pair>,
    most: usize,
) -> Result<Vec<Pair>, AllocError>
    requires { AllPairs IsCheaper found.items }
    ensures { IfOk result (λ reported. AreFirstOf found.items most reported.items) }
{
    let mut reported: Vec<Pair> = Vec::new(alloc);
    for pair in found {
        if reported.len() == most {
            return Ok(reported);
        }
        if !is_made_by(reported.as_slice(), pair.then.right.as_slice()) {
            reported.push(pair)?;
        }
    }
    Ok(reported)
}
