//! Where the events of a choice come from.
ghost use Rattle.std.specs.Prelude.{◌≡◌, ◌↔◌, ◌<◌, ◌≤◌, length, IsTrue, IfOk};
ghost use Rattle.compare_answers.specs.Places.{place_of, IsPairAt, IsPairOf};

use compare_alignments::{NumbersOf, merge};
use compare_choices::Sheets;
use std::alloc::{AllocError, Global};

/// The place of the event of the pair at an index, among those of a choice: how many events the choice takes from the pairs before it.
#[tactic(auto, unfolding(crate::specs::Places::place_of))]
pub(crate) fn place_of(
    alloc: Global,
    sheets: &Sheets,
    choice: usize,
    index: usize,
) -> Result<usize, AllocError>
    requires { index ≤ length sheets.now.pairs.items }
    ensures { IfOk result (λ place. place ≡ place_of sheets.now choice index) }
{
    let pairs = sheets.pairs.as_slice();
    let events = merge(
        alloc,
        sheets.owner,
        NumbersOf::Taken,
        choice,
        sheets.first.events.as_slice(),
        sheets.second.events.as_slice(),
        &pairs[..index],
    )?;
    Ok(events.len())
}

/// Whether the event at a place of a choice is that of the pair at an index.
fn is_pair_at(
    alloc: Global,
    sheets: &Sheets,
    choice: usize,
    place: usize,
    index: usize,
) -> Result<bool, AllocError>
    requires { index < length sheets.now.pairs.items }
    ensures { IfOk result (λ is. IsTrue is ↔ IsPairAt sheets.now choice place index) }
{
    let before = place_of(alloc, sheets, choice, index)?;
    let following = place_of(alloc, sheets, choice, index + 1)?;
    Ok(before == place && place < following)
}

/// The index of the pair whose event is at a place of a choice, if there is one.
pub(crate) fn pair_of(
    alloc: Global,
    sheets: &Sheets,
    choice: usize,
    place: usize,
) -> Result<Option<usize>, AllocError>
    ensures { IfOk result (IsPairOf sheets.now choice place) }
{
    for index in 0..sheets.pairs.len() {
        if is_pair_at(alloc, sheets, choice, place, index)? {
            return Ok(Some(index));
        }
    }
    Ok(None)
}
