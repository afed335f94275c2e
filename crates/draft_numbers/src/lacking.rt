//! What the lines of a draft lack after a change.
ghost use Rattle.std.specs.Prelude.{◌≡◌, ◌+◌, ◌≤◌, ◌++◌, ◌∷◌, [], reverse, take, drop, length, IfOk};
ghost use Rattle.repair_changes.specs.Applied.{wrong_events};
ghost use Rattle.gcg_drafts.specs.declared.missing.Missing.TheVariants as missing;
ghost use Rattle.draft_numbers.specs.Lacks.{right_lacks, lacks_with};

use gcg_drafts::Missing;
use repair_changes::{Change, Slip, wrong_events};
use std::alloc::{AllocError, Global};

/// What the lines lack that a missing line is: both numbers.
fn both(alloc: Global) -> Result<Vec<Missing>, AllocError>
    ensures { IfOk result (λ lacks. lacks.items ≡ missing.Both ∷ []) }
{
    let mut lacks = Vec::new(alloc);
    lacks.push(Missing::Both)?;
    Ok(lacks)
}

/// These in reverse order.
fn reversed(alloc: Global, there: &[Missing]) -> Result<Vec<Missing>, AllocError>
    ensures { IfOk result (λ lacks. lacks.items ≡ reverse there.now) }
{
    let mut lacks = Vec::new(alloc);
    for following in 0..there.len() {
        lacks.push(there[there.len() - 1 - following])?;
    }
    Ok(lacks)
}

/// What the lines lack that should be in place of those that a slip concerns.
fn right_lacks(alloc: Global, slip: &Slip, there: &[Missing]) -> Result<Vec<Missing>, AllocError>
    ensures { IfOk result (λ lacks. lacks.items ≡ right_lacks slip.now there.now) }
{
    match slip {
        Slip::Repeated | Slip::ExtraPass | Slip::Extra => Ok(Vec::new(alloc)),
        Slip::Swapped | Slip::SwappedOver => reversed(alloc, there),
        Slip::Missing(_) => both(alloc),
        _ => Vec::from_slice(alloc, there),
    }
}

/// What some lines lack, with the given number of them, from a place on, replaced by others.
fn joined(
    alloc: Global,
    lacks: &[Missing],
    place: usize,
    many: usize,
    right: &[Missing],
) -> Result<Vec<Missing>, AllocError>
    requires { place + many ≤ length lacks.now }
    ensures { IfOk result (λ joined. joined.items ≡ take place lacks.now ++ right.now ++ drop (place + many) lacks.now) }
{
    let mut all = Vec::from_slice(alloc, &lacks[..place])?;
    all.extend_from_slice(right)?;
    all.extend_from_slice(&lacks[place + many..])?;
    Ok(all)
}

/// What the lines of a draft lack after a change. Those before and after it lack what they lacked.
///
/// It fails only if memory runs out.
#[tactic(auto, unfolding(repair_changes::specs::Splices::spliced))]
pub fn lacks_with(
    alloc: Global,
    change: &Change,
    lacks: &[Missing],
) -> Result<Vec<Missing>, AllocError>
    ensures { IfOk result (λ right. right.items ≡ lacks_with change.now lacks.now) }
{
    let place = change.place;
    let many = wrong_events(&change.slip);
    if place > lacks.len() || many > lacks.len() - place {
        return Vec::from_slice(alloc, lacks);
    }
    let right = right_lacks(alloc, &change.slip, &lacks[place..place + many])?;
    joined(alloc, lacks, place, many, right.as_slice())
}
