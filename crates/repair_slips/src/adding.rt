//! Adding one slip to a list.
ghost use Rattle.std.specs.Prelude.{◌≡◌, ◌++◌, ◌∷◌, [], OnOk};

use repair_changes::Slip;
use std::alloc::AllocError;

/// Adds a slip to those that were found.
pub(crate) fn add(slips: &mut Vec<Slip>, slip: Slip) -> Result<(), AllocError>
    ensures { OnOk result (slips.new.items ≡ slips.old.items ++ slip ∷ []) }
{
    slips.push(slip)?;
    Ok(())
}
