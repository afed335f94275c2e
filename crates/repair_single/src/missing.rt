//! The line that is missing, if the change is such a line.
ghost use Rattle.std.specs.Prelude.{◌≡◌, ◌↔◌, Some, IsTrue};
ghost use Rattle.repair_single.specs.Sums.{missing_place};

use repair_changes::{Change, Slip};

/// The place of the line that is missing, if the change is such a line.
pub(crate) fn missing_place(change: &Change) -> Option<usize>
    ensures { result ≡ missing_place change.now }
{
    match &change.slip {
        Slip::Missing(_) => Some(change.place),
        _ => None,
    }
}

/// Whether the line at a place is the missing one.
pub(crate) fn is_missing_at(missing: Option<usize>, place: usize) -> bool
    ensures { IsTrue result ↔ (missing ≡ Some place) }
{
    match missing {
        Some(missing) => missing == place,
        None => false,
    }
}
