//! Where the choice that goes furthest stops.
ghost use Rattle.std.specs.Prelude.{◌≡◌, IfOk};
ghost use Rattle.compare_answers.specs.Furthest.{IsStopAt};

use crate::places::pair_of;
use compare_choices::{Sheets, Stop};
use std::alloc::{AllocError, Global};

/// The index of the pair from which the event is taken at which the choice that goes furthest stops.
pub(crate) fn stop_at(
    alloc: Global,
    sheets: &Sheets,
    furthest: &Option<Stop>,
) -> Result<Option<usize>, AllocError>
    ensures { IfOk result (IsStopAt sheets.now furthest.now) }
{
    match furthest {
        Some(stop) => pair_of(alloc, sheets, stop.choice, stop.stopped.place),
        None => Ok(None),
    }
}
