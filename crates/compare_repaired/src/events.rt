//! The events of a choice.
ghost use Rattle.std.specs.Prelude.{◌≡◌, IfOk};
ghost use Rattle.compare_alignments.specs.declared.merging.NumbersOf.TheVariants.{Taken};
ghost use Rattle.compare_choices.specs.Choices.{choice_events};

use compare_alignments::{NumbersOf, merge};
use compare_choices::Sheets;
use gcg_read::Events;
use std::alloc::{AllocError, Global};

/// The events of a choice, with the numbers of the lines that are taken.
///
/// It fails only if memory runs out.
pub(crate) fn events_of(alloc: Global, sheets: &Sheets, choice: usize) -> Result<Events, AllocError>
    ensures { IfOk result (λ events. events ≡ choice_events sheets.now Taken choice) }
{
    merge(
        alloc,
        sheets.owner,
        NumbersOf::Taken,
        choice,
        sheets.first.events.as_slice(),
        sheets.second.events.as_slice(),
        sheets.pairs.as_slice(),
    )
}
