//! The events of a record without a slip that runs through its sheet.
ghost use Rattle.std.specs.Prelude.{◌≡◌, ◌≤◌, ◌++◌, map, length, IfOk, OnOk};
ghost use Rattle.std.specs.List.{list_all};
ghost use Rattle.gcg_read.specs.declared.events.Event.{Event};
ghost use Rattle.repair_sheets.specs.Righting.{may_have, right_event};
ghost use Rattle.repair_sheets.specs.Running.{running_without};

use crate::righting::{may_have, right_event};
use crate::slips::RunningSlip;
use gcg_read::{Event, Events};
use std::alloc::{AllocError, Global};

/// Whether each of some events may have a slip.
fn all_may_have(slip: RunningSlip, events: &[Event]) -> bool
    ensures { result ≡ list_all (λ (e : Event). may_have slip e.kind) events.now }
{
    events.iter().all(|event| may_have(slip, &event.kind))
}

/// Appends events without a slip.
fn push_right(events: &mut Events, slip: RunningSlip, more: &[Event]) -> Result<(), AllocError>
    ensures { OnOk result (events.new ≡ events.old ++ map (right_event slip) more.now) }
{
    for event in more {
        events.push(right_event(slip, event))?;
    }
    Ok(())
}

/// Events, and further ones without a slip.
fn joined(
    alloc: Global,
    slip: RunningSlip,
    before: &[Event],
    there: &[Event],
) -> Result<Events, AllocError>
    ensures { IfOk result (λ events. events ≡ before.now ++ map (right_event slip) there.now) }
{
    let mut events = Events::new(alloc);
    events.push_copies(before)?;
    push_right(&mut events, slip, there)?;
    Ok(events)
}

/// The events of a record without a slip that is on each line from the one at a place on; `None` if it cannot be on each of these lines.
///
/// It fails only if memory runs out.
#[tactic(auto, unfolding(crate::specs::Running::running_without))]
pub(crate) fn running_without(
    alloc: Global,
    slip: RunningSlip,
    place: usize,
    events: &[Event],
) -> Result<Option<Events>, AllocError>
    ensures { IfOk result (λ right. right ≡ running_without slip place events.now) }
{
    let place = place.min(events.len());
    let there = &events[place..];
    if !all_may_have(slip, there) {
        return Ok(None);
    }
    let right = joined(alloc, slip, &events[..place], there)?;
    Ok(Some(right))
}
