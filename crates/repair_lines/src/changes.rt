//! A change in words.

use crate::slips::push_slip;
use explain_parts::say_of_line;
use gcg_read::{Event, Players, Record};
use repair_changes::{Change, Spot, spot_of};
use repair_single::Repair;
use std::alloc::AllocError;

/// Appends where a change is in the file.
fn push_spot(text: &mut Vec<u8>, spot: Spot) -> Result<(), AllocError> {
    match spot {
        Spot::On(line) => say_of_line(text, "line ", line, ": "),
        Spot::Before(line) => say_of_line(text, "before line ", line, ": "),
        Spot::After(line) => say_of_line(text, "after line ", line, ": "),
    }
}

/// Appends a change that is at `spot` in the file: the spot, what should be there, and what is.
///
/// It fails only if memory runs out.
pub(crate) fn push_change_at(
    text: &mut Vec<u8>,
    players: &Players,
    events: &[Event],
    change: &Change,
    right: &[Event],
    spot: Spot,
) -> Result<(), AllocError> {
    push_spot(text, spot)?;
    let place = change.place;
    push_slip(
        text,
        players,
        &change.slip,
        right.get(place),
        events.get(place),
    )
}

/// Appends a change: where it is in the file, what should be there, and what is.
///
/// It fails only if memory runs out.
pub fn push_change(
    text: &mut Vec<u8>,
    players: &Players,
    events: &[Event],
    change: &Change,
    right: &[Event],
) -> Result<(), AllocError> {
    push_change_at(
        text,
        players,
        events,
        change,
        right,
        spot_of(events, change),
    )
}

/// Appends the change of a repair of a record: where it is in the file, what should be there, and what is.
pub(crate) fn push_change_of(
    text: &mut Vec<u8>,
    record: &Record,
    repair: &Repair,
) -> Result<(), AllocError> {
    push_change(
        text,
        &record.players,
        record.events.as_slice(),
        &repair.listed.change,
        repair.right.as_slice(),
    )
}
