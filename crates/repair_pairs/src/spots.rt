//! Where a change is in the file that is made after others.
ghost use Rattle.std.specs.Prelude.{◌≡◌, drop};
ghost use Rattle.std.specs.List.{find};
ghost use Rattle.std.specs.Option.{option_copied};
ghost use Rattle.repair_pairs.specs.Spots.{before_or_on, end_line, is_in_file, later_spot, next_line};

use gcg_read::Event;
use repair_changes::{Change, Slip, Spot};

/// The events from a place on.
fn events_from(events: &[Event], place: usize) -> &[Event]
    ensures { result.now ≡ drop place events.now }
{
    if place < events.len() {
        &events[place..]
    } else {
        &[]
    }
}

/// The first event in the file.
fn first_in_file(events: &[Event]) -> Option<&Event>
    ensures { option_copied result ≡ find is_in_file events.now }
{
    events.iter().find(|event| event.line != 0)
}

/// The line of the first event in the file at a place or after it.
fn next_line(events: &[Event], place: usize) -> Option<u32>
    ensures { result ≡ next_line events.now place }
{
    match first_in_file(events_from(events, place)) {
        Some(event) => Some(event.line),
        None => None,
    }
}

/// The line of the last event in the file, or 0 if there is none.
fn end_line(events: &[Event]) -> u32
    ensures { result ≡ end_line events.now }
{
    let mut last = 0;
    for event in events {
        if event.line != 0 {
            last = event.line;
        }
    }
    last
}

/// Before a line if a line is missing there, and otherwise on it.
fn before_or_on(slip: &Slip, line: u32) -> Spot
    ensures { result ≡ before_or_on slip.now line }
{
    match slip {
        Slip::Missing(_) => Spot::Before(line),
        _ => Spot::On(line),
    }
}

/// Where a change is in the file, by the events that the changes before it make. A line that one of them added is not in the file.
pub fn later_spot(made: &[Event], change: &Change) -> Spot
    ensures { result ≡ later_spot made.now change.now }
{
    match next_line(made, change.place) {
        Some(line) => before_or_on(&change.slip, line),
        None => Spot::After(end_line(made)),
    }
}
