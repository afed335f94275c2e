//! Where a change is in the file.
ghost use Rattle.std.specs.Prelude.{◌≡◌};
ghost use Rattle.repair_changes.specs.Spots.{line_at, last_line, on_line, before_line, spot_of};

use crate::slips::{Change, Slip};
use gcg_read::Event;

/// Where a change is in the file: on a line, or between two of them. Lines are counted from 1.
#[derive(Clone, Copy, Debug, PartialEq, Eq)]
pub enum Spot {
    /// On this line.
    On(u32),
    /// A line is missing before this one.
    Before(u32),
    /// A line is missing after this one, which is that of the last event.
    After(u32),
}

/// The line of the event at a place; `None` after the last.
fn line_at(events: &[Event], place: usize) -> Option<u32>
    ensures { result ≡ line_at events.now place }
{
    match events.get(place) {
        Some(event) => Some(event.line),
        None => None,
    }
}

/// The line of the last event, or 0 if there is none.
#[tactic(auto, using(crate::proofs::LastLines::last_there, crate::proofs::LastLines::last_none))]
fn last_line(events: &[Event]) -> u32
    ensures { result ≡ last_line events.now }
{
    match events.last() {
        Some(event) => event.line,
        None => 0,
    }
}

/// Where a missing line belongs.
fn before_line(events: &[Event], line: Option<u32>) -> Spot
    ensures { result ≡ before_line events.now line }
{
    match line {
        Some(line) => Spot::Before(line),
        None => Spot::After(last_line(events)),
    }
}

/// Where a change of a line is.
fn on_line(events: &[Event], line: Option<u32>) -> Spot
    ensures { result ≡ on_line events.now line }
{
    match line {
        Some(line) => Spot::On(line),
        None => Spot::After(last_line(events)),
    }
}

/// Where a change is in the file of a record with these events.
pub fn spot_of(events: &[Event], change: &Change) -> Spot
    ensures { result ≡ spot_of events.now change.now }
{
    let line = line_at(events, change.place);
    match &change.slip {
        Slip::Missing(_) => before_line(events, line),
        _ => on_line(events, line),
    }
}
