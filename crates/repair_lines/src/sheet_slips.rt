//! A slip of the whole sheet in words.

use crate::words::push_position;
use explain_parts::say_of_line;
use gcg_read::Event;
use gcg_unread::{UnreadLine, UnreadWhy};
use ref_board::{Dir, Square};
use repair_sheets::{RunningSlip, SheetSlip, Way, changes};
use std::alloc::AllocError;

/// Appends what is wrong with a line that is not read.
fn push_unread(text: &mut Vec<u8>, line: UnreadLine) -> Result<(), AllocError> {
    let what = match line.why {
        UnreadWhy::Blank => ": a blank is before its >",
        UnreadWhy::Before => ": something is before its >",
        UnreadWhy::OtherSign => ": another sign is in place of its >",
        UnreadWhy::NoMark | UnreadWhy::Parts => ": > is missing",
    };
    say_of_line(text, "line ", line.line, what)
}

/// Appends that the place of the play is missing on the line with this number.
fn push_no_place(text: &mut Vec<u8>, number: u32, at: Square, dir: Dir) -> Result<(), AllocError> {
    say_of_line(text, "line ", number, ": the place is missing: ")?;
    push_position(text, at, dir)
}

/// Appends in what a slip differs from another one of the same line: the place, or that the `>` should not be there.
///
/// It fails only if memory runs out.
pub(crate) fn push_slip_difference(text: &mut Vec<u8>, slip: &SheetSlip) -> Result<(), AllocError> {
    match slip {
        SheetSlip::NoPlace { at, dir, .. } => push_position(text, *at, *dir),
        SheetSlip::ExtraMark { .. } => text.extend_from_slice(b"without its >"),
        SheetSlip::Unread(_) | SheetSlip::Running { .. } => Ok(()),
    }
}

/// What a slip is about that runs through the sheet.
fn about(slip: RunningSlip) -> &'static str {
    match slip {
        RunningSlip::Interchanged | RunningSlip::OneOff(_) => "all places",
        RunningSlip::OtherCase => "all words",
        RunningSlip::CapitalBlanks => "all blanks",
        RunningSlip::OtherPlayer => "all lines",
    }
}

/// How far a place is off, if the right one is there, seen from it.
fn off(way: Way) -> &'static str {
    match way {
        Way::Left => " are one column too far right",
        Way::Right => " are one column too far left",
        Way::Up => " are one row too far down",
        Way::Down => " are one row too far up",
    }
}

/// What is wrong with that.
fn wrong(slip: RunningSlip) -> &'static str {
    match slip {
        RunningSlip::Interchanged => " have row and column interchanged",
        RunningSlip::OneOff(way) => off(way),
        RunningSlip::OtherCase => " have small letters and capitals interchanged",
        RunningSlip::CapitalBlanks => " are written as capitals",
        RunningSlip::OtherPlayer => " have the name of the other player",
    }
}

/// Whether a slip changes no line before a place.
fn is_from_start(events: &[Event], place: usize, slip: RunningSlip) -> bool {
    for (number, event) in events.iter().enumerate() {
        if number < place && changes(slip, &event.kind) {
            return false;
        }
    }
    true
}

/// Appends from which line on a slip is on each line, unless it is on all.
fn push_from(
    text: &mut Vec<u8>,
    events: &[Event],
    place: usize,
    slip: RunningSlip,
) -> Result<(), AllocError> {
    if is_from_start(events, place, slip) {
        return Ok(());
    }
    match events.get(place) {
        Some(event) => say_of_line(text, " from line ", event.line, " on"),
        None => Ok(()),
    }
}

/// Appends a slip of the whole sheet of a record with these events.
///
/// It fails only if memory runs out.
pub(crate) fn push_sheet_slip(
    text: &mut Vec<u8>,
    events: &[Event],
    slip: &SheetSlip,
) -> Result<(), AllocError> {
    match slip {
        SheetSlip::Unread(line) => push_unread(text, *line),
        SheetSlip::ExtraMark { number } => {
            say_of_line(text, "line ", *number, ": > should not be there")
        }
        SheetSlip::NoPlace { number, at, dir } => push_no_place(text, *number, *at, *dir),
        SheetSlip::Running { place, slip } => {
            text.extend_from_slice(about(*slip).as_bytes())?;
            push_from(text, events, *place, *slip)?;
            text.extend_from_slice(wrong(*slip).as_bytes())
        }
    }
}
