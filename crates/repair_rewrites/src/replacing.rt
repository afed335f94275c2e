//! Lines of a sheet, each ended by an LF.
ghost use Rattle.std.specs.Prelude.{◌≡◌, ◌+◌, ◌==◌, ◌++◌, slice_get, OnOk, Some};
ghost use Rattle.std.specs.Option.{option_copied};
ghost use Rattle.gcg_write.specs.Normal.{text_of_lines};
ghost use Rattle.repair_rewrites.specs.EventLines.{texts};
ghost use Rattle.repair_rewrites.specs.Replacing.{return_of, new_line, numbered, old_line, other_of, is_missing};

use gcg_numbers::push_line_with;
use gcg_read::{Event, Players};
use gcg_write::line_text;
use repair_changes::Slip;
use std::alloc::AllocError;

/// Appends the CR of a line, if it ends in one.
pub(crate) fn push_return(out: &mut Vec<u8>, line: &[u8]) -> Result<(), AllocError>
    ensures { OnOk result (out.new.items ≡ out.old.items ++ return_of line.now) }
{
    if line.ends_with(b"\r") {
        out.push(b'\r')?;
    }
    Ok(())
}

/// Appends the line of an event, with the line end of the line next to it; nothing if there is no event.
pub(crate) fn push_new(
    out: &mut Vec<u8>,
    players: &Players,
    event: Option<&Event>,
    beside: &[u8],
) -> Result<(), AllocError>
    ensures { OnOk result (out.new.items ≡ out.old.items ++ text_of_lines (new_line players.now (option_copied event.entry) beside.now)) }
{
    let Some(event) = event else {
        return Ok(());
    };
    line_text(players, event, out)?;
    push_return(out, beside)?;
    out.push(b'\n')?;
    Ok(())
}

/// Appends a line with the numbers of its event, if there is one.
fn push_numbered(out: &mut Vec<u8>, line: &[u8], event: Option<&Event>) -> Result<(), AllocError>
    ensures { OnOk result (out.new.items ≡ out.old.items ++ numbered line.now (option_copied event.entry)) }
{
    match event {
        Some(event) => push_line_with(out, line, event),
        None => out.extend_from_slice(line),
    }
}

/// Appends a line of the sheet, with the numbers of its event.
pub(crate) fn push_old(
    out: &mut Vec<u8>,
    line: &[u8],
    event: Option<&Event>,
) -> Result<(), AllocError>
    ensures { OnOk result (out.new.items ≡ out.old.items ++ text_of_lines (old_line (Some line.now) (option_copied event.entry))) }
{
    push_numbered(out, line, event)?;
    out.push(b'\n')?;
    Ok(())
}

/// Appends a line of the sheet, if there is one.
pub(crate) fn push_there(
    out: &mut Vec<u8>,
    line: Option<&[u8]>,
    event: Option<&Event>,
) -> Result<(), AllocError>
    ensures { OnOk result (out.new.items ≡ out.old.items ++ text_of_lines (old_line (option_copied line.entry) (option_copied event.entry))) }
{
    match line {
        Some(line) => push_old(out, line, event),
        None => Ok(()),
    }
}

/// The right event at a place, if there is one.
#[tactic(auto, using(crate::proofs::Places::copied_get))]
pub(crate) fn event_at(right: &[Event], place: usize) -> Option<&Event>
    ensures { option_copied result ≡ slice_get right.now place }
{
    right.get(place)
}

/// The event line with a number, if there is one.
#[tactic(auto, using(crate::proofs::Places::line_there, crate::proofs::Places::past_all))]
fn line_at<'t>(lines: &[&'t [u8]], number: usize) -> Option<&'t [u8]>
    ensures { option_copied result ≡ slice_get (texts lines.now) number }
{
    match lines.get(number) {
        Some(line) => Some(*line),
        None => None,
    }
}

/// The event line `over` lines after one, if there is one.
#[tactic(auto, using(crate::proofs::Places::past_all))]
fn line_after<'t>(lines: &[&'t [u8]], number: usize, over: usize) -> Option<&'t [u8]>
    ensures { option_copied result ≡ slice_get (texts lines.now) (number + over) }
{
    if over >= lines.len() || number >= lines.len() - over {
        return None;
    }
    line_at(lines, number + over)
}

/// Whether a line is `over` lines after the one at a place.
fn is_second(place: usize, over: usize, number: usize) -> bool
    ensures { result ≡ (number == place + over) }
{
    number >= over && number - over == place
}

/// The event line in the place of one, if that at a place and another one after it are in each other's place.
pub(crate) fn other_line<'t>(
    lines: &[&'t [u8]],
    place: usize,
    over: usize,
    number: usize,
) -> Option<&'t [u8]>
    ensures { option_copied result ≡ slice_get (texts lines.now) (other_of place over number) }
{
    if number == place {
        return line_after(lines, number, over);
    }
    if is_second(place, over, number) {
        return line_at(lines, place);
    }
    line_at(lines, number)
}

/// Whether a line is missing.
pub(crate) fn is_missing(slip: &Slip) -> bool
    ensures { result ≡ is_missing slip.now }
{
    match slip {
        Slip::Missing(_) => true,
        _ => false,
    }
}
