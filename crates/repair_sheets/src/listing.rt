//! All slips of a whole sheet that a record may have.
ghost use Rattle.std.specs.Prelude.{◌≡◌, ◌≤◌, ◌++◌, length, IfOk, OnOk};
ghost use Rattle.std.specs.List.{flat_map, range_with_len};
ghost use Rattle.repair_sheets.specs.Listing.{is_event, running_from, running_at, unread_slip, unread_slips, sheet_slips};

use crate::begins::runs_on;
use crate::slips::{RunningSlip, SheetSlip, Way};
use gcg_read::Event;
use gcg_unread::{UnreadLine, UnreadWhy, unread_lines};
use std::alloc::{AllocError, Global};

/// How many lines that are not read are tried.
const MOST_UNREAD: usize = 16;

/// Adds a slip that begins at a place, if it may begin there and goes on.
fn push_from(
    slips: &mut Vec<SheetSlip>,
    events: &[Event],
    place: usize,
    slip: RunningSlip,
) -> Result<(), AllocError>
    requires { place ≤ length events.now }
    ensures { OnOk result (slips.new.items ≡ slips.old.items ++ running_from events.now place slip) }
{
    if runs_on(slip, &events[place..]) {
        slips.push(SheetSlip::Running { place, slip })?;
    }
    Ok(())
}

/// Adds the slips that begin at a place.
#[tactic(auto, unfolding(crate::specs::Listing::running_at))]
fn push_running(
    slips: &mut Vec<SheetSlip>,
    events: &[Event],
    place: usize,
) -> Result<(), AllocError>
    requires { place ≤ length events.now }
    ensures { OnOk result (slips.new.items ≡ slips.old.items ++ running_at events.now place) }
{
    push_from(slips, events, place, RunningSlip::Interchanged)?;
    push_from(slips, events, place, RunningSlip::OneOff(Way::Left))?;
    push_from(slips, events, place, RunningSlip::OneOff(Way::Right))?;
    push_from(slips, events, place, RunningSlip::OneOff(Way::Up))?;
    push_from(slips, events, place, RunningSlip::OneOff(Way::Down))?;
    push_from(slips, events, place, RunningSlip::OtherCase)?;
    push_from(slips, events, place, RunningSlip::CapitalBlanks)?;
    push_from(slips, events, place, RunningSlip::OtherPlayer)
}

/// Whether a line would be an event but for what it begins with.
fn is_event(why: UnreadWhy) -> bool
    ensures { result ≡ is_event why }
{
    match why {
        UnreadWhy::Blank | UnreadWhy::Before | UnreadWhy::OtherSign | UnreadWhy::NoMark => true,
        UnreadWhy::Parts => false,
    }
}

/// Adds that a line that is not read is an event, if it would be one but for what it begins with.
fn push_unread(slips: &mut Vec<SheetSlip>, line: UnreadLine) -> Result<(), AllocError>
    ensures { OnOk result (slips.new.items ≡ slips.old.items ++ unread_slip line) }
{
    if is_event(line.why) {
        slips.push(SheetSlip::Unread(line))?;
    }
    Ok(())
}

/// Adds that lines that are not read are events.
fn push_lines(slips: &mut Vec<SheetSlip>, lines: &[UnreadLine]) -> Result<(), AllocError>
    ensures { OnOk result (slips.new.items ≡ slips.old.items ++ flat_map unread_slip lines.now) }
{
    for line in lines {
        push_unread(slips, *line)?;
    }
    Ok(())
}

/// Those of lines that are not read.
#[tactic(auto, unfolding(crate::specs::Listing::unread_slips))]
fn unread_slips(alloc: Global, text: &[u8]) -> Result<Vec<SheetSlip>, AllocError>
    ensures { IfOk result (λ slips. slips.items ≡ unread_slips text.now) }
{
    let lines = unread_lines(alloc, text)?;
    let many = lines.len().min(MOST_UNREAD);
    let mut slips = Vec::new(alloc);
    push_lines(&mut slips, &lines[..many])?;
    Ok(slips)
}

/// All slips of a whole sheet that a record may have, by its text and its events: that a line is an event that is not read; and at each of the first
/// `places` events each slip that may run through the sheet from there on.
///
/// It fails only if memory runs out.
#[tactic(auto, unfolding(crate::specs::Listing::sheet_slips))]
pub fn sheet_slips(
    alloc: Global,
    text: &[u8],
    events: &[Event],
    places: usize,
) -> Result<Vec<SheetSlip>, AllocError>
    requires { places ≤ length events.now }
    ensures { IfOk result (λ slips. slips.items ≡ sheet_slips text.now events.now places) }
{
    let mut slips = unread_slips(alloc, text)?;
    for place in 0..places {
        push_running(&mut slips, events, place)?;
    }
    Ok(slips)
}
