//! Where a slip that runs through a sheet may begin.
ghost use Rattle.std.specs.Prelude.{◌≡◌};
ghost use Rattle.std.specs.List.{count_by};
ghost use Rattle.repair_sheets.specs.Listing.{is_turn, may_begin, fewest_others, runs_on};

use crate::blanks::has_capital;
use crate::righting::is_play;
use crate::slips::RunningSlip;
use gcg_read::{Event, EventKind};

/// Whether an event is a play, a pass or an exchange.
fn is_turn(kind: &EventKind) -> bool
    ensures { result ≡ is_turn kind.now }
{
    match kind {
        EventKind::Play { .. }
        | EventKind::Pass
        | EventKind::Exchange(_)
        | EventKind::ExchangeUnknown(_) => true,
        EventKind::Withdraw | EventKind::Challenge | EventKind::Time | EventKind::LastRack(_) =>
            false,
    }
}

/// Whether a slip may begin on the line of an event.
fn may_begin(slip: RunningSlip, event: &Event) -> bool
    ensures { result ≡ may_begin slip event.now }
{
    match slip {
        RunningSlip::OtherPlayer => is_turn(&event.kind),
        RunningSlip::CapitalBlanks => has_capital(&event.rack, &event.kind),
        _ => is_play(&event.kind),
    }
}

/// On the lines of how many of these events a slip may begin.
fn count_may_begin(slip: RunningSlip, events: &[Event]) -> usize
    ensures { result ≡ count_by (may_begin slip) events.now }
{
    events.iter().filter(|event| may_begin(slip, event)).count()
}

/// On how many other lines at least a slip may begin with which it goes on.
fn fewest_others(slip: RunningSlip) -> usize
    ensures { result ≡ fewest_others slip }
{
    match slip {
        RunningSlip::CapitalBlanks => 1,
        _ => 2,
    }
}

/// Whether a slip may begin with the first of these events, and goes on.
pub(crate) fn runs_on(slip: RunningSlip, events: &[Event]) -> bool
    ensures { result ≡ runs_on slip events.now }
{
    match events {
        [] => false,
        [first, rest @ ..] => {
            may_begin(slip, first) && count_may_begin(slip, rest) >= fewest_others(slip)
        }
    }
}
