//! Applying a change to a record.
ghost use Rattle.std.specs.Prelude.{◌≡◌, ◌+◌, ◌≤◌, ◌++◌, ◌∷◌, [], pos, map, reverse, take, drop, length, IfOk};
ghost use Rattle.repair_changes.specs.Applied.{right_event, missing_player, missing_kind, missing_score, missing_event, wrong_events, lines_there, right_events, applied};

use crate::righting::{play_kind, right_event};
use crate::slips::{Change, MissingLine, Slip};
use gcg_read::{Event, EventKind, Events, Points, Seat};
use std::alloc::{AllocError, Global};

/// The player of a missing line.
fn missing_player(line: &MissingLine) -> Seat
    ensures { result ≡ missing_player line.now }
{
    match line {
        MissingLine::Play { player, .. } => *player,
        MissingLine::Pass(player) => *player,
        MissingLine::Exchange { player, .. } => *player,
        MissingLine::Time { player, .. } => *player,
        MissingLine::Withdrawal(player) => *player,
        MissingLine::Challenge { player, .. } => *player,
        MissingLine::Rest { player, .. } => *player,
    }
}

/// What happened on a missing line.
fn missing_kind(line: &MissingLine) -> EventKind
    ensures { result ≡ missing_kind line.now }
{
    match line {
        MissingLine::Play { play, .. } => play_kind(play),
        MissingLine::Pass(_) => EventKind::Pass,
        MissingLine::Exchange { number, .. } => EventKind::ExchangeUnknown(*number),
        MissingLine::Time { .. } => EventKind::Time,
        MissingLine::Withdrawal(_) => EventKind::Withdraw,
        MissingLine::Challenge { .. } => EventKind::Challenge,
        MissingLine::Rest { tiles, .. } => EventKind::LastRack(*tiles),
    }
}

/// No points.
fn no_points() -> Points
    ensures { result ≡ pos 0 }
{
    Points::new(0).unwrap()
}

/// The score of a missing line, if it is one that the rules do not give.
fn missing_score(line: &MissingLine) -> Points
    ensures { result ≡ missing_score line.now }
{
    match line {
        MissingLine::Time { score, .. } => *score,
        MissingLine::Challenge { score, .. } => *score,
        _ => no_points(),
    }
}

/// The event of a missing line.
fn missing_event(line: &MissingLine) -> Event
    ensures { result ≡ missing_event line.now }
{
    Event {
        line: 0,
        player: missing_player(line),
        rack: None,
        kind: missing_kind(line),
        score: missing_score(line),
        total: no_points(),
    }
}

/// The number of events that a slip concerns, from its place on.
pub fn wrong_events(slip: &Slip) -> usize
    ensures number { result ≡ wrong_events slip.now }
    ensures few { result ≤ 3 }
{
    match slip {
        Slip::Swapped => 2,
        Slip::SwappedOver => 3,
        Slip::Missing(_) => 0,
        _ => 1,
    }
}

/// How many lines come in the place of those that a slip concerns.
pub fn lines_there(slip: &Slip) -> usize
    ensures { result ≡ lines_there slip.now }
{
    match slip {
        Slip::Repeated | Slip::ExtraPass | Slip::Extra => 0,
        Slip::Missing(_) => 1,
        _ => wrong_events(slip),
    }
}

/// The list of one event.
fn only(alloc: Global, event: Event) -> Result<Events, AllocError>
    ensures { IfOk result (λ events. events ≡ event ∷ []) }
{
    let mut events = Events::new(alloc);
    events.push(event)?;
    Ok(events)
}

/// Events in reverse order.
fn reversed(alloc: Global, there: &[Event]) -> Result<Events, AllocError>
    ensures { IfOk result (λ events. events ≡ reverse there.now) }
{
    let mut events = Events::new(alloc);
    for following in 0..there.len() {
        events.push(there[there.len() - 1 - following].copy())?;
    }
    Ok(events)
}

/// Each event without a slip.
fn each_right(alloc: Global, slip: &Slip, there: &[Event]) -> Result<Events, AllocError>
    ensures { IfOk result (λ events. events ≡ map (right_event slip.now) there.now) }
{
    let mut events = Events::new(alloc);
    for event in there {
        events.push(right_event(slip, event))?;
    }
    Ok(events)
}

/// What should be in a record in place of the events that a slip concerns.
///
/// It fails only if memory runs out.
pub fn right_events(alloc: Global, slip: &Slip, there: &[Event]) -> Result<Events, AllocError>
    ensures { IfOk result (λ events. events ≡ right_events slip.now there.now) }
{
    match slip {
        Slip::Repeated | Slip::ExtraPass | Slip::Extra => Ok(Events::new(alloc)),
        Slip::Swapped | Slip::SwappedOver => reversed(alloc, there),
        Slip::Missing(line) => only(alloc, missing_event(line)),
        _ => each_right(alloc, slip, there),
    }
}

/// The same events.
fn copies(alloc: Global, events: &[Event]) -> Result<Events, AllocError>
    ensures { IfOk result (λ same. same ≡ events.now) }
{
    let mut same = Events::new(alloc);
    same.push_copies(events)?;
    Ok(same)
}

/// The events with the given number of them, from a place on, replaced by others.
fn joined(
    alloc: Global,
    events: &[Event],
    place: usize,
    many: usize,
    right: &[Event],
) -> Result<Events, AllocError>
    requires { place + many ≤ length events.now }
    ensures { IfOk result (λ joined. joined ≡ take place events.now ++ right.now ++ drop (place + many) events.now) }
{
    let mut all = Events::new(alloc);
    all.push_copies(&events[..place])?;
    all.push_copies(right)?;
    all.push_copies(&events[place + many..])?;
    Ok(all)
}

/// The events of a record after a change. Those before and after it stay as they are.
///
/// It fails only if memory runs out.
#[tactic(auto, unfolding(crate::specs::Splices::spliced))]
pub fn apply(alloc: Global, change: &Change, events: &[Event]) -> Result<Events, AllocError>
    ensures { IfOk result (λ right. right ≡ applied change.now events.now) }
{
    let place = change.place;
    let many = wrong_events(&change.slip);
    if place > events.len() || many > events.len() - place {
        return copies(alloc, events);
    }
    let right = right_events(alloc, &change.slip, &events[place..place + many])?;
    joined(alloc, events, place, many, right.as_slice())
}
