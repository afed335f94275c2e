//! Lines that are written twice, in the wrong order or under the wrong name, and missing lines.
ghost use Rattle.std.specs.Prelude.{◌≡◌, ◌≤◌, ◌+◌, ◌++◌, ◌∷◌, [], true, length, drop, find, slice_get, IfOk, IfSome, OnOk};
ghost use Rattle.std.specs.Option.{option_copied};
ghost use Rattle.game_turns.specs.Places.{AreAllowedTo};
ghost use Rattle.gcg_read.specs.declared.events.Event.{Event};
ghost use Rattle.explain_facts.specs.Moments.{moment_of};
ghost use Rattle.explain_facts.specs.Facts.{IsTrue};
ghost use Rattle.explain_facts.specs.Orders.{is_of};

use crate::facts::{Fact, OrderFact};
use crate::scenes::Scene;
use game_turns::play_events;
use gcg_read::{Event, Events, Seat, same_seat};
use lex_list::WordList;
use ref_tiles::Rules;
use std::alloc::{AllocError, Global};

// ---- a line that is written twice

/// Whether two events differ only in their lines.
fn says_the_same(event: &Event, other: &Event) -> bool
    ensures { result ≡ true → record event.now { line = other.now.line } ≡ other.now }
{
    same_seat(event.player, other.player) && event.says_the_same(other)
}

/// That the line before says the same.
fn stands_twice(scene: &Scene<'_>) -> Option<Fact>
    ensures { IfSome result (IsTrue (moment_of scene.now)) }
{
    let latest = scene.past.last()?;
    if !says_the_same(latest, scene.event) {
        return None;
    }
    Some(Fact::Order(OrderFact::StandsTwice { line: latest.line }))
}

// ---- the events in another order, or with another player

/// A copy of the event as one of a player.
fn copied_for(event: &Event, player: Seat) -> Event
    ensures { result ≡ record event.now { player = player } }
{
    let mut copy = event.copy();
    copy.player = player;
    copy
}

/// Whether the rules allow the first events.
fn are_allowed(rules: &Rules, list: &WordList, events: &[Event], end: usize) -> bool
    requires { end ≤ length events.now }
    ensures { result ≡ true → AreAllowedTo rules.now list.now events.now end }
{
    play_events(rules, events, list, end).is_ok()
}

/// The events with the next one before this one.
fn other_way(alloc: Global, scene: &Scene<'_>, next: &Event) -> Result<Events, AllocError>
    ensures { IfOk result (λ events. events ≡ scene.now.past.now ++ next.now ∷ scene.now.event.now ∷ drop 1 scene.now.later.now) }
{
    let mut events = Events::new(alloc);
    events.push_copies(scene.past)?;
    events.push(next.copy())?;
    events.push(scene.event.copy())?;
    events.push_copies(scene.later.get(1..).unwrap_or(&[]))?;
    Ok(events)
}

/// That the rules allow the record with this line and the next one interchanged.
fn wrong_way(alloc: Global, scene: &Scene<'_>) -> Result<Option<Fact>, AllocError>
    ensures { IfOk result (λ fact. IfSome fact (IsTrue (moment_of scene.now))) }
{
    let Some(next) = scene.later.first() else {
        return Ok(None);
    };
    let events = other_way(alloc, scene, next)?;
    let end = events.len();
    if !are_allowed(scene.rules, scene.list, events.as_slice(), end) {
        return Ok(None);
    }
    Ok(Some(Fact::Order(OrderFact::WrongWay {
        line: scene.event.line,
        next: next.line,
    })))
}

/// The events with this one as the other player's.
fn as_others(alloc: Global, scene: &Scene<'_>, other: Seat) -> Result<Events, AllocError>
    ensures { IfOk result (λ events. events ≡ scene.now.past.now ++ record scene.now.event.now { player = other } ∷ scene.now.later.now) }
{
    let mut events = Events::new(alloc);
    events.push_copies(scene.past)?;
    events.push(copied_for(scene.event, other))?;
    events.push_copies(scene.later)?;
    Ok(events)
}

/// That the rules allow the event as the other player's.
fn allowed_for(alloc: Global, scene: &Scene<'_>) -> Result<Option<Fact>, AllocError>
    ensures { IfOk result (λ fact. IfSome fact (IsTrue (moment_of scene.now))) }
{
    let other = scene.event.player.other();
    let events = as_others(alloc, scene, other)?;
    if !are_allowed(
        scene.rules,
        scene.list,
        events.as_slice(),
        scene.past.len() + 1,
    ) {
        return Ok(None);
    }
    Ok(Some(Fact::Order(OrderFact::AllowedFor { other })))
}

// ---- a missing line

/// The first event of a player.
fn first_of(events: &[Event], player: Seat) -> Option<&Event>
    ensures { option_copied result ≡ find (is_of player) events.now }
{
    events.iter().find(|event| same_seat(event.player, player))
}

/// That a line of the other player seems to be missing before this one.
fn missing(scene: &Scene<'_>) -> Option<Fact>
    ensures { IfSome result (IsTrue (moment_of scene.now)) }
{
    let player = scene.event.player.other();
    let latest = scene.past.last()?;
    let next = first_of(scene.later, player)?;
    let own = scene
        .machine
        .total(scene.event.player)
        .checked_add(scene.event.score.value())?;
    let had = next.total.value().checked_sub(next.score.value())?;
    let score = had.checked_sub(scene.machine.total(player))?;
    if score < 0 || scene.event.total.value() != own {
        return None;
    }
    Some(Fact::Order(OrderFact::Missing {
        player,
        score,
        before: latest.line,
        after: scene.event.line,
    }))
}

// ---- the whole

/// What may be wrong with a line of a player who is not on turn: it is written twice, it and the next one are interchanged, a line
/// is missing before it, or it is the other player's. The first of these that holds. Another order is named only if the rules allow
/// the record in that order to its end.
pub(crate) fn order_fact(alloc: Global, scene: &Scene<'_>) -> Result<Option<Fact>, AllocError>
    ensures { IfOk result (λ fact. IfSome fact (IsTrue (moment_of scene.now))) }
{
    if let Some(fact) = stands_twice(scene) {
        return Ok(Some(fact));
    }
    if let Some(fact) = wrong_way(alloc, scene)? {
        return Ok(Some(fact));
    }
    if let Some(fact) = missing(scene) {
        return Ok(Some(fact));
    }
    allowed_for(alloc, scene)
}
