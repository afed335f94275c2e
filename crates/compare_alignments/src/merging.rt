//! Records made from two sheets.
ghost use Rattle.std.specs.Prelude.{◌≡◌, ◌++◌, ◌∷◌, [], true, false, if◌then◌else◌, IfOk, OnOk};
ghost use Rattle.std.specs.Option.{option_or, option_copied};
ghost use Rattle.compare_alignments.specs.Merging.{line_at, own_side, of_side, rack_of, with_numbers_of, numbered, with_rack, taken, events_of, gives_tiles, fuller_side, side_of, taken_of, merged};

use crate::agreeing::has_amount;
use crate::choices::{chosen_side, count_items, keeper, next_item, next_rack};
use crate::pairs::{Pair, Side};
use gcg_read::{Event, EventKind, Events, Seat, same_seat};
use ref_tiles::Counts;
use std::alloc::{AllocError, Global};

/// Which numbers the events taken from two sheets have.
#[derive(Clone, Copy, Debug, PartialEq, Eq)]
pub enum NumbersOf {
    /// Those of the line that is taken.
    Taken,
    /// Those of one sheet, if it has a line for the event. An amount that no rule gives is that of the line that is taken.
    Sheet(Side),
}

/// Which sheet is a player's own, if the first one belongs to `owner`.
pub fn own_side(owner: Seat, player: Seat) -> Side
    ensures { result ≡ own_side owner player }
{
    if same_seat(owner, player) {
        Side::First
    } else {
        Side::Second
    }
}

/// The one of two lines that is on a sheet.
fn of_side<'a>(side: Side, first: &'a Event, second: &'a Event) -> &'a Event
    ensures { result.now ≡ of_side side first.now second.now }
{
    match side {
        Side::First => first,
        Side::Second => second,
    }
}

/// The rack that one line states, or else that of the other.
fn rack_or(rack: &Option<Counts>, other: &Option<Counts>) -> Option<Counts>
    ensures { result ≡ option_or rack.now other.now }
{
    match rack {
        Some(tiles) => Some(*tiles),
        None => *other,
    }
}

/// The rack of an event taken from two lines.
fn rack_of(owner: Seat, first: &Event, second: &Event, event: &Event) -> Option<Counts>
    ensures { result ≡ rack_of owner first.now second.now event.now }
{
    if !same_seat(first.player, second.player) {
        return event.rack;
    }
    match own_side(owner, event.player) {
        Side::First => rack_or(&first.rack, &second.rack),
        Side::Second => rack_or(&second.rack, &first.rack),
    }
}

/// Gives an event the total of a line, and its score unless that is an amount that no rule gives.
fn renumber(event: &mut Event, line: &Event)
    ensures { event.new ≡ with_numbers_of event.old line.now }
{
    if !has_amount(&event.kind) {
        event.score = line.score;
    }
    event.total = line.total;
}

/// Gives an event taken from two lines the numbers that it should have.
fn number(event: &mut Event, whose: NumbersOf, first: &Event, second: &Event)
    ensures { event.new ≡ numbered whose first.now second.now event.old }
{
    match whose {
        NumbersOf::Taken => {}
        NumbersOf::Sheet(side) => renumber(event, of_side(side, first, second)),
    }
}

/// A copy of the event with this rack.
fn copy_with_rack(event: &Event, rack: &Option<Counts>) -> Event
    ensures { result ≡ with_rack event.now rack.now }
{
    let mut copy = event.copy();
    copy.rack = *rack;
    copy
}

/// The event taken from two lines.
fn taken(owner: Seat, whose: NumbersOf, side: Side, first: &Event, second: &Event) -> Event
    ensures { result ≡ taken owner whose side first.now second.now }
{
    let line = of_side(side, first, second);
    let rack = rack_of(owner, first, second, line);
    let mut event = copy_with_rack(line, &rack);
    number(&mut event, whose, first, second);
    event
}

/// The line at a place, if there is a place.
pub(crate) fn line_at(events: &[Event], place: Option<usize>) -> Option<&Event>
    ensures { option_copied result ≡ line_at events.now place }
{
    match place {
        Some(place) => events.get(place),
        None => None,
    }
}

/// Whether a line states the tiles of an exchange.
fn gives_tiles(line: Option<&Event>) -> bool
    ensures { result ≡ gives_tiles (option_copied line.entry) }
{
    match line {
        Some(event) => match &event.kind {
            EventKind::Exchange(_) => true,
            _ => false,
        },
        None => false,
    }
}

/// Which line says more if both agree.
fn fuller_side(first: Option<&Event>, second: Option<&Event>) -> Side
    ensures { result ≡ fuller_side (option_copied first.entry) (option_copied second.entry) }
{
    if !gives_tiles(first) && gives_tiles(second) {
        Side::Second
    } else {
        Side::First
    }
}

/// Which side is taken for a pair.
pub(crate) fn side_of(
    choice: usize,
    number: usize,
    pair: &Pair,
    first: Option<&Event>,
    second: Option<&Event>,
) -> Side
    ensures { result ≡ side_of choice number pair.now (option_copied first.entry) (option_copied second.entry) }
{
    if pair.agrees {
        fuller_side(first, second)
    } else {
        chosen_side(choice, number)
    }
}

/// Appends a line that only one sheet has, if it is taken.
fn push_alone(events: &mut Events, line: &Event, is_taken: bool) -> Result<(), AllocError>
    ensures { OnOk result (events.new ≡ events.old ++ (if is_taken then (line.now ∷ []) else [])) }
{
    if is_taken {
        events.push(line.copy())?;
    }
    Ok(())
}

/// Appends what is taken from two lines, or from a line without a partner.
fn push_events(
    events: &mut Events,
    owner: Seat,
    whose: NumbersOf,
    side: Side,
    first: Option<&Event>,
    second: Option<&Event>,
) -> Result<(), AllocError>
    ensures { OnOk result (events.new ≡ events.old ++ events_of owner whose side (option_copied first.entry) (option_copied second.entry)) }
{
    match (first, second) {
        (Some(line), Some(other)) => {
            events.push(taken(owner, whose, side, line, other))?;
            Ok(())
        }
        (Some(line), None) => push_alone(events, line, is_first(side)),
        (None, Some(line)) => push_alone(events, line, !is_first(side)),
        (None, None) => Ok(()),
    }
}

/// Whether a side is the first.
fn is_first(side: Side) -> bool
    ensures { result ≡ of_side side true false }
{
    match side {
        Side::First => true,
        Side::Second => false,
    }
}

/// Appends what is taken from a pair, if its lines and its racks have these numbers as items.
fn push_pair(
    events: &mut Events,
    owner: Seat,
    whose: NumbersOf,
    choice: usize,
    number: usize,
    rack: usize,
    first: &[Event],
    second: &[Event],
    pair: &Pair,
) -> Result<(), AllocError>
    ensures { OnOk result (events.new ≡ events.old ++ taken_of owner whose choice number rack first.now second.now pair.now) }
{
    let line = line_at(first, pair.first);
    let other = line_at(second, pair.second);
    let side = side_of(choice, number, pair, line, other);
    let seat = keeper(owner, choice, rack, pair);
    push_events(events, seat, whose, side, line, other)
}

/// The record that a choice makes from two sheets, if the first one belongs to `owner`.
///
/// It fails only if memory runs out.
pub fn merge(
    alloc: Global,
    owner: Seat,
    whose: NumbersOf,
    choice: usize,
    first: &[Event],
    second: &[Event],
    pairs: &[Pair],
) -> Result<Events, AllocError>
    ensures { IfOk result (λ events. events ≡ merged owner whose choice first.now second.now pairs.now) }
{
    let mut events = Events::new(alloc);
    let mut number = 0;
    let items = count_items(pairs);
    let mut rack = items;
    for pair in pairs {
        push_pair(
            &mut events,
            owner,
            whose,
            choice,
            number,
            rack,
            first,
            second,
            pair,
        )?;
        number = next_item(number, pair);
        rack = next_rack(rack, pair);
    }
    Ok(events)
}
