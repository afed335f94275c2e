//! The walk over the events of a record.
ghost use Rattle.std.specs.Prelude.{◌≡◌, length, IfOk, OnOk};
ghost use Rattle.std.specs.List.{list_all};
ghost use Rattle.lex_list.specs.Words.{is_listed};
ghost use Rattle.game_turns.specs.LatestEvents.{standing_words};
ghost use Rattle.game_turns.specs.Machines.{rules_of, state_of};
ghost use Rattle.game_corrections.specs.Corrections.{KeepPoints};
ghost use Rattle.game_walk.specs.Numbers.{numbers_in};
ghost use Rattle.game_walk.specs.Walks.{IsWalk, IsWalkOf};

use crate::numbers::{Numbers, numbers_in, numbers_of, renumber};
use crate::refusals::{Refusal, Stop, first_refusal};
use crate::rows::Row;
use crate::taking::take_right;
use game_turns::{Machine, RuleFault, all_listed, law_of_tallies};
use gcg_read::{Event, Events};
use lex_list::WordList;
use ref_tiles::Rules;
use std::alloc::{AllocError, Global};

/// What a walk over a record found.
#[derive(Drop)]
pub struct Walk {
    /// The game before the first event.
    pub start: Machine,
    /// What each event did, up to the end of the correction.
    pub rows: Vec<Row>,
    /// The first event that is refused as it is written.
    pub refused: Option<Refusal>,
    /// Where the correction stops, if it does.
    pub stopped: Option<Stop>,
}

impl Walk {
    ghost use Rattle.std.specs.Prelude.{◌<◌, ◌≤◌, List, ℕ, IfNone, IfSome};
    ghost use Rattle.ref_tiles.specs.declared.rulebook.Rules.{Rules};
    ghost use Rattle.gcg_read.specs.declared.events.Event.{Event};
    ghost use Rattle.game_turns.specs.Tallies.{tally_at};
    ghost use Rattle.game_walk.specs.Refusals.{refusal_of};
    ghost use Rattle.game_walk.specs.Walks.{GoesThrough};

    /// The game before the event at a place, counted from 0, or after the last row; none after that.
    pub fn before(&self, place: usize) -> Option<&Machine>
        ensures game { (rules : Rules) (list : List (List ℕ)) (written right : List Event) → IsWalk rules list written right self.now
            → IfSome result (λ machine. state_of machine.now ≡ tally_at rules right place) }
        ensures there { IfSome result (λ machine. place ≤ length self.now.rows.items) }
        ensures none { IfNone result (length self.now.rows.items < place) }
    {
        if place == 0 {
            return Some(&self.start);
        }
        match self.rows.as_slice().get(place - 1) {
            Some(row) => Some(&row.following),
            None => None,
        }
    }

    /// The game after the last row, or at its start if there is no row.
    pub fn end(&self) -> &Machine
        ensures { (rules : Rules) (list : List (List ℕ)) (events : List Event) → GoesThrough rules list events self.now
            → state_of result.now ≡ tally_at rules events (length events) }
    {
        let rows = self.rows.as_slice();
        let many = rows.len();
        if many == 0 {
            return &self.start;
        }
        &rows[many - 1].following
    }

    /// The event that is refused even with its right numbers: the one at which the correction stops.
    pub fn refused_for_good(&self) -> Option<Refusal>
        ensures { result ≡ refusal_of self.now.stopped }
    {
        match &self.stopped {
            Some(stop) => Some(stop.refusal),
            None => None,
        }
    }
}

/// The row of an event that was taken, given its numbers as they are written.
fn row_of(own: &Numbers, event: &Event, machine: &Machine, list: &WordList) -> Row
    ensures written { result.written ≡ own.now }
    ensures right { result.right ≡ numbers_in event.now }
    ensures rules { rules_of result.following ≡ rules_of machine.now }
    ensures state { state_of result.following ≡ state_of machine.now }
    ensures listed { result.listed ≡ list_all (is_listed list.now) (standing_words (state_of machine.now).latest) }
{
    Row {
        written: *own,
        right: numbers_in(event),
        following: machine.copy(),
        listed: all_listed(list, machine.standing_words()),
    }
}

/// Where a correction stops.
fn stop_at(event: &Event, why: RuleFault) -> Stop
    ensures line { result.refusal.line ≡ event.now.line }
    ensures why { result.refusal.why ≡ why }
    ensures numbers { result.numbers ≡ numbers_in event.now }
{
    Stop {
        refusal: Refusal {
            line: event.line,
            why,
        },
        numbers: numbers_in(event),
    }
}

/// Takes the events one by one, and gives each the score and the total that the rules give, up to the first event that is refused
/// whatever its numbers are; from there on the events stay as they were.
///
/// It fails only if memory runs out.
///
/// If it stops, no sheet with these events is allowed.
pub fn walk_and_correct(
    alloc: Global,
    rules: &Rules,
    list: &WordList,
    events: &mut Events,
) -> Result<Walk, AllocError>
    ensures walk { IfOk result (IsWalk rules.now list.now events.old events.new) }
    ensures points { KeepPoints events.old events.new }
{
    law_of_tallies();
    let mut machine = Machine::new(rules);
    let start = machine.copy();
    let mut rows = Vec::new(alloc);
    let mut refused = None;
    for place in 0..events.len() {
        let own = numbers_in(&events.as_slice()[place]);
        let taken = take_right(&mut machine, events, place, list);
        let event = &events.as_slice()[place];
        refused = first_refusal(refused, event.line, taken.as_written);
        if let Some(why) = taken.remaining {
            return Ok(Walk {
                start,
                rows,
                refused,
                stopped: Some(stop_at(event, why)),
            });
        }
        rows.push(row_of(&own, event, &machine, list))?;
    }
    Ok(Walk {
        start,
        rows,
        refused,
        stopped: None,
    })
}

/// The same walk; afterwards the events are as they are written.
///
/// It fails only if memory runs out.
pub fn walk_as_written(
    alloc: Global,
    rules: &Rules,
    list: &WordList,
    events: &mut Events,
) -> Result<Walk, AllocError>
    ensures walk { IfOk result (IsWalkOf rules.now list.now events.old) }
    ensures same { OnOk result (events.new ≡ events.old) }
{
    let written = numbers_of(alloc, events.as_slice())?;
    let walk = walk_and_correct(alloc, rules, list, events)?;
    renumber(events, written.as_slice());
    Ok(walk)
}
