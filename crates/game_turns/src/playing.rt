//! Goes through the events of a record, to its end or to the first refusal.
ghost use Rattle.std.specs.Prelude.{◌≡◌, ◌↔◌, ◌+◌, ◌<◌, ◌≤◌, length, slice_get, IsOk, IfOk, OnOk, IfErr};
ghost use Rattle.std.specs.Option.{option_copied};
ghost use Rattle.game_turns.specs.Tallies.{tally_at};
ghost use Rattle.game_turns.specs.Places.{AreAllowed, AreAllowedTo, IsFirstRefusal, IsRefusedBefore};
ghost use Rattle.game_turns.specs.Machines.{state_of};
ghost use Rattle.game_turns.specs.Passing.{rules_in, record_in, list_in};

use crate::faults::RuleFault;
use crate::laws::law_of_tallies;
use crate::machine::Machine;
use crate::passed::Passed;
use gcg_read::{Event, Record};
use lex_list::WordList;
use ref_board::Board;
use ref_tiles::Rules;

/// The refusal of an event: its line, and the first check that fails.
fn refusal_of(event: &Event, fault: RuleFault) -> (u32, RuleFault)
    ensures line { result.0 ≡ event.now.line }
    ensures fault { result.1 ≡ fault }
{
    (event.line, fault)
}

/// The event after a place of a record, if there is one.
#[tactic(auto, using(crate::proofs::PlaceLaws::copied_get))]
pub(crate) fn event_after(events: &[Event], place: usize) -> Option<&Event>
    requires { place < length events.now }
    ensures { option_copied result ≡ slice_get events.now (place + 1) }
{
    events.get(place + 1)
}

/// The machine after the events before a place of a record, counted from 0: the game as it is there.
///
/// # Errors
///
/// The first event before the place that the rules do not allow, and the first check that fails there. The events at the place and
/// after it are not judged.
pub fn play_events(
    rules: &Rules,
    events: &[Event],
    list: &WordList,
    end: usize,
) -> Result<Machine, (u32, RuleFault)>
    requires { end ≤ length events.now }
    ensures state { IfOk result (λ machine. state_of machine ≡ tally_at rules.now events.now end) }
    ensures allowed { OnOk result (AreAllowedTo rules.now list.now events.now end) }
    ensures refused { IfErr result (λ r. IsRefusedBefore rules.now list.now events.now end r.0 r.1) }
{
    law_of_tallies();
    let mut machine = Machine::new(rules);
    for place in 0..end {
        let event = &events[place];
        if let Err(fault) = machine.step(event, event_after(events, place), list) {
            return Err(refusal_of(event, fault));
        }
    }
    Ok(machine)
}

/// The board before a place of a record, counted from 0, or after its last event: the tiles of the plays that stand, and those of
/// the play before the place if it awaits its withdrawal.
///
/// # Errors
///
/// The first event before the place that the rules do not allow, and the first check that fails there. The events at the place and
/// after it are not judged.
pub fn board_before(
    rules: &Rules,
    events: &[Event],
    list: &WordList,
    place: usize,
) -> Result<Board, (u32, RuleFault)>
    requires { place ≤ length events.now }
    ensures board { IfOk result (λ board. board ≡ (tally_at rules.now events.now place).board) }
    ensures allowed { OnOk result (AreAllowedTo rules.now list.now events.now place) }
    ensures refused { IfErr result (λ r. IsRefusedBefore rules.now list.now events.now place r.0 r.1) }
{
    let machine = play_events(rules, events, list, place)?;
    Ok(*machine.board())
}

/// Judges the events of a record in order, by rules and a word list.
///
/// If the rules allow every event, the record has passed; otherwise the answer is the line of the first event that they do not
/// allow, and the first check that fails there.
pub fn play_through<'a>(
    rules: &'a Rules,
    game: &'a Record,
    list: &'a WordList,
) -> Result<Passed<'a>, (u32, RuleFault)>
    ensures passed { IsOk result ↔ AreAllowed rules.now list.now game.now.events }
    ensures rules { IfOk result (λ passed. rules_in passed ≡ rules.now) }
    ensures record { IfOk result (λ passed. record_in passed ≡ game.now) }
    ensures list { IfOk result (λ passed. list_in passed ≡ list.now) }
    ensures refused { IfErr result (λ r. IsFirstRefusal rules.now list.now game.now.events r.0 r.1) }
{
    let events = game.events.as_slice();
    let machine = play_events(rules, events, list, events.len())?;
    Ok(Passed {
        rules,
        record: game,
        list,
        complete: machine.finished(),
    })
}
