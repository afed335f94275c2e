//! What is said about a record whose events the rules allow: which plays stand with words that are not in the list, which turns show no
//! rack or only a part of it, which last rack is missing, and whether the list may be another one.
ghost use Rattle.std.specs.Prelude.{◌≡◌, ◌+◌, ◌<◌, ◌++◌, ◌∷◌, [], false, nat_le, map, length, slice_get, Some, None, IfOk, OnOk};
ghost use Rattle.game_turns.specs.Machines.{rules_of, state_of};
ghost use Rattle.game_turns.specs.Passing.{rules_in, record_in, list_in};
ghost use Rattle.game_turns.specs.Tallies.{tally_at};
ghost use Rattle.game_turns.specs.Unlisted.{letters_in};
ghost use Rattle.explain_facts.specs.Wholes.{play_in, play_with, unlisted_to, words_in, other_list, may_show, one_where, turn_line, hidden_line, part_by, part_line, turns_to, hidden_to, parts_to, due_by, due_facts, ReportsUnlisted, ReportsHidden, AddsNotes};

use crate::facts::{Fact, GameFact, RackPart, TurnFact, UnlistedPlay};
use game_turns::{Machine, Passed, SpelledWord, unlisted_of};
use gcg_read::{Event, EventKind, Seat};
use std::alloc::{AllocError, Global};

/// Appends a play with words that are not in the list, if it has any.
fn push_play(
    plays: &mut Vec<UnlistedPlay>,
    event: &Event,
    words: Vec<SpelledWord>,
) -> Result<(), AllocError>
    ensures { OnOk result (map play_in plays.new.items ≡ map play_in plays.old.items ++ play_with event.now (letters_in words.items)) }
{
    if words.is_empty() {
        return Ok(());
    }
    plays.push(UnlistedPlay {
        line: event.line,
        player: event.player,
        words,
    })?;
    Ok(())
}

/// The plays of a record that stand with words that are not in its list.
#[tactic(auto, using(game_turns::proofs::PlaceLaws::start_tally, crate::proofs::WholeLaws::read_there, crate::proofs::WholeLaws::unlisted_more))]
fn unlisted_plays(alloc: Global, passed: &Passed<'_>) -> Result<Vec<UnlistedPlay>, AllocError>
    ensures { IfOk result (λ plays. map play_in plays.items ≡ unlisted_to (rules_in passed.now) (list_in passed.now) (record_in passed.now).events
        (length (record_in passed.now).events)) }
{
    let events = passed.record().events.as_slice();
    let mut plays = Vec::new(alloc);
    let mut machine = Machine::new(passed.rules());
    for place in 0..events.len() {
        passed.take_event(&mut machine, place);
        let words = unlisted_of(alloc, passed.list(), machine.standing_words())?;
        push_play(&mut plays, &events[place], words)?;
    }
    Ok(plays)
}

/// Whether the line of an event may show a rack.
fn may_show(out: Option<Seat>, kind: &EventKind) -> bool
    ensures { result ≡ may_show out kind.now }
{
    match kind {
        EventKind::Play { .. } | EventKind::Exchange(_) | EventKind::ExchangeUnknown(_) => true,
        EventKind::Pass => out.is_none(),
        EventKind::Withdraw | EventKind::Challenge | EventKind::Time | EventKind::LastRack(_) => {
            false
        }
    }
}

/// Appends a line, if a condition holds.
fn push_where(lines: &mut Vec<u32>, so: bool, line: u32) -> Result<(), AllocError>
    ensures { OnOk result (lines.new.items ≡ lines.old.items ++ one_where so line) }
{
    if so {
        lines.push(line)?;
    }
    Ok(())
}

/// Appends the rack of an event, if the event may show one and shows fewer tiles than its player has.
fn push_part(
    parts: &mut Vec<RackPart>,
    shows: bool,
    has: usize,
    event: &Event,
) -> Result<(), AllocError>
    ensures { OnOk result (parts.new.items ≡ parts.old.items ++ part_by shows has event.now event.now.rack) }
{
    let Some(rack) = &event.rack else {
        return Ok(());
    };
    let shown = rack.total();
    if shows && shown < has {
        parts.push(RackPart {
            line: event.line,
            player: event.player,
            shown,
            has,
        })?;
    }
    Ok(())
}

/// Lines of turns.
#[derive(Drop)]
struct TurnLines {
    /// All of them.
    turns: Vec<u32>,
    /// Those that show no rack.
    hidden: Vec<u32>,
    /// The racks that are shown in part.
    parts: Vec<RackPart>,
}

impl TurnLines {
    /// Takes the line of an event, over the game before it.
    fn take(&mut self, machine: &Machine, event: &Event) -> Result<(), AllocError>
        ensures turns { OnOk result (self.new.turns.items ≡ self.old.turns.items ++ turn_line (state_of machine.now) (Some event.now)) }
        ensures hidden { OnOk result (self.new.hidden.items ≡ self.old.hidden.items ++ hidden_line (state_of machine.now) (Some event.now)) }
        ensures parts { OnOk result (self.new.parts.items ≡ self.old.parts.items ++ part_line (state_of machine.now) (Some event.now)) }
    {
        let shows = may_show(machine.out(), &event.kind);
        push_where(&mut self.turns, shows, event.line)?;
        push_where(&mut self.hidden, shows && event.rack.is_none(), event.line)?;
        push_part(
            &mut self.parts,
            shows,
            machine.rack_size(event.player),
            event,
        )
    }
}

/// The lines of the turns of a record, those that show no rack, and those that show a part of it.
#[tactic(auto, using(game_turns::proofs::PlaceLaws::start_tally, crate::proofs::WholeLaws::read_there, crate::proofs::WholeLaws::turns_more, crate::proofs::WholeLaws::hidden_more, crate::proofs::WholeLaws::parts_more))]
fn turn_lines(alloc: Global, passed: &Passed<'_>) -> Result<TurnLines, AllocError>
    ensures turns { IfOk result (λ l. l.turns.items ≡ turns_to (rules_in passed.now) (record_in passed.now).events (length (record_in passed.now).events)) }
    ensures hidden { IfOk result (λ l. l.hidden.items ≡ hidden_to (rules_in passed.now) (record_in passed.now).events (length (record_in passed.now).events)) }
    ensures parts { IfOk result (λ l. l.parts.items ≡ parts_to (rules_in passed.now) (record_in passed.now).events (length (record_in passed.now).events)) }
{
    let events = passed.record().events.as_slice();
    let mut lines = TurnLines {
        turns: Vec::new(alloc),
        hidden: Vec::new(alloc),
        parts: Vec::new(alloc),
    };
    let mut machine = Machine::new(passed.rules());
    for place in 0..events.len() {
        lines.take(&machine, &events[place])?;
        passed.take_event(&mut machine, place);
    }
    Ok(lines)
}

/// Whether plays have ten words or more that are not in the list.
#[tactic(auto, using(crate::proofs::WholeLaws::ten_reached, crate::proofs::WholeLaws::ten_not_reached, crate::proofs::WholeLaws::ten_remaining))]
fn has_many(plays: &[UnlistedPlay]) -> bool
    ensures { result ≡ nat_le 10 (words_in (map play_in plays.now)) }
{
    let mut remaining = 10usize;
    for k in 0..plays.len() {
        let words = plays[k].words.len();
        if words >= remaining {
            return true;
        }
        remaining -= words;
    }
    false
}

/// Appends that the list may be another one, if a condition holds.
fn push_other_list(facts: &mut Vec<Fact>, so: bool) -> Result<(), AllocError>
    ensures { OnOk result (facts.new.items ≡ facts.old.items ++ other_list so) }
{
    if so {
        facts.push(Fact::Game(GameFact::OtherList))?;
    }
    Ok(())
}

/// Appends the last rack that is missing if a player has lost the points of a rack.
fn push_lost(facts: &mut Vec<Fact>, first: bool, second: bool) -> Result<(), AllocError>
    ensures { OnOk result (facts.new.items ≡ facts.old.items ++ due_by false None first second) }
{
    if first {
        facts.push(Fact::Turn(TurnFact::RackLost {
            player: Seat::First,
            holder: Seat::Second,
        }))?;
        return Ok(());
    }
    if second {
        facts.push(Fact::Turn(TurnFact::RackLost {
            player: Seat::Second,
            holder: Seat::First,
        }))?;
    }
    Ok(())
}

/// Appends the last rack that is missing if a player is out or has lost the points of a rack, until the game is complete.
fn push_due_by(
    facts: &mut Vec<Fact>,
    complete: bool,
    out: Option<Seat>,
    first: bool,
    second: bool,
) -> Result<(), AllocError>
    ensures { OnOk result (facts.new.items ≡ facts.old.items ++ due_by complete out first second) }
{
    if complete {
        return Ok(());
    }
    if let Some(out) = out {
        facts.push(Fact::Turn(TurnFact::Out {
            out,
            holder: out.other(),
        }))?;
        return Ok(());
    }
    push_lost(facts, first, second)
}

/// Appends the last rack that is missing after the last event, if one is.
fn push_due(facts: &mut Vec<Fact>, machine: &Machine) -> Result<(), AllocError>
    ensures { OnOk result (facts.new.items ≡ facts.old.items ++ due_facts (state_of machine.now)) }
{
    push_due_by(
        facts,
        machine.finished(),
        machine.out(),
        machine.has_ended(Seat::First),
        machine.has_ended(Seat::Second),
    )
}

/// The game after the last event.
#[tactic(auto, using(game_turns::proofs::PlaceLaws::start_tally))]
fn end_of(passed: &Passed<'_>) -> Machine
    ensures { state_of result ≡ tally_at (rules_in passed.now) (record_in passed.now).events (length (record_in passed.now).events) }
{
    let events = passed.record().events.as_slice();
    let mut machine = Machine::new(passed.rules());
    for place in 0..events.len() {
        passed.take_event(&mut machine, place);
    }
    machine
}

/// Which turns of a record show no rack, and which show a part of it.
fn hidden_fact(alloc: Global, passed: &Passed<'_>) -> Result<Fact, AllocError>
    ensures { IfOk result (ReportsHidden (rules_in passed.now) (record_in passed.now).events) }
{
    let lines = turn_lines(alloc, passed)?;
    let turns = lines.turns.len();
    Ok(Fact::Game(GameFact::RacksHidden {
        lines: lines.hidden,
        parts: lines.parts,
        turns,
    }))
}

/// Adds what is said about a record whose events the rules allow: which of its plays stand with words that are not in the list, which of
/// its turns show no rack or only a part of it, which last rack is missing, and whether the list may be another one.
///
/// It fails only if memory runs out.
///
/// Exactly the plays with words that are not in the list are named, all turns that show no rack or only a part of it, the last rack that is missing,
/// and that the list may be another one exactly if ten of these words or more are not in it.
#[tactic(auto, using(crate::proofs::WholeLaws::all_reported))]
pub fn push_notes(
    alloc: Global,
    facts: &mut Vec<Fact>,
    passed: &Passed<'_>,
) -> Result<(), AllocError>
    ensures { OnOk result (AddsNotes (rules_in passed.now) (list_in passed.now) (record_in passed.now).events facts.old.items facts.new.items) }
{
    let plays = unlisted_plays(alloc, passed)?;
    let many = has_many(plays.as_slice());
    let hidden = hidden_fact(alloc, passed)?;
    let end = end_of(passed);
    facts.push(Fact::Game(GameFact::Unlisted { plays }))?;
    push_other_list(facts, many)?;
    facts.push(hidden)?;
    push_due(facts, &end)?;
    Ok(())
}
