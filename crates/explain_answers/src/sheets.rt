//! What is said of an event of a record.
ghost use Rattle.std.specs.Prelude.{◌≡◌, ◌+◌, ◌<◌, ◌++◌, ◌∷◌, [], true, All, Some, IfOk, IfSome, OnOk, drop, length, slice_get};
ghost use Rattle.game_turns.specs.Machines.{state_of};
ghost use Rattle.game_turns.specs.Tallies.{tally_at};
ghost use Rattle.game_turns.specs.Places.{AreAllowedTo, IsRefusedBefore, fault_at};
ghost use Rattle.explain_facts.specs.Facts.{IsTrueOfRacks};
ghost use Rattle.game_turns.specs.declared.faults.RuleFault.{RuleFault};
ghost use Rattle.game_walk.specs.Walks.{IsWalkOf};
ghost use Rattle.explain_facts.specs.declared.facts.Fact.TheVariants as fact;
ghost use Rattle.explain_facts.specs.declared.facts.rulings.RulingFact.TheVariants as ruling_fact;
ghost use Rattle.std.specs.Option.{option_copied};
ghost use Rattle.explain_facts.specs.FaultFacts.{begin_with, listed};
ghost use Rattle.explain_answers.specs.Events.{IsTrueAt, IsFoundFor, SayTheRuling, SayTheRacks};

use crate::judging::{Judged, judged_at};
use crate::passing::passed_by;
use deal_steps::Step;
use engine_stages::{Earlier, GameFault};
use explain_facts::{
    Fact, RulingFact, Scene, dealt_to, left_over, no_deal, rack_too_big, report_rack_slip,
    rule_fault_facts, tiles_short,
};
use game_deal::all_steps;
use game_turns::{Machine, RuleFault};
use game_walk::Walk;
use gcg_read::{Event, Record};
use lex_list::WordList;
use ref_tiles::Rules;
use std::alloc::{AllocError, Global};

/// A sheet with an event that is explained: a record, its rules and its word list, and what is wrong with the racks up to the
/// event.
#[derive(Clone, Copy)]
pub(crate) struct Sheet<'a> {
    /// The rules.
    pub rules: &'a Rules,
    /// The word list.
    pub list: &'a WordList,
    /// The record.
    pub record: &'a Record,
    /// The walk over it.
    pub walk: &'a Walk,
    /// What is wrong up to the event, if that is not the event itself.
    pub fault: Option<&'a GameFault>,
}

/// What is wrong with the racks of these steps up to the event at a place.
fn rack_fact(
    alloc: Global,
    rules: &Rules,
    steps: &[Step],
    place: usize,
    fault: &GameFault,
) -> Result<Option<Fact>, AllocError>
    ensures reported { IfOk result (λ fact. IfSome fact (IsTrueOfRacks rules.now steps.now place)) }
    ensures found { IfOk result (IsFoundFor rules.now steps.now place fault.now) }
{
    match fault {
        GameFault::Rule(_) => Ok(None),
        GameFault::RackTooBig => rack_too_big(alloc, rules, steps, place),
        GameFault::TilesShort(kind) => tiles_short(alloc, rules, steps, place, *kind),
        GameFault::NoDeal { .. } => no_deal(alloc, rules, steps, place),
    }
}

/// What the lines before the event at a place leave on a rack that would have to hold too many tiles, if its line shows the whole rack without it.
fn remaining_fact(
    alloc: Global,
    rules: &Rules,
    steps: &[Step],
    place: usize,
    fault: &GameFault,
) -> Result<Option<Fact>, AllocError>
    ensures { IfOk result (λ fact. IfSome fact (IsTrueOfRacks rules.now steps.now place)) }
{
    if !matches!(fault, GameFault::RackTooBig) {
        return Ok(None);
    }
    left_over(alloc, rules, steps, place)
}

/// The line up to which a deal gives the racks, if no deal gives them up to the event at a place and some deal does before it.
fn dealt_fact(
    alloc: Global,
    rules: &Rules,
    steps: &[Step],
    place: usize,
    fault: &GameFault,
) -> Result<Option<Fact>, AllocError>
    ensures { IfOk result (λ fact. IfSome fact (IsTrueOfRacks rules.now steps.now place)) }
{
    if !matches!(
        fault,
        GameFault::NoDeal {
            earlier: Earlier::Dealt
        }
    ) {
        return Ok(None);
    }
    dealt_to(alloc, rules, steps, place)
}

/// The list of a fact that is true of an event.
fn one_fact(
    alloc: Global,
    sheet: &Sheet<'_>,
    place: usize,
    fact: Fact,
) -> Result<Vec<Fact>, AllocError>
    requires { IsTrueAt sheet.now.rules.now sheet.now.list.now sheet.now.record.now.events place fact }
    ensures reported { IfOk result (λ facts. All (IsTrueAt sheet.now.rules.now sheet.now.list.now sheet.now.record.now.events place) facts.items) }
    ensures are { IfOk result (λ facts. facts.items ≡ fact ∷ []) }
{
    let _ = sheet;
    let _ = place;
    let mut facts = Vec::new(alloc);
    facts.push(fact)?;
    Ok(facts)
}

/// Adds a fact that is true of an event.
fn push_fact(
    facts: &mut Vec<Fact>,
    sheet: &Sheet<'_>,
    place: usize,
    fact: Fact,
) -> Result<(), AllocError>
    requires reported { All (IsTrueAt sheet.now.rules.now sheet.now.list.now sheet.now.record.now.events place) facts.old.items }
    requires holds { IsTrueAt sheet.now.rules.now sheet.now.list.now sheet.now.record.now.events place fact }
    ensures reported { OnOk result (All (IsTrueAt sheet.now.rules.now sheet.now.list.now sheet.now.record.now.events place) facts.new.items) }
    ensures added { OnOk result (facts.new.items ≡ facts.old.items ++ fact ∷ []) }
{
    let _ = sheet;
    let _ = place;
    facts.push(fact)?;
    Ok(())
}

/// Adds a fact that is true of an event, if there is one.
fn push_some(
    facts: &mut Vec<Fact>,
    sheet: &Sheet<'_>,
    place: usize,
    fact: Option<Fact>,
) -> Result<(), AllocError>
    requires reported { All (IsTrueAt sheet.now.rules.now sheet.now.list.now sheet.now.record.now.events place) facts.old.items }
    requires holds { IfSome fact (IsTrueAt sheet.now.rules.now sheet.now.list.now sheet.now.record.now.events place) }
    ensures reported { OnOk result (All (IsTrueAt sheet.now.rules.now sheet.now.list.now sheet.now.record.now.events place) facts.new.items) }
    ensures added { OnOk result (facts.new.items ≡ facts.old.items ++ listed fact) }
{
    match fact {
        None => Ok(()),
        Some(fact) => push_fact(facts, sheet, place, fact),
    }
}

/// Adds that the rules allow an event, if nothing else is said of it.
#[tactic(auto, using(crate::proofs::Ruling::has_one_more))]
fn push_allowed(facts: &mut Vec<Fact>, sheet: &Sheet<'_>, place: usize) -> Result<(), AllocError>
    requires reported { All (IsTrueAt sheet.now.rules.now sheet.now.list.now sheet.now.record.now.events place) facts.old.items }
    requires allowed { AreAllowedTo sheet.now.rules.now sheet.now.list.now sheet.now.record.now.events (place + 1) }
    requires racks { SayTheRacks sheet.now.rules.now sheet.now.list.now sheet.now.record.now.events place (option_copied sheet.now.fault) facts.old.items }
    ensures reported { OnOk result (All (IsTrueAt sheet.now.rules.now sheet.now.list.now sheet.now.record.now.events place) facts.new.items) }
    ensures some { OnOk result (0 < length facts.new.items) }
    ensures racks { OnOk result (SayTheRacks sheet.now.rules.now sheet.now.list.now sheet.now.record.now.events place (option_copied sheet.now.fault) facts.new.items) }
{
    if facts.is_empty() {
        push_fact(facts, sheet, place, Fact::Ruling(RulingFact::Allowed))?;
        return Ok(());
    }
    Ok(())
}

/// The events after a place.
fn events_after(events: &[Event], place: usize) -> &[Event]
    requires { place < length events.now }
    ensures { result.now ≡ drop (place + 1) events.now }
{
    &events[place + 1..]
}

/// The tiles of a play that are not on the rack that its line shows, if the rack and these tiles together are more than
/// the player has.
#[tactic(auto, using(crate::proofs::Refusing::all_at))]
fn rack_slips(
    alloc: Global,
    sheet: &Sheet<'_>,
    machine: &Machine,
    event: &Event,
    place: usize,
) -> Result<Vec<Fact>, AllocError>
    requires within { place < length sheet.now.record.now.events }
    requires stands { slice_get sheet.now.record.now.events place ≡ Some event.now }
    requires state { state_of machine.now ≡ tally_at sheet.now.rules.now sheet.now.record.now.events place }
    ensures { IfOk result (λ facts. All (IsTrueAt sheet.now.rules.now sheet.now.list.now sheet.now.record.now.events place) facts.items) }
{
    let events = sheet.record.events.as_slice();
    let later = events_after(events, place);
    let scene = Scene {
        rules: sheet.rules,
        list: sheet.list,
        past: &events[..place],
        event,
        later,
        machine,
    };
    let mut facts = Vec::new(alloc);
    report_rack_slip(alloc, &mut facts, &scene)?;
    Ok(facts)
}

/// Adds what is wrong with the racks up to the event at a place, if the rules allow each event.
fn push_rack_facts(
    alloc: Global,
    facts: &mut Vec<Fact>,
    sheet: &Sheet<'_>,
    place: usize,
    fault: &GameFault,
) -> Result<(), AllocError>
    requires walk { IsWalkOf sheet.now.rules.now sheet.now.list.now sheet.now.record.now.events sheet.now.walk.now }
    requires reported { All (IsTrueAt sheet.now.rules.now sheet.now.list.now sheet.now.record.now.events place) facts.old.items }
    ensures reported { OnOk result (All (IsTrueAt sheet.now.rules.now sheet.now.list.now sheet.now.record.now.events place) facts.new.items) }
    ensures racks { OnOk result (SayTheRacks sheet.now.rules.now sheet.now.list.now sheet.now.record.now.events place (Some fault.now) facts.new.items) }
{
    let Some(passed) = passed_by(sheet.rules, sheet.list, sheet.record, sheet.walk) else {
        return Ok(());
    };
    let all = all_steps(alloc, &passed)?;
    let steps = all.as_slice();
    let remaining = remaining_fact(alloc, sheet.rules, steps, place, fault)?;
    push_some(facts, sheet, place, remaining)?;
    let fact = rack_fact(alloc, sheet.rules, steps, place, fault)?;
    push_some(facts, sheet, place, fact)?;
    let dealt = dealt_fact(alloc, sheet.rules, steps, place, fault)?;
    push_some(facts, sheet, place, dealt)?;
    Ok(())
}

/// What is said of an event that the rules allow: that they do, or what is wrong with the racks.
fn allowed_facts(
    alloc: Global,
    sheet: &Sheet<'_>,
    machine: &Machine,
    event: &Event,
    place: usize,
) -> Result<Vec<Fact>, AllocError>
    requires walk { IsWalkOf sheet.now.rules.now sheet.now.list.now sheet.now.record.now.events sheet.now.walk.now }
    requires within { place < length sheet.now.record.now.events }
    requires stands { slice_get sheet.now.record.now.events place ≡ Some event.now }
    requires state { state_of machine.now ≡ tally_at sheet.now.rules.now sheet.now.record.now.events place }
    requires allowed { AreAllowedTo sheet.now.rules.now sheet.now.list.now sheet.now.record.now.events (place + 1) }
    ensures reported { IfOk result (λ facts. All (IsTrueAt sheet.now.rules.now sheet.now.list.now sheet.now.record.now.events place) facts.items) }
    ensures some { IfOk result (λ facts. 0 < length facts.items) }
    ensures racks { IfOk result (λ facts. SayTheRacks sheet.now.rules.now sheet.now.list.now sheet.now.record.now.events place (option_copied sheet.now.fault) facts.items) }
{
    let Some(fault) = sheet.fault else {
        let facts = one_fact(alloc, sheet, place, Fact::Ruling(RulingFact::Allowed))?;
        return Ok(facts);
    };
    let mut facts = rack_slips(alloc, sheet, machine, event, place)?;
    push_rack_facts(alloc, &mut facts, sheet, place, fault)?;
    push_allowed(&mut facts, sheet, place)?;
    Ok(facts)
}

/// What is said of an event that the rules refuse.
#[tactic(auto, using(crate::proofs::Refusing::fails_in, crate::proofs::Refusing::all_at))]
fn refused_facts(
    alloc: Global,
    sheet: &Sheet<'_>,
    machine: &Machine,
    event: &Event,
    place: usize,
    why: &RuleFault,
) -> Result<Vec<Fact>, AllocError>
    requires within { place < length sheet.now.record.now.events }
    requires stands { slice_get sheet.now.record.now.events place ≡ Some event.now }
    requires state { state_of machine.now ≡ tally_at sheet.now.rules.now sheet.now.record.now.events place }
    requires allowed { AreAllowedTo sheet.now.rules.now sheet.now.list.now sheet.now.record.now.events place }
    requires fails { fault_at sheet.now.rules.now sheet.now.list.now sheet.now.record.now.events place ≡ Some why.now }
    ensures reported { IfOk result (λ facts. All (IsTrueAt sheet.now.rules.now sheet.now.list.now sheet.now.record.now.events place) facts.items) }
    ensures first { IfOk result (λ facts. begin_with why.now facts.items ≡ true) }
{
    let events = sheet.record.events.as_slice();
    let later = events_after(events, place);
    let scene = Scene {
        rules: sheet.rules,
        list: sheet.list,
        past: &events[..place],
        event,
        later,
        machine,
    };
    let facts = rule_fault_facts(alloc, &scene, why)?;
    Ok(facts)
}

/// That an event was not judged, since the rules refuse an earlier one, on the line `refused`.
fn unjudged_facts(
    alloc: Global,
    sheet: &Sheet<'_>,
    place: usize,
    refused: u32,
) -> Result<Vec<Fact>, AllocError>
    requires { (why : RuleFault) × IsRefusedBefore sheet.now.rules.now sheet.now.list.now sheet.now.record.now.events place refused why }
    ensures reported { IfOk result (λ facts. All (IsTrueAt sheet.now.rules.now sheet.now.list.now sheet.now.record.now.events place) facts.items) }
    ensures are { IfOk result (λ facts. facts.items ≡ fact.Ruling (ruling_fact.NotJudged refused) ∷ []) }
{
    one_fact(
        alloc,
        sheet,
        place,
        Fact::Ruling(RulingFact::NotJudged { refused }),
    )
}

/// What is said of the event at a place.
pub(crate) fn facts_at(
    alloc: Global,
    sheet: &Sheet<'_>,
    event: &Event,
    place: usize,
) -> Result<Vec<Fact>, AllocError>
    requires walk { IsWalkOf sheet.now.rules.now sheet.now.list.now sheet.now.record.now.events sheet.now.walk.now }
    requires within { place < length sheet.now.record.now.events }
    requires stands { slice_get sheet.now.record.now.events place ≡ Some event.now }
    ensures reported { IfOk result (λ facts. All (IsTrueAt sheet.now.rules.now sheet.now.list.now sheet.now.record.now.events place) facts.items) }
    ensures ruling { IfOk result (λ facts. SayTheRuling sheet.now.rules.now sheet.now.list.now sheet.now.record.now.events place facts.items) }
    ensures racks { IfOk result (λ facts. SayTheRacks sheet.now.rules.now sheet.now.list.now sheet.now.record.now.events place (option_copied sheet.now.fault) facts.items) }
{
    match judged_at(sheet.walk, place) {
        Some(Judged::Allowed(game)) => allowed_facts(alloc, sheet, game, event, place),
        Some(Judged::Refused(game, why)) => refused_facts(alloc, sheet, game, event, place, &why),
        Some(Judged::After(refused)) => unjudged_facts(alloc, sheet, place, refused),
        None => Ok(Vec::new(alloc)),
    }
}
