//! What explains a record, or its event on a line.
ghost use Rattle.std.specs.Prelude.{◌≡◌, ◌<◌, ◌∷◌, [], Some, None, IfOk, OnOk, length};
ghost use Rattle.game_walk.specs.Walks.{IsWalkOf};
ghost use Rattle.explain_answers.specs.Events.{ExplainsEvent};
ghost use Rattle.explain_facts.specs.declared.facts.Fact.TheVariants as fact;
ghost use Rattle.std.specs.Option.{option_copied};
ghost use Rattle.engine_stages.specs.declared.verdicts.GameFault.{GameFault};
ghost use Rattle.game_case.specs.declared.findings.Finding.TheVariants.{Illegal};
ghost use Rattle.explain_answers.specs.Explaining.{GoOnWithNotes, AreWholeFacts, SayTheFinding, IsExplanation};

use crate::events::{Explanation, explain_event};
use crate::openings::place_of_fault;
use crate::passing::passed_by;
use engine_stages::GameFault;
use explain_facts::{Fact, GameFact, push_notes};
use game_board::place_of_line;
use game_case::{Entry, Finding};
use game_walk::Walk;
use gcg_read::Record;
use lex_list::WordList;
use ref_tiles::Rules;
use std::alloc::{AllocError, Global};

/// The list of one fact about a record as a whole.
fn one_fact(alloc: Global, said: GameFact) -> Result<Vec<Fact>, AllocError>
    ensures { IfOk result (λ facts. facts.items ≡ fact.Game said ∷ []) }
{
    let mut facts = Vec::new(alloc);
    facts.push(Fact::Game(said))?;
    Ok(facts)
}

/// Adds which plays of a record stand with words that are not in the list, which of its turns show no rack or a part of it, which last rack
/// it lacks, and whether the list may be another one, if the rules allow every event.
#[tactic(auto, using(crate::proofs::Notes::noted, crate::proofs::Notes::refused))]
fn push_all_notes(
    alloc: Global,
    facts: &mut Vec<Fact>,
    rules: &Rules,
    list: &WordList,
    record: &Record,
    walk: &Walk,
) -> Result<(), AllocError>
    requires { IsWalkOf rules.now list.now record.now.events walk.now }
    ensures { OnOk result (GoOnWithNotes rules.now list.now record.now.events facts.old.items facts.new.items) }
{
    match passed_by(rules, list, record, walk) {
        Some(passed) => push_notes(alloc, facts, &passed),
        None => Ok(()),
    }
}

/// A fact about a record as a whole, and what is noted of a record whose events the rules allow.
fn noted(
    alloc: Global,
    rules: &Rules,
    list: &WordList,
    record: &Record,
    walk: &Walk,
    said: GameFact,
) -> Result<Vec<Fact>, AllocError>
    requires { IsWalkOf rules.now list.now record.now.events walk.now }
    ensures { IfOk result (λ facts. GoOnWithNotes rules.now list.now record.now.events (fact.Game said ∷ []) facts.items) }
{
    let mut facts = one_fact(alloc, said)?;
    push_all_notes(alloc, &mut facts, rules, list, record, walk)?;
    Ok(facts)
}

/// What is said of a record as a whole, by what was found of it.
#[tactic(auto, using(crate::proofs::Notes::legal, crate::proofs::Notes::unsettled, crate::proofs::Notes::no_game, crate::proofs::Notes::illegal))]
fn whole_facts(
    alloc: Global,
    rules: &Rules,
    list: &WordList,
    record: &Record,
    walk: &Walk,
    finding: &Finding,
) -> Result<Vec<Fact>, AllocError>
    requires { IsWalkOf rules.now list.now record.now.events walk.now }
    ensures { IfOk result (λ facts. AreWholeFacts rules.now list.now record.now.events finding.now facts.items) }
{
    match finding {
        Finding::NoGame => one_fact(alloc, GameFact::NoEvent),
        Finding::Legal { .. } => noted(alloc, rules, list, record, walk, GameFact::Legal),
        Finding::Unsettled => noted(alloc, rules, list, record, walk, GameFact::Unsettled),
        Finding::Illegal { .. } => Ok(Vec::new(alloc)),
    }
}

/// The fault that a finding has on a line.
fn fault_on(finding: &Finding, line: u32) -> Option<&GameFault>
    ensures { (why : GameFault) → finding.now ≡ Illegal line why → option_copied result ≡ Some why }
{
    match finding {
        Finding::Illegal { line: on, fault } if *on == line => Some(fault),
        _ => None,
    }
}

/// What explains a record as a whole.
fn whole(
    alloc: Global,
    rules: &Rules,
    list: &WordList,
    entry: &Entry,
    walk: &Walk,
) -> Result<Explanation, AllocError>
    requires { IsWalkOf rules.now list.now entry.now.record.events walk.now }
    ensures line { IfOk result (λ x. x.line ≡ None) }
    ensures facts { IfOk result (λ x. AreWholeFacts rules.now list.now entry.now.record.events entry.now.finding x.facts.items) }
    ensures picture { IfOk result (λ x. x.picture ≡ None) }
{
    let facts = whole_facts(alloc, rules, list, &entry.record, walk, &entry.finding)?;
    Ok(Explanation {
        line: None,
        facts,
        picture: None,
    })
}

/// What explains the event at a place.
#[tactic(auto, using(crate::proofs::Places::finding_said))]
fn explained(
    alloc: Global,
    rules: &Rules,
    list: &WordList,
    entry: &Entry,
    walk: &Walk,
    place: usize,
) -> Result<Explanation, AllocError>
    requires walk { IsWalkOf rules.now list.now entry.now.record.events walk.now }
    requires within { place < length entry.now.record.events }
    ensures explained { IfOk result (ExplainsEvent rules.now list.now entry.now.record.events place) }
    ensures racks { IfOk result (SayTheFinding rules.now list.now entry.now place) }
{
    let line = entry.record.events.as_slice()[place].line;
    let fault = fault_on(&entry.finding, line);
    explain_event(alloc, rules, list, &entry.record, walk, place, fault)
}

/// What explains the verdict on a record, or its event on a line or after it, by the walk over the record; none if there is no event.
///
/// It fails only if memory runs out.
///
/// The first fact about the first event that the rules refuse is that of the fault; an event after it has the fact that it was not judged, and no
/// other; no event is without a fact; and a line that is the first to exceed a bound of the racks has the fact of that bound. That the facts are all that
/// is to be said is tested.
#[tactic(auto, using(crate::proofs::Places::fault_within, crate::proofs::Places::explains_whole, crate::proofs::Places::explains_at, crate::proofs::Places::asked_none, crate::proofs::Places::asked_some))]
pub fn explain(
    alloc: Global,
    rules: &Rules,
    list: &WordList,
    entry: &Entry,
    walk: &Walk,
    line: Option<u32>,
) -> Result<Option<Explanation>, AllocError>
    requires { IsWalkOf rules.now list.now entry.now.record.events walk.now }
    ensures { IfOk result (IsExplanation rules.now list.now entry.now line) }
{
    let events = entry.record.events.as_slice();
    let Some(line) = line else {
        return match place_of_fault(events, &entry.finding) {
            None => Ok(Some(whole(alloc, rules, list, entry, walk)?)),
            Some(place) => Ok(Some(explained(alloc, rules, list, entry, walk, place)?)),
        };
    };
    match place_of_line(events, line) {
        None => Ok(None),
        Some(place) => Ok(Some(explained(alloc, rules, list, entry, walk, place)?)),
    }
}
