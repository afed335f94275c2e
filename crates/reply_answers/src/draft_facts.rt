//! What is said of a line of a draft: nothing that rests on a number which is missing.
ghost use Rattle.std.specs.Prelude.{◌≡◌, slice_get};
ghost use Rattle.std.specs.List.{filter};
ghost use Rattle.std.specs.Option.{option_copied};
ghost use Rattle.draft_answers.specs.Filling.{said};
ghost use Rattle.reply_answers.specs.DraftFacts.{reports_missing_line, reports_total, reports_place, reports_tile, rests_on, is_reported, lack_at, lack_of, IsWithout, IsExplanationWithout};

use explain_answers::Explanation;
use explain_facts::{Fact, OrderFact, ReadingFact, ScoreFact};
use game_board::place_of_line;
use gcg_drafts::Missing;
use gcg_read::Event;

/// Whether a fact rests on the totals of lines: that a line seems to be missing before this one.
fn reports_missing_line(fact: &OrderFact) -> bool
    ensures { result ≡ reports_missing_line fact.now }
{
    matches!(fact, OrderFact::Missing { .. })
}

/// Whether it rests on the total of its own line: that it is right with the right score.
fn reports_total(fact: &ScoreFact) -> bool
    ensures { result ≡ reports_total fact.now }
{
    matches!(fact, ScoreFact::TotalFits { .. })
}

/// Whether it rests on the score of its own line: that another place gives it.
fn reports_place(fact: &ScoreFact) -> bool
    ensures { result ≡ reports_place fact.now }
{
    matches!(fact, ScoreFact::Elsewhere { .. })
}

/// Whether it rests on that score: that another tile gives it.
fn reports_tile(fact: &ReadingFact) -> bool
    ensures { result ≡ reports_tile fact.now }
{
    matches!(
        fact,
        ReadingFact::AsBlank { .. } | ReadingFact::Misread { .. }
    )
}

/// Whether a fact rests on a number that is missing, by what its line lacks, and whether some line lacks a number.
fn rests_on(some_line: bool, missing: Missing, fact: &Fact) -> bool
    ensures { result ≡ rests_on some_line missing fact.now }
{
    match (missing, fact) {
        (_, Fact::Order(fact)) => some_line && reports_missing_line(fact),
        (Missing::Total, Fact::Score(fact)) => reports_total(fact),
        (Missing::Both, Fact::Score(fact)) => reports_total(fact) || reports_place(fact),
        (Missing::Both, Fact::Reading(fact)) => reports_tile(fact),
        _ => false,
    }
}

/// Whether a fact is reported.
fn is_reported(some_line: bool, missing: Missing, fact: &Fact) -> bool
    ensures { result ≡ is_reported some_line missing fact.now }
{
    !rests_on(some_line, missing, fact)
}

/// Keeps only the facts that are reported.
fn keep_reported(some_line: bool, missing: Missing, facts: &mut Vec<Fact>)
    ensures { facts.new.items ≡ filter (is_reported some_line missing) facts.old.items }
{
    facts.retain(|fact| is_reported(some_line, missing, fact));
}

/// What the event at a place lacks.
fn lack_at(lacks: &[Missing], place: Option<usize>) -> Missing
    ensures { result ≡ lack_at lacks.now place }
{
    match place {
        None => Missing::Nothing,
        Some(place) => match lacks.get(place) {
            None => Missing::Nothing,
            Some(missing) => *missing,
        },
    }
}

/// What the event on a line lacks: nothing, if no line is explained.
fn lack_of(lacks: &[Missing], events: &[Event], line: Option<u32>) -> Missing
    ensures { result ≡ lack_of lacks.now events.now line }
{
    match line {
        None => Missing::Nothing,
        Some(line) => lack_at(lacks, place_of_line(events, line)),
    }
}

/// An explanation without the facts that rest on numbers which are missing.
fn without(some_line: bool, lacks: &[Missing], events: &[Event], found: Explanation) -> Explanation
    ensures { IsWithout some_line lacks.now events.now found result }
{
    let mut reported = found;
    let missing = lack_of(lacks, events, reported.line);
    keep_reported(some_line, missing, &mut reported.facts);
    reported
}

/// The same, if there is one.
pub(crate) fn explanation_without(
    some_line: bool,
    lacks: &[Missing],
    events: &[Event],
    found: Option<Explanation>,
) -> Option<Explanation>
    ensures { IsExplanationWithout some_line lacks.now events.now found result }
{
    match found {
        None => None,
        Some(found) => Some(without(some_line, lacks, events, found)),
    }
}
