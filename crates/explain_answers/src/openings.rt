//! How an explanation begins.
ghost use Rattle.std.specs.Prelude.{◌≡◌, ◌++◌, OnOk};
ghost use Rattle.game_case.specs.Explaining.{case_line};
ghost use Rattle.engine_stages.specs.Reports.{bad_line_line};
ghost use Rattle.explain_answers.specs.Openings.{place_shown, place_of_fault, record_opening, opening};

use crate::lines::push_numbered_line;
use game_board::place_of_line;
use game_case::{Case, Entry, Finding, case_line};
use gcg_read::Event;
use std::alloc::{AllocError, Global};

/// Appends the line of the event at a place, if there is one.
fn push_event(
    text: &mut Vec<u8>,
    bytes: &[u8],
    events: &[Event],
    place: Option<usize>,
) -> Result<(), AllocError>
    ensures { OnOk result (text.new.items ≡ text.old.items ++ place_shown bytes.now events.now place) }
{
    let Some(place) = place else {
        return Ok(());
    };
    let Some(event) = events.get(place) else {
        return Ok(());
    };
    push_numbered_line(text, bytes, event.line)
}

/// The place of the event that a finding faults.
pub fn place_of_fault(events: &[Event], finding: &Finding) -> Option<usize>
    ensures { result ≡ place_of_fault events.now finding.now }
{
    match finding {
        Finding::Illegal { line, .. } => place_of_line(events, *line),
        Finding::NoGame | Finding::Legal { .. } | Finding::Unsettled => None,
    }
}

/// Appends that no event is on the given line or after it.
#[tactic(auto, unfolding(engine_stages::specs::Reports::bad_line_line))]
fn push_missing(text: &mut Vec<u8>) -> Result<(), AllocError>
    ensures { OnOk result (text.new.items ≡ text.old.items ++ bad_line_line) }
{
    text.extend_from_slice(b"bad line: no event is on it or after it\n")
}

/// Appends the verdict line, and the line of the event at a place, if there is one.
fn push_both(
    text: &mut Vec<u8>,
    verdict: &[u8],
    bytes: &[u8],
    events: &[Event],
    place: Option<usize>,
) -> Result<(), AllocError>
    ensures { OnOk result (text.new.items ≡ text.old.items ++ (verdict.now ++ place_shown bytes.now events.now place)) }
{
    text.extend_from_slice(verdict)?;
    push_event(text, bytes, events, place)
}

/// Appends how the explanation of a record begins, by its verdict line.
fn push_of_record(
    text: &mut Vec<u8>,
    verdict: &[u8],
    bytes: &[u8],
    entry: &Entry,
    line: Option<u32>,
) -> Result<(), AllocError>
    ensures { OnOk result (text.new.items ≡ text.old.items ++ record_opening verdict.now bytes.now entry.now line) }
{
    let events = entry.record.events.as_slice();
    let Some(line) = line else {
        let place = place_of_fault(events, &entry.finding);
        return push_both(text, verdict, bytes, events, place);
    };
    let Some(place) = place_of_line(events, line) else {
        return push_missing(text);
    };
    push_both(text, verdict, bytes, events, Some(place))
}

/// Appends how the explanation of a case begins: its verdict line, and the line that is explained, as it is in the file.
pub fn push_opening(
    alloc: Global,
    text: &mut Vec<u8>,
    case: &Case,
    line: Option<u32>,
) -> Result<(), AllocError>
    ensures { OnOk result (text.new.items ≡ text.old.items ++ opening case.now.text.items case.now.read line) }
{
    let verdict = case_line(alloc, case)?;
    match &case.read {
        Ok(entry) => push_of_record(text, verdict.as_slice(), case.text.as_slice(), entry, line),
        Err(fault) => {
            text.extend_from_slice(verdict.as_slice())?;
            push_numbered_line(text, case.text.as_slice(), fault.line)
        }
    }
}
