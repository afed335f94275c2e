//! What is noted of a sheet, as plain data.
ghost use Rattle.std.specs.Prelude.{◌≡◌, ◌<◌, ◌≤◌, ℕ, List, [], None, length, IfOk};
ghost use Rattle.gcg_read.specs.declared.events.Event.{Event};
ghost use Rattle.lex_check.specs.Pairs.{list_in};
ghost use Rattle.game_walk.specs.Walks.{IsWalk, IsWalkOf};
ghost use Rattle.sheet_scores.specs.Rows.{IsSheetRowAt, AreSheetRows};
ghost use Rattle.explain_answers.specs.Openings.{place_of_fault};
ghost use Rattle.game_case.specs.Explaining.{HasItsWalk, IsCaseOf};
ghost use Rattle.sheet_notes.specs.Notes.{IsNoteAt, AreNotes, noted_to, IsRefusalExplained, AnnotatesEntry, AnnotatesRead, IsAnnotatedSheet};

use crate::next_plays::next_at;
use explain_answers::{Explanation, explain, place_of_fault};
use game_answers::ScoredPlay;
use game_bests::TurnBest;
use game_case::{Case, Entry, Finding};
use game_turns::SpelledWord;
use game_walk::Walk;
use gcg_read::Event;
use lex_check::Checked;
use lex_list::WordList;
use ref_tiles::Rules;
use sheet_scores::{SheetRow, rows_of};
use std::alloc::{AllocError, Global};

/// What the note of an event says.
#[derive(Drop)]
pub struct EventNote {
    /// What is said of its best play, if the rules allow the events before it with their right numbers.
    pub best: Option<TurnBest>,
    /// The next best plays, best first, if more than one play is asked for.
    pub next: Vec<ScoredPlay>,
    /// The words of a play that stands which are not in the list, if the event is allowed.
    pub unlisted: Vec<SpelledWord>,
}

/// A sheet with what is noted of it.
#[derive(Drop)]
pub struct AnnotatedSheet {
    /// The bytes of the record, and what is found of it.
    pub case: Case,
    /// The notes of the events, in their order: of those before the faulty one, or of all.
    pub notes: Vec<EventNote>,
    /// Why the faulty one is refused, if there is one.
    pub refusal: Option<Explanation>,
}

/// What is noted of a record.
#[derive(Drop)]
struct Noted {
    notes: Vec<EventNote>,
    refusal: Option<Explanation>,
}

/// The note of the event at a place, by what a score sheet says there.
fn note_at(
    alloc: Global,
    rules: &Rules,
    pair: &Checked<'_>,
    events: &[Event],
    walk: &Walk,
    number: usize,
    place: usize,
    row: SheetRow,
) -> Result<EventNote, AllocError>
    requires { place < length events.now }
    ensures { IfOk result (λ note. (right : List Event) → IsWalk rules.now (list_in pair.now) events.now right walk.now
        → IsSheetRowAt rules.now (list_in pair.now) events.now right place row
        → IsNoteAt number rules.now (list_in pair.now) events.now right place note) }
{
    let event = &events[place];
    let next = next_at(alloc, rules, pair, walk, place, event, number)?;
    let SheetRow { best, unlisted, .. } = row;
    Ok(EventNote {
        best,
        next,
        unlisted,
    })
}

/// The notes of the events before a place, by the rows of a score sheet.
fn notes_to(
    alloc: Global,
    rules: &Rules,
    pair: &Checked<'_>,
    events: &[Event],
    walk: &Walk,
    number: usize,
    rows: Vec<SheetRow>,
    end: usize,
) -> Result<Vec<EventNote>, AllocError>
    requires { end ≤ length events.now }
    ensures { IfOk result (λ notes. (right : List Event) → IsWalk rules.now (list_in pair.now) events.now right walk.now
        → AreSheetRows rules.now (list_in pair.now) events.now right (length events.now) rows.items
        → AreNotes number rules.now (list_in pair.now) events.now right end notes.items) }
{
    let mut notes = Vec::new(alloc);
    for row in rows {
        let place = notes.len();
        if place == end {
            return Ok(notes);
        }
        let note = note_at(alloc, rules, pair, events, walk, number, place, row)?;
        notes.push(note)?;
    }
    Ok(notes)
}

/// The place up to which events have notes: that of the faulty one, or the end.
#[tactic(auto, using(explain_answers::proofs::Places::fault_within))]
fn noted_to(events: &[Event], finding: &Finding) -> usize
    ensures is { result ≡ noted_to events.now (place_of_fault events.now finding.now) }
    ensures within { result ≤ length events.now }
{
    match place_of_fault(events, finding) {
        None => events.len(),
        Some(place) => place,
    }
}

/// Why the faulty event of a record is refused, if there is one.
fn refusal_of(
    alloc: Global,
    rules: &Rules,
    list: &WordList,
    entry: &Entry,
    walk: &Walk,
) -> Result<Option<Explanation>, AllocError>
    requires { IsWalkOf rules.now list.now entry.now.record.events walk.now }
    ensures { IfOk result (IsRefusalExplained rules.now list.now entry.now entry.now.finding) }
{
    match &entry.finding {
        Finding::Illegal { .. } => explain(alloc, rules, list, entry, walk, None),
        Finding::NoGame | Finding::Legal { .. } | Finding::Unsettled => Ok(None),
    }
}

/// What is noted of a record.
fn noted_in(
    alloc: Global,
    rules: &Rules,
    pair: &Checked<'_>,
    entry: &Entry,
    walk: &Walk,
    number: usize,
) -> Result<Noted, AllocError>
    requires { IsWalkOf rules.now (list_in pair.now) entry.now.record.events walk.now }
    ensures { IfOk result (λ noted. AnnotatesEntry number rules.now (list_in pair.now) entry.now noted.notes.items noted.refusal) }
{
    let events = entry.record.events.as_slice();
    let rows = rows_of(alloc, rules, pair, events, walk)?;
    let end = noted_to(events, &entry.finding);
    let notes = notes_to(alloc, rules, pair, events, walk, number, rows, end)?;
    let refusal = refusal_of(alloc, rules, pair.list(), entry, walk)?;
    Ok(Noted { notes, refusal })
}

/// That nothing is noted.
fn nothing(alloc: Global) -> Noted
    ensures notes { result.notes.items ≡ [] }
    ensures refusal { result.refusal ≡ None }
{
    Noted {
        notes: Vec::new(alloc),
        refusal: None,
    }
}

/// What is noted of the record of a case; nothing if its text is not one.
fn noted_of(
    alloc: Global,
    rules: &Rules,
    pair: &Checked<'_>,
    case: &Case,
    number: usize,
) -> Result<Noted, AllocError>
    requires { HasItsWalk rules.now (list_in pair.now) case.now }
    ensures { IfOk result (λ noted. AnnotatesRead number rules.now (list_in pair.now) case.now.read noted.notes.items noted.refusal) }
{
    let Ok(entry) = &case.read else {
        return Ok(nothing(alloc));
    };
    let Some(walk) = &case.walk else {
        return Ok(nothing(alloc));
    };
    let noted = noted_in(alloc, rules, pair, entry, walk, number)?;
    Ok(noted)
}

/// The sheet of a case with what is noted of it: of each event before the faulty one, or of all, the best play by its rack and how many points more it
/// would have given, the next best ones, `number` plays in all and up to 100, and the words that are not in the list; and why the faulty event is
/// refused. If the text is not a record, nothing is noted.
///
/// It fails only if memory runs out.
pub fn annotated_sheet(
    alloc: Global,
    rules: &Rules,
    pair: &Checked<'_>,
    case: Case,
    number: usize,
) -> Result<AnnotatedSheet, AllocError>
    requires { HasItsWalk rules.now (list_in pair.now) case }
    ensures same { IfOk result (λ sheet. sheet.case ≡ case) }
    ensures noted { IfOk result (λ sheet. (text : List ℕ) → IsCaseOf rules.now (list_in pair.now) text case
        → IsAnnotatedSheet number rules.now (list_in pair.now) text sheet) }
{
    let Noted { notes, refusal } = noted_of(alloc, rules, pair, &case, number)?;
    Ok(AnnotatedSheet {
        case,
        notes,
        refusal,
    })
}
