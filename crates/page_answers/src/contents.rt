//! What a page shows of a record.
ghost use Rattle.std.specs.Prelude.{◌≡◌, ◌<◌, ◌≤◌, ℕ, List, length, IfOk, IfSome};
ghost use Rattle.gcg_read.specs.declared.events.Event.{Event};
ghost use Rattle.lex_check.specs.Pairs.{list_in};
ghost use Rattle.game_walk.specs.Walks.{IsWalk, IsWalkOf};
ghost use Rattle.game_case.specs.Explaining.{IsCaseOf};
ghost use Rattle.page_answers.specs.Pages.{faulty_place, place_in_view, IsAuditShown, ShowsEntry};

use crate::repaired::repaired_board;
use crate::sheets::{PageSheet, page_sheet};
use explain_answers::{Explanation, explain, place_of_fault};
use game_case::{Audit, Case, Entry, Finding, case_line};
use game_walk::Walk;
use gcg_about::{Encoding, RecordWords, words_of};
use gcg_read::Event;
use lex_check::Checked;
use ref_tiles::Rules;
use repair_answers::Likely;
use sheet_audit::audit_of_wrong;
use sheet_scores::Picture;
use std::alloc::{AllocError, Global};

/// What a page shows of a record besides its events and what is found of it.
#[derive(Drop)]
pub struct PageContents {
    /// The score sheet, with the board at the faulty event or at the end.
    pub sheet: PageSheet,
    /// What the record says in words in addition to its events.
    pub words: RecordWords,
    /// How names are read.
    pub encoding: Encoding,
    /// The place of the faulty event, if there is one.
    pub faulty: Option<usize>,
    /// The line with the verdict.
    pub verdict: Vec<u8>,
    /// What explains it, with the words of the play.
    pub explanation: Option<Explanation>,
    /// The board with the likely repair, if that is one of a play.
    pub repaired: Option<Picture>,
    /// The audit of the sheet, if a number of it is wrong and it has no likely repair: who is ahead by the right numbers.
    pub audit: Option<Audit>,
}

/// The place of the faulty event, if the record has it.
fn faulty_place(events: &[Event], finding: &Finding) -> Option<usize>
    ensures is { result ≡ faulty_place events.now finding.now }
    ensures within { IfSome result (λ place. place < length events.now) }
{
    match place_of_fault(events, finding) {
        Some(place) if place < events.len() => Some(place),
        _ => None,
    }
}

/// The place of the board in view: that of the faulty event, or the end.
fn place_in_view(events: &[Event], faulty: &Option<usize>) -> usize
    requires { IfSome faulty.now (λ place. place < length events.now) }
    ensures is { result ≡ place_in_view events.now faulty.now }
    ensures within { result ≤ length events.now }
{
    match faulty {
        Some(place) => *place,
        None => events.len(),
    }
}

/// The audit of a sheet, if a number of it is wrong and it has no likely repair.
fn audit_without(
    alloc: Global,
    rules: &Rules,
    pair: &Checked<'_>,
    case: &Case,
    likely: &Option<Likely>,
) -> Result<Option<Audit>, AllocError>
    ensures { IfOk result (λ found. (text : List ℕ) → IsCaseOf rules.now (list_in pair.now) text case.now
        → IsAuditShown rules.now (list_in pair.now) text case.now.read likely.now found) }
{
    match likely {
        Some(_) => Ok(None),
        None => audit_of_wrong(alloc, rules, pair, case),
    }
}

/// What the page of a record shows, by its entry and the walk over its events.
pub(crate) fn contents_of(
    alloc: Global,
    rules: &Rules,
    pair: &Checked<'_>,
    case: &Case,
    entry: &Entry,
    walk: &Walk,
    likely: &Option<Likely>,
) -> Result<PageContents, AllocError>
    requires { IsWalkOf rules.now (list_in pair.now) entry.now.record.events walk.now }
    ensures { IfOk result (λ contents. (right : List Event) → IsWalk rules.now (list_in pair.now) entry.now.record.events right walk.now
        → IsCaseOf rules.now (list_in pair.now) case.now.text.items case.now
        → ShowsEntry rules.now (list_in pair.now) case.now.text.items case.now.read likely.now entry.now contents) }
{
    let events = entry.record.events.as_slice();
    let faulty = faulty_place(events, &entry.finding);
    let place = place_in_view(events, &faulty);
    Ok(PageContents {
        sheet: page_sheet(alloc, rules, pair, &entry.record, walk, place)?,
        words: words_of(alloc, case.text.as_slice())?,
        encoding: Encoding::of(case.text.as_slice()),
        faulty,
        verdict: case_line(alloc, case)?,
        explanation: explain(alloc, rules, pair.list(), entry, walk, None)?,
        repaired: repaired_board(likely),
        audit: audit_without(alloc, rules, pair, case, likely)?,
    })
}
