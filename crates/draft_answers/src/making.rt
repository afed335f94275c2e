//! The sheet that a draft makes.
ghost use Rattle.std.specs.Prelude.{◌≡◌, IfOk, List, [], ℕ};
ghost use Rattle.gcg_numbers.specs.Numbers.{text_with};
ghost use Rattle.gcg_drafts.specs.Drafts.{IsDraft};
ghost use Rattle.draft_answers.specs.Filling.{has_missing};
ghost use Rattle.draft_answers.specs.KnownTotals.{IsBoardSheet, IsBoardSheetOf};
ghost use Rattle.draft_answers.specs.Filled.{AreFilled, IsDrafted, IsSheetIn, IsSheetOf, too_long};

use crate::carrying::{carry_totals, place_of_stop};
use crate::faults::{DraftFault, reported_fault};
use crate::filling::{filled, has_missing};
use game_walk::{Refusal, numbers_of, renumber, walk_and_correct};
use gcg_drafts::{Draft, Missing, read_draft};
use gcg_numbers::push_with_numbers;
use gcg_read::{Event, Events, MAX_BYTES, ReadFault, Why};
use lex_list::WordList;
use ref_tiles::Rules;
use std::alloc::{AllocError, Global};

/// The sheet that a draft makes: its text with the right numbers in the place of those that are missing, as far as they are known.
#[derive(Drop)]
pub struct DraftSheet {
    /// What each event line of the draft lacks.
    pub lacks: Vec<Missing>,
    /// The line that the rules refuse with any numbers, if there is one, and why. From this line on a score that is missing is `+0`, and a total `0`;
    /// but the missing score of this line is the right one, if that is known.
    pub stopped: Option<Refusal>,
    /// The text.
    pub text: Vec<u8>,
}

/// Leaves the numbers of events that are written, and puts the right ones in the place of those that are missing. Returns the line that the rules
/// refuse with any numbers.
#[tactic(auto, using(crate::proofs::Rights::are_filled, crate::proofs::Sheets::as_many))]
fn fill_events(
    alloc: Global,
    rules: &Rules,
    list: &WordList,
    lacks: &[Missing],
    events: &mut Events,
) -> Result<Option<Refusal>, AllocError>
    ensures { IfOk result (AreFilled rules.now list.now lacks.now events.old events.new) }
{
    let written = numbers_of(alloc, events.as_slice())?;
    let walk = walk_and_correct(alloc, rules, list, events)?;
    let right = numbers_of(alloc, events.as_slice())?;
    let numbers = filled(alloc, lacks, written.as_slice(), right.as_slice())?;
    renumber(events, numbers.as_slice());
    Ok(walk.refused_for_good())
}

/// The text of a sheet with the numbers of events.
fn with_numbers(alloc: Global, text: &[u8], events: &[Event]) -> Result<Vec<u8>, AllocError>
    ensures { IfOk result (λ sheet. sheet.items ≡ text_with events.now text.now) }
{
    let mut sheet = Vec::new(alloc);
    push_with_numbers(&mut sheet, text, events)?;
    Ok(sheet)
}

/// The sheet that a draft makes.
#[tactic(auto, using(crate::proofs::Sheets::drafted))]
fn sheet_of(
    alloc: Global,
    rules: &Rules,
    list: &WordList,
    draft: Draft,
) -> Result<DraftSheet, AllocError>
    ensures { IfOk result (λ s. (text : List ℕ) → IsDraft text draft → IsDrafted rules.now list.now text s.lacks.items s.stopped s.text.items) }
{
    let Draft {
        text,
        record,
        missing,
    } = draft;
    let mut events = record.events;
    let stopped = fill_events(alloc, rules, list, missing.as_slice(), &mut events)?;
    if !has_missing(missing.as_slice()) {
        return Ok(DraftSheet {
            lacks: missing,
            stopped,
            text,
        });
    }
    let sheet = with_numbers(alloc, text.as_slice(), events.as_slice())?;
    Ok(DraftSheet {
        lacks: missing,
        stopped,
        text: sheet,
    })
}

/// The sheet of a draft for its board: with the last totals that are known.
#[tactic(auto, using(crate::proofs::BoardSheets::made))]
fn board_sheet_of(
    alloc: Global,
    rules: &Rules,
    list: &WordList,
    draft: Draft,
) -> Result<DraftSheet, AllocError>
    ensures { IfOk result (λ s. (text : List ℕ) → IsDraft text draft → list.now ≡ [] → IsBoardSheet rules.now text s) }
{
    let Draft {
        text,
        record,
        missing,
    } = draft;
    let mut events = record.events;
    let stopped = fill_events(alloc, rules, list, missing.as_slice(), &mut events)?;
    let stop = place_of_stop(events.as_slice(), &stopped);
    carry_totals(&mut events, missing.as_slice(), stop);
    let sheet = with_numbers(alloc, text.as_slice(), events.as_slice())?;
    Ok(DraftSheet {
        lacks: missing,
        stopped,
        text: sheet,
    })
}

/// Reads a draft and makes its sheet, however long that is; or the first fault of the draft.
///
/// It fails only if memory runs out.
#[tactic(auto, using(crate::proofs::Sheets::no_draft))]
pub(crate) fn sheet_in(
    alloc: Global,
    rules: &Rules,
    list: &WordList,
    text: &[u8],
) -> Result<Result<DraftSheet, DraftFault>, AllocError>
    ensures { IfOk result (IsSheetIn rules.now list.now text.now) }
{
    match read_draft(alloc, text) {
        Ok(draft) => Ok(Ok(sheet_of(alloc, rules, list, draft)?)),
        Err(fault) => {
            if fault.why == Why::NoMemory {
                return Err(AllocError);
            }
            Ok(Err(reported_fault(text, fault)))
        }
    }
}

/// The fault of a draft that makes a sheet longer than a record may be.
pub(crate) fn too_long() -> DraftFault
    ensures { result ≡ too_long }
{
    DraftFault {
        fault: ReadFault {
            line: 0,
            why: Why::TooLong,
        },
        amiss: None,
    }
}

/// Reads a draft and makes its sheet: the text with the right numbers in the place of those that are missing. It is what a command with `--draft` goes
/// on with. Or the first fault of the draft.
///
/// It fails only if memory runs out.
#[tactic(auto, using(crate::proofs::Sheets::short_sheet, crate::proofs::Sheets::long_draft))]
pub fn draft_sheet(
    alloc: Global,
    rules: &Rules,
    list: &WordList,
    text: &[u8],
) -> Result<Result<DraftSheet, DraftFault>, AllocError>
    ensures { IfOk result (IsSheetOf rules.now list.now text.now) }
{
    match sheet_in(alloc, rules, list, text)? {
        Ok(sheet) => {
            if sheet.text.len() > MAX_BYTES {
                return Ok(Err(too_long()));
            }
            Ok(Ok(sheet))
        }
        Err(fault) => Ok(Err(fault)),
    }
}

/// A list without words.
#[tactic(auto, using(crate::proofs::BoardSheets::is_empty))]
fn no_words(alloc: Global) -> Result<WordList, AllocError>
    ensures { IfOk result (λ list. list ≡ []) }
{
    match WordList::read(alloc, b"") {
        Ok(list) => Ok(list),
        Err(_) => Err(AllocError),
    }
}

/// The sheet of a draft for its board, if it is no longer than a record may be.
#[tactic(auto, using(crate::proofs::BoardSheets::long_draft))]
fn board_sheet_in(
    alloc: Global,
    rules: &Rules,
    list: &WordList,
    draft: Draft,
) -> Result<Result<DraftSheet, DraftFault>, AllocError>
    ensures { IfOk result (λ s. (text : List ℕ) → IsDraft text draft → list.now ≡ [] → IsBoardSheetOf rules.now text s) }
{
    let sheet = board_sheet_of(alloc, rules, list, draft)?;
    if sheet.text.len() > MAX_BYTES {
        return Ok(Err(too_long()));
    }
    Ok(Ok(sheet))
}

/// Reads a draft and makes its sheet for its board, without words: the right numbers are in the place of those that are missing as far as they are known
/// without words, which is up to a challenge or a line that the rules refuse; from there on a total that is missing is the last one that is known. Or the
/// first fault of the draft.
///
/// It fails only if memory runs out.
#[tactic(auto, using(crate::proofs::BoardSheets::no_draft))]
pub fn board_sheet(
    alloc: Global,
    rules: &Rules,
    text: &[u8],
) -> Result<Result<DraftSheet, DraftFault>, AllocError>
    ensures { IfOk result (IsBoardSheetOf rules.now text.now) }
{
    let list = no_words(alloc)?;
    match read_draft(alloc, text) {
        Ok(draft) => board_sheet_in(alloc, rules, &list, draft),
        Err(fault) => {
            if fault.why == Why::NoMemory {
                return Err(AllocError);
            }
            Ok(Err(reported_fault(text, fault)))
        }
    }
}
