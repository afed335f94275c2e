//! What is found of two sheets.
ghost use Rattle.std.specs.Prelude.{◌≡◌, true, IfOk};
ghost use Rattle.lex_check.specs.Pairs.{list_in};
ghost use Rattle.reply_answers.specs.Compared.{IsSheetRead, IsSheetReadAs, AreLacks, IsComparedOf};
ghost use Rattle.reply_answers.specs.Given.{FailsForMemoryAlone, read_of};

use crate::tidying::bytes_read;
use compare_alignments::Lacks;
use compare_answers::{ComparisonAnswer, answer_comparison};
use draft_answers::{DraftFault, draft_in, has_missing};
use engine_stages::{RunFault, game_from};
use gcg_about::Encoding;
use gcg_drafts::Missing;
use gcg_read::{ReadFault, Record};
use gcg_unread::{UnreadLine, unread_lines};
use lex_check::Checked;
use lex_list::WordList;
use ref_tiles::Rules;
use std::alloc::{AllocError, Global};

/// Why there is nothing to compare on a sheet.
#[derive(Drop)]
pub enum BadSheet {
    /// Its text is not a record.
    NoRecord(ReadFault),
    /// Its text is to be a draft, and is none.
    NoDraft(DraftFault),
    /// Its record has no event; these lines are not read although they look like events.
    NoEvent(Vec<UnreadLine>),
}

/// What is found of two sheets.
#[derive(Drop)]
pub enum SheetsFound {
    /// Both are records with events.
    Both(BothCompared),
    /// The first is not one.
    FirstBad(BadSheet),
    /// The first is one, and the second is not.
    SecondBad(BadSheet),
}

/// Two sheets that are compared.
#[derive(Drop)]
pub struct BothCompared {
    /// What is found of them.
    pub answer: ComparisonAnswer,
    /// The encoding of the first.
    pub encoding: Encoding,
    /// Whether the merged record is requested.
    pub merged: bool,
}

/// The record of a sheet, or why there is nothing to compare on it.
#[tactic(auto, using(crate::proofs::Comparing::has_events, crate::proofs::Comparing::has_no_event))]
fn record_on(alloc: Global, text: &[u8]) -> Result<Result<Record, BadSheet>, AllocError>
    ensures { IfOk result (IsSheetRead text.now) }
{
    match game_from(alloc, text)? {
        Ok(record) => {
            if record.events.is_empty() {
                return Ok(Err(BadSheet::NoEvent(unread_lines(alloc, text)?)));
            }
            Ok(Ok(record))
        }
        Err(fault) => Ok(Err(BadSheet::NoRecord(fault))),
    }
}

/// A sheet to compare: its record, and what its lines lack.
#[derive(Drop)]
struct ReadSheet {
    /// The record; of a draft, that with 0 in the place of the numbers that are missing.
    game: Record,
    /// What its lines lack.
    lacks: Vec<Missing>,
}

/// The draft of a sheet, or why there is nothing to compare on it.
#[tactic(auto, using(crate::proofs::Comparing::draft_read, crate::proofs::Comparing::draft_without_event))]
fn draft_on(alloc: Global, text: &[u8]) -> Result<Result<ReadSheet, BadSheet>, AllocError>
    ensures { IfOk result (IsSheetReadAs true text.now) }
{
    match draft_in(alloc, text)? {
        Ok(draft) => {
            if draft.record.events.is_empty() {
                return Ok(Err(BadSheet::NoEvent(unread_lines(alloc, text)?)));
            }
            Ok(Ok(ReadSheet {
                game: draft.record,
                lacks: draft.missing,
            }))
        }
        Err(fault) => Ok(Err(BadSheet::NoDraft(fault))),
    }
}

/// The record of a sheet, or the draft, if the text is to be one; or why there is nothing to compare on it.
#[tactic(auto, using(crate::proofs::Comparing::record_read))]
fn read_on(
    alloc: Global,
    text: &[u8],
    draft: bool,
) -> Result<Result<ReadSheet, BadSheet>, AllocError>
    ensures { IfOk result (IsSheetReadAs draft text.now) }
{
    if draft {
        return draft_on(alloc, text);
    }
    match record_on(alloc, text)? {
        Ok(record) => Ok(Ok(ReadSheet {
            game: record,
            lacks: Vec::new(alloc),
        })),
        Err(bad) => Ok(Err(bad)),
    }
}

/// What the lines of two sheets lack, if a number is missing on one of them.
fn lacks_of(first: Vec<Missing>, second: Vec<Missing>) -> Option<Lacks>
    ensures { AreLacks first.items second.items result }
{
    if has_missing(first.as_slice()) || has_missing(second.as_slice()) {
        Some(Lacks { first, second })
    } else {
        None
    }
}

/// What is found of two texts.
#[tactic(auto, using(crate::proofs::Comparing::both_found, crate::proofs::Comparing::second_bad))]
fn compared_of(
    alloc: Global,
    rules: &Rules,
    list: &WordList,
    first: &[u8],
    second: &[u8],
    merged: bool,
    draft: bool,
) -> Result<SheetsFound, AllocError>
    ensures { IfOk result (IsComparedOf draft rules.now list.now first.now second.now merged) }
{
    let one = match read_on(alloc, first, draft)? {
        Ok(sheet) => sheet,
        Err(bad) => return Ok(SheetsFound::FirstBad(bad)),
    };
    let other = match read_on(alloc, second, draft)? {
        Ok(sheet) => sheet,
        Err(bad) => return Ok(SheetsFound::SecondBad(bad)),
    };
    let lacks = lacks_of(one.lacks, other.lacks);
    let answer = answer_comparison(alloc, rules, list, one.game, other.game, lacks)?;
    Ok(SheetsFound::Both(BothCompared {
        answer,
        encoding: Encoding::of(first),
        merged,
    }))
}

/// What is found of two sheets, or of two drafts if the texts are to be read as drafts: what `compare` finds.
pub fn compared(
    alloc: Global,
    rules: &Rules,
    pair: &Checked<'_>,
    first: &[u8],
    second: &[u8],
    merged: bool,
    draft: bool,
) -> Result<SheetsFound, RunFault>
    ensures compared { IfOk result (IsComparedOf draft rules.now (list_in pair.now) (read_of first.now) (read_of second.now) merged) }
    ensures memory { FailsForMemoryAlone result }
{
    let one = bytes_read(alloc, first)?;
    let other = bytes_read(alloc, second)?;
    Ok(compared_of(
        alloc,
        rules,
        pair.list(),
        one.as_slice(),
        other.as_slice(),
        merged,
        draft,
    )?)
}
