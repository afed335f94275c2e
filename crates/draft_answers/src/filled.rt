//! A draft that is filled.
ghost use Rattle.std.specs.Prelude.{◌≡◌, ◌≤◌, IfOk, length, List, ℕ, Ok};
ghost use Rattle.gcg_read.specs.Records.{record_of, most_bytes};
ghost use Rattle.lex_check.specs.Pairs.{list_in};
ghost use Rattle.sheet_audit.specs.Answers.{IsAuditAnswer, IsAuditAnswerOf};
ghost use Rattle.draft_answers.specs.Filling.{has_missing};
ghost use Rattle.draft_answers.specs.Filled.{IsAnswerOf, IsDrafted, IsFillOf, IsSheetIn, too_long};
ghost use Rattle.draft_answers.specs.Given.{read_of};

use crate::cutting::answer_before;
use crate::faults::DraftFault;
use crate::filling::has_missing;
use crate::given::GivenSheet;
use crate::making::{DraftSheet, sheet_in, too_long};
use engine_stages::{Decision, RunFault};
use game_walk::Refusal;
use gcg_drafts::Missing;
use gcg_numbers::law_of_numbers;
use gcg_read::MAX_BYTES;
use gcg_write::law_of_other_points;
use lex_check::Checked;
use ref_tiles::Rules;
use sheet_audit::{AuditAnswer, answer_audit};
use std::alloc::{AllocError, Global};

/// A draft that is filled.
#[derive(Drop)]
pub struct FilledDraft {
    /// What each event line lacks.
    pub lacks: Vec<Missing>,
    /// The line that the rules refuse with any numbers, if there is one, and why.
    pub stopped: Option<Refusal>,
    /// What `audit` finds on the sheet that the draft makes. If a line is refused and a number is missing, only the wrong numbers before that line are
    /// reported.
    pub answer: AuditAnswer,
}

/// What `audit` finds on a sheet in memory.
#[tactic(auto, using(crate::proofs::ReadTexts::means_read))]
fn given_audit(
    alloc: Global,
    rules: &Rules,
    pair: &Checked<'_>,
    sheet: &[u8],
) -> Result<Result<AuditAnswer, Decision>, RunFault>
    ensures { IfOk result (IsAuditAnswerOf rules.now (list_in pair.now) (read_of sheet.now)) }
{
    let mut input = GivenSheet::new(sheet);
    answer_audit(alloc, rules, pair, &mut input)
}

/// What `audit` finds on a sheet.
fn audited(
    alloc: Global,
    rules: &Rules,
    pair: &Checked<'_>,
    sheet: &[u8],
) -> Result<Result<AuditAnswer, Decision>, AllocError>
    ensures { IfOk result (IsAuditAnswerOf rules.now (list_in pair.now) (read_of sheet.now)) }
{
    match given_audit(alloc, rules, pair, sheet) {
        Ok(found) => Ok(found),
        Err(_) => Err(AllocError),
    }
}

/// What is reported of what `audit` finds: if a line is refused and a number is missing, only the wrong numbers before that line.
fn reported_answer(
    alloc: Global,
    stopped: Option<Refusal>,
    lacking: bool,
    answer: AuditAnswer,
) -> Result<AuditAnswer, AllocError>
    ensures { IfOk result (λ reported. (rules : Rules) (list : List (List ℕ)) (sheet : List ℕ) → IsAuditAnswer rules list sheet answer → IsAnswerOf stopped lacking rules list sheet reported) }
{
    match stopped {
        Some(refusal) if lacking => answer_before(alloc, refusal.line, answer),
        _ => Ok(answer),
    }
}

/// What is found of the sheet that a draft makes.
fn found_of(
    alloc: Global,
    rules: &Rules,
    pair: &Checked<'_>,
    sheet: DraftSheet,
) -> Result<Result<FilledDraft, DraftFault>, AllocError>
    ensures { IfOk result (λ found. (text : List ℕ) → IsDrafted rules.now (list_in pair.now) text sheet.lacks.items sheet.stopped sheet.text.items → IsFillOf rules.now (list_in pair.now) text found) }
{
    law_of_numbers();
    law_of_other_points();
    let text = sheet.text.as_slice();
    if text.len() > MAX_BYTES {
        return Ok(Err(too_long()));
    }
    let answer = match audited(alloc, rules, pair, text)? {
        Ok(answer) => answer,
        Err(_) => return Ok(Err(too_long())),
    };
    let lacking = has_missing(sheet.lacks.as_slice());
    let reported = reported_answer(alloc, sheet.stopped, lacking, answer)?;
    Ok(Ok(FilledDraft {
        lacks: sheet.lacks,
        stopped: sheet.stopped,
        answer: reported,
    }))
}

/// Reads a draft and fills it: the right numbers are put in the place of those that are missing, and the sheet that this makes is audited, as
/// `audit` does it, with the verdict by search of the corrected record. Or the first fault of the draft.
///
/// If the rules refuse a line with any numbers, the numbers before that line are put in. The wrong numbers after it are reported only if no number is missing,
/// since it is not known there what is right.
///
/// It fails only if memory runs out.
#[tactic(auto, using(crate::proofs::Sheets::not_filled))]
pub fn fill_draft(
    alloc: Global,
    rules: &Rules,
    pair: &Checked<'_>,
    text: &[u8],
) -> Result<Result<FilledDraft, DraftFault>, AllocError>
    ensures { IfOk result (IsFillOf rules.now (list_in pair.now) text.now) }
{
    match sheet_in(alloc, rules, pair.list(), text)? {
        Ok(sheet) => found_of(alloc, rules, pair, sheet),
        Err(fault) => Ok(Err(fault)),
    }
}
