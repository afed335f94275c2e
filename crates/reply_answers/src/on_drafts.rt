//! What is found of a text that is to be a draft: what is found of the sheet that the draft makes.
ghost use Rattle.std.specs.Prelude.{◌≡◌, Bool, true, false, IfOk};
ghost use Rattle.lex_check.specs.Pairs.{list_in};
ghost use Rattle.reply_answers.specs.Explained.{IsExplainedCase};
ghost use Rattle.reply_answers.specs.Given.{FailsForMemoryAlone, read_of};
ghost use Rattle.draft_answers.specs.Filled.{IsDraftSheet};
ghost use Rattle.draft_answers.specs.Filling.{has_missing};
ghost use Rattle.game_case.specs.Explaining.{IsCaseOf, HasItsWalk};
ghost use Rattle.reply_answers.specs.DraftFacts.{IsExplanationWithout};
ghost use Rattle.reply_answers.specs.Repaired.{IsRepairedDraft};
ghost use Rattle.reply_answers.specs.OnDrafts.{events_of, unless, IsReportedOf, IsExplainedAs, IsExplainedOf, IsRepairedOf, IsShownOf};

use crate::draft_facts::explanation_without;
use crate::explained::{ExplainedCase, explained};
use crate::games::{case_in, unread_in};
use crate::read_sheets::{ShownSheet, shown_sheet};
use crate::repaired::{RepairedCase, repaired, repairs_asked};
use draft_answers::{DraftFault, DraftSheet, board_sheet, draft_sheet, has_missing};
use engine_stages::RunFault;
use explain_answers::Explanation;
use game_case::{Audit, Case, Entry};
use gcg_drafts::Missing;
use gcg_read::ReadFault;
use lex_check::Checked;
use ref_tiles::Rules;
use repair_answers::answer_draft;
use std::alloc::{AllocError, Global};

/// The sheet of a draft with what explains it or one of its lines.
fn explained_sheet(
    alloc: Global,
    rules: &Rules,
    pair: &Checked<'_>,
    sheet: &DraftSheet,
    line: Option<u32>,
    lead: bool,
) -> Result<ExplainedCase, RunFault>
    ensures found { IfOk result (IsExplainedCase rules.now (list_in pair.now) (read_of sheet.now.text.items) line false lead) }
    ensures memory { FailsForMemoryAlone result }
{
    explained(alloc, rules, pair, sheet.text.as_slice(), line, false, lead)
}

/// What explains the sheet of a draft, without what rests on numbers that are missing.
fn explanation_on(
    lacks: &[Missing],
    read: &Result<Entry, ReadFault>,
    found: Option<Explanation>,
) -> Option<Explanation>
    ensures { IsExplanationWithout (has_missing lacks.now) lacks.now (events_of read.now) found result }
{
    let some_line = has_missing(lacks);
    match read {
        Ok(entry) => explanation_without(some_line, lacks, entry.record.events.as_slice(), found),
        Err(_) => explanation_without(some_line, lacks, &[], found),
    }
}

/// Nothing, if it is not known.
fn unless(unknown: bool, wrong: Option<Audit>) -> Option<Audit>
    ensures { result ≡ unless unknown wrong }
{
    if unknown { None } else { wrong }
}

/// What was found of the sheet of a draft, without what rests on numbers that are missing, and with the lines as they are in the draft.
fn reported_of(
    alloc: Global,
    found: ExplainedCase,
    draft: &[u8],
    sheet: &DraftSheet,
) -> Result<ExplainedCase, AllocError>
    ensures { IfOk result (IsReportedOf draft.now sheet.now found) }
{
    let ExplainedCase {
        case,
        line,
        explanation,
        likely,
        amount,
        wrong,
        unread,
    } = found;
    let Case { read, walk, .. } = case;
    let text = Vec::from_slice(alloc, draft)?;
    let lacks = sheet.lacks.as_slice();
    let unknown = sheet.stopped.is_some() && has_missing(lacks);
    let explanation = explanation_on(lacks, &read, explanation);
    Ok(ExplainedCase {
        case: Case { text, read, walk },
        line,
        explanation,
        likely,
        amount,
        wrong: unless(unknown, wrong),
        unread,
    })
}

/// What explains the sheet of a draft or one of its lines, with the lines as they are in the draft.
#[tactic(auto, using(crate::proofs::OnDrafts::sheet_explained))]
fn explained_on(
    alloc: Global,
    rules: &Rules,
    pair: &Checked<'_>,
    sheet: &DraftSheet,
    draft: &[u8],
    line: Option<u32>,
    lead: bool,
) -> Result<ExplainedCase, RunFault>
    ensures found { IfOk result (λ x. (likely : Bool) → IsDraftSheet rules.now (list_in pair.now) draft.now sheet.now
        → IsExplainedAs true rules.now (list_in pair.now) draft.now line likely lead x) }
    ensures memory { FailsForMemoryAlone result }
{
    let found = explained_sheet(alloc, rules, pair, sheet, line, lead)?;
    Ok(reported_of(alloc, found, draft, sheet)?)
}

/// What explains a draft or one of its lines, without a likely repair; or the first fault of the draft.
#[tactic(auto, using(crate::proofs::OnDrafts::draft_explained, crate::proofs::OnDrafts::not_explained))]
fn explained_draft(
    alloc: Global,
    rules: &Rules,
    pair: &Checked<'_>,
    draft: &[u8],
    line: Option<u32>,
    lead: bool,
) -> Result<Result<ExplainedCase, DraftFault>, RunFault>
    ensures found { IfOk result (λ found. (likely : Bool) → IsExplainedOf true rules.now (list_in pair.now) draft.now line likely lead found) }
    ensures memory { FailsForMemoryAlone result }
{
    match draft_sheet(alloc, rules, pair.list(), draft)? {
        Ok(sheet) => Ok(Ok(explained_on(alloc, rules, pair, &sheet, draft, line, lead)?)),
        Err(fault) => Ok(Err(fault)),
    }
}

/// What explains a game or one of its lines, or a draft, if the text is to be one: what `explain` finds.
pub fn explained_as(
    alloc: Global,
    rules: &Rules,
    pair: &Checked<'_>,
    game: &[u8],
    line: Option<u32>,
    likely: bool,
    lead: bool,
    draft: bool,
) -> Result<Result<ExplainedCase, DraftFault>, RunFault>
    ensures found { IfOk result (IsExplainedOf draft rules.now (list_in pair.now) game.now line likely lead) }
    ensures memory { FailsForMemoryAlone result }
{
    if draft {
        return explained_draft(alloc, rules, pair, game, line, lead);
    }
    Ok(Ok(explained(alloc, rules, pair, game, line, likely, lead)?))
}

/// The case of the sheet of a draft with what repairs the draft, in at most `most` lines.
#[tactic(auto, using(crate::proofs::Repairing::of_draft))]
fn repaired_case(
    alloc: Global,
    rules: &Rules,
    pair: &Checked<'_>,
    sheet: DraftSheet,
    case: Case,
    number: Option<u32>,
    asked: bool,
) -> Result<RepairedCase, AllocError>
    requires { HasItsWalk rules.now (list_in pair.now) case }
    ensures { IfOk result (λ x. IsCaseOf rules.now (list_in pair.now) (read_of sheet.text.items) case
        → IsRepairedDraft rules.now (list_in pair.now) sheet number asked x) }
{
    let mut case = case;
    let lacks = sheet.lacks;
    let most = repairs_asked(number);
    let answer = answer_draft(alloc, rules, pair, lacks.as_slice(), &mut case, most)?;
    let unread = unread_in(alloc, &case)?;
    Ok(RepairedCase {
        case,
        answer,
        asked,
        lacks,
        unread,
    })
}

/// The same, given the sheet.
fn repaired_sheet(
    alloc: Global,
    rules: &Rules,
    pair: &Checked<'_>,
    sheet: DraftSheet,
    number: Option<u32>,
    asked: bool,
) -> Result<RepairedCase, RunFault>
    ensures found { IfOk result (IsRepairedDraft rules.now (list_in pair.now) sheet number asked) }
    ensures memory { FailsForMemoryAlone result }
{
    let case = case_in(alloc, rules, pair, sheet.text.as_slice())?;
    Ok(repaired_case(alloc, rules, pair, sheet, case, number, asked)?)
}

/// What repairs a draft; or the first fault of the draft.
#[tactic(auto, using(crate::proofs::OnDrafts::draft_repaired, crate::proofs::OnDrafts::not_repaired))]
fn repaired_draft(
    alloc: Global,
    rules: &Rules,
    pair: &Checked<'_>,
    draft: &[u8],
    number: Option<u32>,
    asked: bool,
) -> Result<Result<RepairedCase, DraftFault>, RunFault>
    ensures found { IfOk result (IsRepairedOf true rules.now (list_in pair.now) draft.now number asked) }
    ensures memory { FailsForMemoryAlone result }
{
    match draft_sheet(alloc, rules, pair.list(), draft)? {
        Ok(sheet) => Ok(Ok(repaired_sheet(alloc, rules, pair, sheet, number, asked)?)),
        Err(fault) => Ok(Err(fault)),
    }
}

/// What repairs a game, or a draft, if the text is to be one: what `repair` finds; and whether the repaired sheet is asked for.
pub fn repaired_as(
    alloc: Global,
    rules: &Rules,
    pair: &Checked<'_>,
    game: &[u8],
    number: Option<u32>,
    asked: bool,
    draft: bool,
) -> Result<Result<RepairedCase, DraftFault>, RunFault>
    ensures found { IfOk result (IsRepairedOf draft rules.now (list_in pair.now) game.now number asked) }
    ensures memory { FailsForMemoryAlone result }
{
    if draft {
        return repaired_draft(alloc, rules, pair, game, number, asked);
    }
    Ok(Ok(repaired(alloc, rules, pair, game, number, asked)?))
}

/// The board of a draft, before a line if one is named; or the first fault of the draft.
#[tactic(auto, using(crate::proofs::OnDrafts::draft_shown, crate::proofs::OnDrafts::not_shown))]
fn shown_draft(
    alloc: Global,
    rules: &Rules,
    draft: &[u8],
    line: Option<u32>,
) -> Result<Result<ShownSheet, DraftFault>, RunFault>
    ensures found { IfOk result (IsShownOf true rules.now line draft.now) }
    ensures memory { FailsForMemoryAlone result }
{
    match board_sheet(alloc, rules, draft)? {
        Ok(sheet) => Ok(Ok(shown_sheet(alloc, rules, sheet.text.as_slice(), line)?)),
        Err(fault) => Ok(Err(fault)),
    }
}

/// The board of a game, before a line if one is named, or that of a draft, if the text is to be one: what `board` shows.
pub fn shown_as(
    alloc: Global,
    rules: &Rules,
    game: &[u8],
    line: Option<u32>,
    draft: bool,
) -> Result<Result<ShownSheet, DraftFault>, RunFault>
    ensures found { IfOk result (IsShownOf draft rules.now line game.now) }
    ensures memory { FailsForMemoryAlone result }
{
    if draft {
        return shown_draft(alloc, rules, game, line);
    }
    Ok(Ok(shown_sheet(alloc, rules, game, line)?))
}
