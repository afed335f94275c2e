//! The case of a record with what explains it or one of its lines.
ghost use Rattle.std.specs.Prelude.{◌≡◌, ◌&&◌, is_none, ℕ, List, IfOk, OnOk};
ghost use Rattle.lex_check.specs.Pairs.{list_in};
ghost use Rattle.game_case.specs.Explaining.{IsCaseOf, HasItsWalk};
ghost use Rattle.reply_answers.specs.Explained.{has_wrong_total, IsAmountAsked, IsCaseExplanation, IsWrongAsked, Explains, IsExplainedCase};
ghost use Rattle.reply_answers.specs.Given.{FailsForMemoryAlone, read_of};

use crate::games::{case_in, unread_in};
use engine_stages::{GameFault, RunFault};
use explain_answers::{Explanation, explain};
use game_case::{Audit, Case, Entry, Finding};
use game_turns::RuleFault;
use gcg_unread::UnreadLine;
use lex_check::Checked;
use lex_list::WordList;
use page_answers::likely_asked;
use ref_tiles::Rules;
use repair_answers::{Likely, amount_repair};
use repair_single::Repair;
use sheet_audit::audit_of_wrong;
use std::alloc::{AllocError, Global};

/// The case of a record with what explains it or one of its lines.
#[derive(Drop)]
pub struct ExplainedCase {
    /// The case.
    pub case: Case,
    /// The line that is named, if one is.
    pub line: Option<u32>,
    /// What explains the verdict on the record, or its event on the line or after it, if there is one.
    pub explanation: Option<Explanation>,
    /// The likely repair of the record, if it is requested and there is one.
    pub likely: Option<Likely>,
    /// A bonus or a penalty that would explain the numbers, if that is requested, there is no likely repair, and there is one.
    pub amount: Option<Repair>,
    /// The audit of the sheet, if it is requested, there is no likely repair, and a number is wrong.
    pub wrong: Option<Audit>,
    /// The lines of the record that are not read although they look like events.
    pub unread: Vec<UnreadLine>,
}

/// What explains a case, or one of its lines.
fn explanation_of(
    alloc: Global,
    rules: &Rules,
    list: &WordList,
    case: &Case,
    line: Option<u32>,
) -> Result<Option<Explanation>, AllocError>
    requires { HasItsWalk rules.now list.now case.now }
    ensures { IfOk result (IsCaseExplanation rules.now list.now case.now.read line) }
{
    match (&case.read, &case.walk) {
        (Ok(entry), Some(walk)) => explain(alloc, rules, list, entry, walk, line),
        (Ok(_), None) => unreachable!(),
        (Err(_), _) => Ok(None),
    }
}

/// Whether the first fault of a record is a wrong total.
fn has_wrong_total(entry: &Entry) -> bool
    ensures { result ≡ has_wrong_total entry.now.finding }
{
    matches!(
        entry.finding,
        Finding::Illegal {
            fault: GameFault::Rule(RuleFault::WrongTotal(_)),
            ..
        }
    )
}

/// A bonus or a penalty that would explain the numbers of a case, if that is asked for. Afterwards the case is as it was.
fn amount_asked(
    alloc: Global,
    rules: &Rules,
    pair: &Checked<'_>,
    case: &mut Case,
    asked: bool,
) -> Result<Option<Repair>, AllocError>
    ensures amount { IfOk result (IsAmountAsked asked rules.now (list_in pair.now) case.old.read) }
    ensures same { OnOk result (case.new ≡ case.old) }
{
    if !asked {
        return Ok(None);
    }
    match &mut case.read {
        Ok(entry) if has_wrong_total(entry) => amount_repair(alloc, rules, pair, &mut entry.record),
        _ => Ok(None),
    }
}

/// The audit of the sheet of a case, if that is asked for and a number is wrong.
fn wrong_asked(
    alloc: Global,
    rules: &Rules,
    pair: &Checked<'_>,
    case: &Case,
    asked: bool,
) -> Result<Option<Audit>, AllocError>
    ensures { IfOk result (λ wrong. (text : List ℕ) → IsCaseOf rules.now (list_in pair.now) text case.now
        → IsWrongAsked asked rules.now (list_in pair.now) text case.now.read wrong) }
{
    if asked {
        audit_of_wrong(alloc, rules, pair, case)
    } else {
        Ok(None)
    }
}

/// Whether something is asked of the record as a whole.
fn is_wanted(asked: bool, line: Option<u32>) -> bool
    ensures { result ≡ (asked && is_none line) }
{
    asked && line.is_none()
}

/// Whether it is asked who is ahead, of the record as a whole, and there is no likely repair.
fn is_lead_wanted(asked: bool, line: Option<u32>, likely: &Option<Likely>) -> bool
    ensures { result ≡ (asked && is_none line && is_none likely.now) }
{
    asked && line.is_none() && likely.is_none()
}

/// A case with what explains it or one of its lines, and what else is asked.
#[tactic(auto, using(crate::proofs::Explaining::explained))]
fn explained_of(
    alloc: Global,
    rules: &Rules,
    pair: &Checked<'_>,
    case: Case,
    line: Option<u32>,
    likely: bool,
    lead: bool,
) -> Result<ExplainedCase, AllocError>
    requires { HasItsWalk rules.now (list_in pair.now) case }
    ensures { IfOk result (Explains rules.now (list_in pair.now) case line likely lead) }
{
    let mut case = case;
    let explanation = explanation_of(alloc, rules, pair.list(), &case, line)?;
    let wanted = is_wanted(likely, line);
    let repair = likely_asked(alloc, rules, pair, &mut case, wanted)?;
    let asked = is_lead_wanted(lead, line, &repair);
    let amount = amount_asked(alloc, rules, pair, &mut case, asked)?;
    let wrong = wrong_asked(alloc, rules, pair, &case, asked)?;
    let unread = unread_in(alloc, &case)?;
    Ok(ExplainedCase {
        case,
        line,
        explanation,
        likely: repair,
        amount,
        wrong,
        unread,
    })
}

/// The case of a record with what explains it or one of its lines: what `explain` finds.
#[tactic(auto, using(crate::proofs::Explaining::of_text))]
pub fn explained(
    alloc: Global,
    rules: &Rules,
    pair: &Checked<'_>,
    game: &[u8],
    line: Option<u32>,
    likely: bool,
    lead: bool,
) -> Result<ExplainedCase, RunFault>
    ensures explained { IfOk result (IsExplainedCase rules.now (list_in pair.now) (read_of game.now) line likely lead) }
    ensures memory { FailsForMemoryAlone result }
{
    let case = case_in(alloc, rules, pair, game)?;
    Ok(explained_of(alloc, rules, pair, case, line, likely, lead)?)
}
