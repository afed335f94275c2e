//! Replies as objects for programs.
ghost use Rattle.std.specs.Prelude.{◌≡◌, Some, None, IfOk};
ghost use Rattle.json_trees.specs.Texts.{json_line};
ghost use Rattle.json_trees.specs.Trees.{view};
ghost use Rattle.json_base.specs.Refusals.{checked_object, decision_object};
ghost use Rattle.reply_texts.specs.Cases.{case_object};
ghost use Rattle.draft_json.specs.Faults.{bad_object};
ghost use Rattle.reply_texts.specs.Bodies.{object_in, text_in};
ghost use Rattle.reply_texts.specs.Objects.{boarded_of, is_done, judged_of, next_of, object_of, plays_of, ruled_of, tidied_object, tidied_text, IsInObject, IsShownAs, IsText};

use crate::audits::audited_body;
use crate::bodies::Body;
use crate::case_objects::case_tree;
use crate::compared::compared_body;
use crate::drafted::{filled_body, next_of};
use crate::made::{annotated_body, paged_body};
use crate::repaired::repaired_body;
use crate::ruled::ruled_of;
use draft_answers::{DraftFault, DraftNext};
use draft_json::bad_draft_tree;
use engine_stages::{Decision, Verdict};
use game_answers::FoundPlays;
use game_json::{found_tree, judged_tree};
use json_base::{checked_tree, decision_tree};
use json_trees::{Tree, line_of};
use reply_answers::{ExplainedCase, JudgedSheet, Reply, Ruled, ShownSheet};
use reply_calls::Printed;
use sheet_json::board_tree;
use std::alloc::{AllocError, Global};

/// That an input is bad: the object and an LF.
pub fn refusal_object(alloc: Global, decision: &Decision) -> Result<Vec<u8>, AllocError>
    ensures { IfOk result (λ text. text.items ≡ json_line (decision_object decision.now)) }
{
    let tree = decision_tree(alloc, decision)?;
    line_of(alloc, &tree)
}

/// A judged game.
fn judged_of(alloc: Global, sheet: &JudgedSheet) -> Result<Tree, AllocError>
    ensures { IfOk result (λ tree. view tree ≡ judged_of sheet.now.found sheet.now.unread.items) }
{
    match &sheet.found {
        Ok(game) => judged_tree(alloc, game, sheet.unread.as_slice()),
        Err(decision) => decision_tree(alloc, decision),
    }
}

/// A judged game, for a program.
fn judged_body(alloc: Global, sheet: &JudgedSheet) -> Result<Body, AllocError>
    ensures has_object { IfOk result (λ body. object_in body ≡ Some (judged_of sheet.now.found sheet.now.unread.items)) }
    ensures has_text { IfOk result (λ body. text_in body ≡ None) }
{
    Ok(Body::Object(judged_of(alloc, sheet)?))
}

/// A case with what explains it or one of its lines, and its likely repair, for a program.
fn explained_body(alloc: Global, explained: &ExplainedCase) -> Result<Body, AllocError>
    ensures has_object { IfOk result (λ body. object_in body
        ≡ Some (case_object explained.now.case explained.now.explanation explained.now.likely explained.now.unread.items)) }
    ensures has_text { IfOk result (λ body. text_in body ≡ None) }
{
    let reported = explained.explanation.as_ref();
    let likely = explained.likely.as_ref();
    let unread = explained.unread.as_slice();
    let object = case_tree(alloc, &explained.case, reported, likely, unread)?;
    Ok(Body::Object(object))
}

/// A board.
fn boarded_of(alloc: Global, sheet: &ShownSheet) -> Result<Tree, AllocError>
    ensures { IfOk result (λ tree. view tree ≡ boarded_of sheet.now.found sheet.now.unread.items) }
{
    match &sheet.found {
        Ok(shown) => board_tree(alloc, shown, sheet.unread.as_slice()),
        Err(decision) => decision_tree(alloc, decision),
    }
}

/// A board, for a program.
fn boarded_body(alloc: Global, sheet: &ShownSheet) -> Result<Body, AllocError>
    ensures has_object { IfOk result (λ body. object_in body ≡ Some (boarded_of sheet.now.found sheet.now.unread.items)) }
    ensures has_text { IfOk result (λ body. text_in body ≡ None) }
{
    Ok(Body::Object(boarded_of(alloc, sheet)?))
}

/// The best plays before a line.
fn plays_of(alloc: Global, found: &Result<FoundPlays, Decision>) -> Result<Tree, AllocError>
    ensures { IfOk result (λ tree. view tree ≡ plays_of found.now) }
{
    match found {
        Ok(plays) => found_tree(alloc, plays),
        Err(decision) => decision_tree(alloc, decision),
    }
}

/// The best plays before a line, for a program.
fn plays_body(alloc: Global, found: &Result<FoundPlays, Decision>) -> Result<Body, AllocError>
    ensures has_object { IfOk result (λ body. object_in body ≡ Some (plays_of found.now)) }
    ensures has_text { IfOk result (λ body. text_in body ≡ None) }
{
    Ok(Body::Object(plays_of(alloc, found)?))
}

/// The ruling on words, for a program.
fn ruled_body(alloc: Global, ruled: &Option<Ruled>) -> Result<Body, AllocError>
    ensures has_object { IfOk result (λ body. object_in body ≡ Some (ruled_of ruled.now)) }
    ensures has_text { IfOk result (λ body. text_in body ≡ None) }
{
    Ok(Body::Object(ruled_of(alloc, ruled)?))
}

/// How many words a list has, for a program.
fn checked_body(alloc: Global, words: usize) -> Result<Body, AllocError>
    ensures has_object { IfOk result (λ body. object_in body ≡ Some (checked_object words)) }
    ensures has_text { IfOk result (λ body. text_in body ≡ None) }
{
    Ok(Body::Object(checked_tree(alloc, words)?))
}

/// Whether a verdict is that something is done.
fn is_done(verdict: &Verdict) -> bool
    ensures { result ≡ is_done verdict.now }
{
    match verdict {
        Verdict::Done => true,
        Verdict::Legal { .. }
        | Verdict::Illegal { .. }
        | Verdict::Unsettled
        | Verdict::BadList
        | Verdict::BadFile
        | Verdict::BadRecord
        | Verdict::BadRack
        | Verdict::BadRules
        | Verdict::BadLine => false,
    }
}

/// The normal form of a record, or that the text is not one.
fn tidied_body(alloc: Global, decision: &Decision) -> Result<Body, AllocError>
    ensures has_object { IfOk result (λ body. object_in body ≡ tidied_object decision.now) }
    ensures has_text { IfOk result (λ body. text_in body ≡ tidied_text decision.now) }
{
    if is_done(&decision.verdict) {
        let text = Vec::from_slice(alloc, decision.report.as_slice())?;
        return Ok(Body::Text(text));
    }
    Ok(Body::Object(decision_tree(alloc, decision)?))
}

/// What the next line of a draft is about, for a program.
fn next_body(alloc: Global, found: &Result<DraftNext, DraftFault>) -> Result<Body, AllocError>
    ensures has_object { IfOk result (λ body. object_in body ≡ Some (next_of found.now)) }
    ensures has_text { IfOk result (λ body. text_in body ≡ None) }
{
    Ok(Body::Object(next_of(alloc, found)?))
}

/// The first fault of a text that is no draft, for a program.
fn fault_body(alloc: Global, fault: &DraftFault) -> Result<Body, AllocError>
    ensures has_object { IfOk result (λ body. object_in body ≡ Some (bad_object fault.now)) }
    ensures has_text { IfOk result (λ body. text_in body ≡ None) }
{
    Ok(Body::Object(bad_draft_tree(alloc, fault)?))
}

/// A reply as an answer to a program.
///
/// # Errors
///
/// It fails only if memory is refused.
pub fn as_object(alloc: Global, reply: &Reply) -> Result<Body, AllocError>
    ensures has_object { IfOk result (λ body. object_in body ≡ object_of reply.now) }
    ensures has_text { IfOk result (λ body. IsText reply.now (text_in body)) }
{
    match reply {
        Reply::Judged(sheet) => judged_body(alloc, sheet),
        Reply::Explained(explained) => explained_body(alloc, explained),
        Reply::Audited(sheet) => audited_body(alloc, sheet),
        Reply::Boarded(sheet) => boarded_body(alloc, sheet),
        Reply::Found(found) => plays_body(alloc, found),
        Reply::Ruled(ruled) => ruled_body(alloc, ruled),
        Reply::Checked(words) => checked_body(alloc, *words),
        Reply::Tidied(decision) => tidied_body(alloc, decision),
        Reply::Paged(paged) => paged_body(alloc, paged),
        Reply::Annotated(sheet) => annotated_body(alloc, sheet),
        Reply::Compared(found) => compared_body(alloc, found),
        Reply::Repaired(repaired) => repaired_body(alloc, repaired),
        Reply::Filled(sheet) => filled_body(alloc, sheet),
        Reply::Next(found) => next_body(alloc, found),
        Reply::NoDraft(fault) => fault_body(alloc, fault),
    }
}

/// What a command writes of an answer to a program: its object and an LF, and its text; or only its text.
fn printed_of(alloc: Global, body: Body) -> Result<Printed, AllocError>
    ensures { IfOk result (IsShownAs (object_in body) (text_in body)) }
{
    match body {
        Body::Object(tree) => Ok(Printed::report(line_of(alloc, &tree)?)),
        Body::Text(text) => Ok(Printed::report(text)),
        Body::Both(tree, text) => Ok(Printed {
            report: line_of(alloc, &tree)?,
            kept: Some(text),
        }),
    }
}

/// A reply as a report for programs.
///
/// # Errors
///
/// It fails only if memory is refused.
#[tactic(auto, using(crate::proofs::Shown::shown))]
pub fn in_object(alloc: Global, reply: &Reply) -> Result<Printed, AllocError>
    ensures { IfOk result (IsInObject reply.now) }
{
    let body = as_object(alloc, reply)?;
    printed_of(alloc, body)
}
