//! What repairs a case, in words and as an object.
ghost use Rattle.std.specs.Prelude.{◌≡◌, Some, None, IfOk, MatchOption};
ghost use Rattle.json_trees.specs.Trees.{view};
ghost use Rattle.reply_texts.specs.Bodies.{object_in, text_in};
ghost use Rattle.reply_texts.specs.Kept.{IsSheetKept, IsNoSheetKept};
ghost use Rattle.reply_texts.specs.Objects.{repairs_in, repairs_of, IsRepairedOf};

use crate::bodies::Body;
use crate::cases::{NO_GAME, has_no_event, is_with_event};
use crate::encodings::in_utf8;
use game_case::Entry;
use gcg_about::Encoding;
use gcg_drafts::Missing;
use gcg_unread::UnreadLine;
use json_base::no_game_tree;
use json_trees::Tree;
use repair_answers::RepairAnswer;
use repair_json::{answer_tree, bad_tree};
use repair_lines::{push_choice, push_repairs};
use repair_rewrites::sheet_to_keep;
use reply_answers::RepairedCase;
use reply_calls::Printed;
use std::alloc::{AllocError, Global};

/// What is said of a repaired sheet of a record without an event.
const NOTHING: &[u8] = b"not written: there is nothing to repair\n";

/// What repairs the record of a case, and whether the repaired sheet is kept. If the record states its encoding, names in it are UTF-8.
fn text_of(alloc: Global, repaired: &RepairedCase, kept: bool) -> Result<Vec<u8>, AllocError> {
    let case = &repaired.case;
    let mut reported = Vec::new(alloc);
    push_repairs(
        alloc,
        &mut reported,
        case,
        repaired.lacks.as_slice(),
        &repaired.answer,
    )?;
    if repaired.asked {
        push_choice(&mut reported, case, &repaired.answer, kept)?;
    }
    in_utf8(alloc, reported, Encoding::of(case.text.as_slice()))
}

/// The text of the repaired sheet, if it is requested, one repair is to be chosen and the text reads as the record with it.
#[tactic(auto, using(crate::proofs::Keeping::kept_of))]
fn repaired_of(alloc: Global, repaired: &RepairedCase) -> Result<Option<Vec<u8>>, AllocError>
    ensures { IfOk result (λ kept. MatchOption kept (IsNoSheetKept repaired.now) (λ text. IsSheetKept repaired.now text.items)) }
{
    if repaired.asked {
        sheet_to_keep(alloc, &repaired.case, &repaired.answer)
    } else {
        Ok(None)
    }
}

/// That a record has no event, and nothing to repair.
fn no_game(alloc: Global, asked: bool) -> Result<Printed, AllocError>
    ensures { IfOk result (λ printed. printed.kept ≡ None) }
{
    let mut reported = Vec::from_slice(alloc, NO_GAME)?;
    if asked {
        reported.extend_from_slice(NOTHING)?;
    }
    Ok(Printed::report(reported))
}

/// What repairs the record of a case, in words.
#[tactic(auto, using(crate::proofs::Keeping::none_kept))]
pub fn repaired_words(alloc: Global, repaired: &RepairedCase) -> Result<Printed, AllocError>
    ensures { IfOk result (λ printed. MatchOption printed.kept (IsNoSheetKept repaired.now) (λ text. IsSheetKept repaired.now text.items)) }
{
    if has_no_event(&repaired.case) {
        return no_game(alloc, repaired.asked);
    }
    let kept = repaired_of(alloc, repaired)?;
    let report = text_of(alloc, repaired, kept.is_some())?;
    Ok(Printed { report, kept })
}

/// What repairs a record, or a draft whose lines lack these numbers; or that it has no event.
fn entry_tree(
    alloc: Global,
    entry: &Entry,
    lacks: &[Missing],
    answer: &RepairAnswer,
    unread: &[UnreadLine],
) -> Result<Tree, AllocError>
    ensures { IfOk result (λ tree. view tree ≡ repairs_in entry.now lacks.now answer.now unread.now) }
{
    if is_with_event(&entry.finding) {
        answer_tree(alloc, &entry.record, lacks, answer, unread)
    } else {
        no_game_tree(alloc, unread)
    }
}

/// What repairs the record of a case, or its text if that is not a record.
fn repaired_tree(alloc: Global, repaired: &RepairedCase) -> Result<Tree, AllocError>
    ensures { IfOk result (λ tree. view tree ≡ repairs_of repaired.now.case.read repaired.now.lacks.items repaired.now.answer repaired.now.unread.items) }
{
    let lacks = repaired.lacks.as_slice();
    let answer = &repaired.answer;
    match &repaired.case.read {
        Ok(entry) => entry_tree(alloc, entry, lacks, answer, repaired.unread.as_slice()),
        Err(fault) => bad_tree(alloc, *fault, &answer.of_line),
    }
}

/// What repairs the record of a case, for a program, with the repaired sheet if that is kept.
pub fn repaired_body(alloc: Global, repaired: &RepairedCase) -> Result<Body, AllocError>
    ensures has_object { IfOk result (λ body. object_in body
        ≡ Some (repairs_of repaired.now.case.read repaired.now.lacks.items repaired.now.answer repaired.now.unread.items)) }
    ensures has_text { IfOk result (λ body. IsRepairedOf repaired.now (text_in body)) }
{
    let object = repaired_tree(alloc, repaired)?;
    match repaired_of(alloc, repaired)? {
        Some(text) => Ok(Body::Both(object, text)),
        None => Ok(Body::Object(object)),
    }
}
