//! What is found of two sheets, in words and as an object.
ghost use Rattle.std.specs.Prelude.{◌≡◌, ◌&&◌, is_some, Some, None, IfOk, IfSome};
ghost use Rattle.json_trees.specs.Trees.{view};
ghost use Rattle.compare_json.specs.Answers.{comparison_object};
ghost use Rattle.reply_texts.specs.Bodies.{object_in, text_in};
ghost use Rattle.reply_texts.specs.Kept.{has_merged, is_merged, IsNormalForm, IsMergedText};
ghost use Rattle.reply_texts.specs.Objects.{bad_sheet_of, compared_of, IsComparedText};

use crate::bodies::Body;
use crate::cases::NO_GAME;
use crate::drafted::fault_words;
use crate::encodings::in_utf8;
use compare_answers::ComparisonAnswer;
use compare_json::comparison_tree;
use compare_lines::{push_choice, push_comparison};
use draft_json::bad_draft_tree;
use engine_stages::bad_record_line;
use gcg_write::write;
use json_base::{bad_record_tree, no_game_tree};
use json_trees::Tree;
use reply_answers::{BadSheet, BothCompared, SheetsFound};
use reply_calls::Printed;
use std::alloc::{AllocError, Global};

/// What is found of two sheets; and whether the merged record is written, if it is requested. If the first sheet states its encoding, names are UTF-8.
fn text_of(alloc: Global, both: &BothCompared) -> Result<Vec<u8>, AllocError> {
    let mut reported = Vec::new(alloc);
    push_comparison(alloc, &mut reported, &both.answer)?;
    if both.merged {
        push_choice(&mut reported, &both.answer)?;
    }
    in_utf8(alloc, reported, both.encoding)
}

/// The merged record in the normal form, if there is one.
fn merged_text(alloc: Global, answer: &ComparisonAnswer) -> Result<Option<Vec<u8>>, AllocError>
    ensures asked { IfOk result (λ kept. is_some kept ≡ has_merged answer.now.merged) }
    ensures text { IfOk result (λ kept. IfSome kept (λ text. IsNormalForm answer.now.merged text.items)) }
{
    let Ok(game) = &answer.merged else {
        return Ok(None);
    };
    let mut text = Vec::new(alloc);
    match write(game, &mut text) {
        Ok(()) => Ok(Some(text)),
        Err(_) => Err(AllocError),
    }
}

/// The merged record, if it is requested and there is one.
fn merged_of(alloc: Global, both: &BothCompared) -> Result<Option<Vec<u8>>, AllocError>
    ensures asked { IfOk result (λ kept. is_some kept ≡ (both.now.merged && has_merged both.now.answer.merged)) }
    ensures text { IfOk result (λ kept. IfSome kept (λ text. IsNormalForm both.now.answer.merged text.items)) }
{
    if both.merged {
        merged_text(alloc, &both.answer)
    } else {
        Ok(None)
    }
}

/// Why there is nothing to compare on a sheet.
fn bad_words(alloc: Global, bad: &BadSheet) -> Result<Printed, AllocError>
    ensures { IfOk result (λ printed. printed.kept ≡ None) }
{
    match bad {
        BadSheet::NoRecord(fault) => Ok(Printed::report(bad_record_line(alloc, fault)?)),
        BadSheet::NoDraft(fault) => fault_words(alloc, fault),
        BadSheet::NoEvent(_) => Printed::of_bytes(alloc, NO_GAME),
    }
}

/// Both sheets, compared, in words.
fn both_words(alloc: Global, both: &BothCompared) -> Result<Printed, AllocError>
    ensures asked { IfOk result (λ printed. is_some printed.kept ≡ (both.now.merged && has_merged both.now.answer.merged)) }
    ensures text { IfOk result (λ printed. IfSome printed.kept (λ text. IsNormalForm both.now.answer.merged text.items)) }
{
    let report = text_of(alloc, both)?;
    let kept = merged_of(alloc, both)?;
    Ok(Printed { report, kept })
}

/// What is found of two sheets, in words.
pub fn compared_words(alloc: Global, found: &SheetsFound) -> Result<Printed, AllocError>
    ensures asked { IfOk result (λ printed. is_some printed.kept ≡ is_merged found.now) }
    ensures text { IfOk result (λ printed. IfSome printed.kept (λ text. IsMergedText found.now text.items)) }
{
    match found {
        SheetsFound::Both(both) => both_words(alloc, both),
        SheetsFound::FirstBad(bad) | SheetsFound::SecondBad(bad) => bad_words(alloc, bad),
    }
}

/// Why there is nothing to compare on a sheet, as a tree.
fn bad_tree(alloc: Global, bad: &BadSheet) -> Result<Tree, AllocError>
    ensures { IfOk result (λ tree. view tree ≡ bad_sheet_of bad.now) }
{
    match bad {
        BadSheet::NoRecord(fault) => bad_record_tree(alloc, *fault),
        BadSheet::NoDraft(fault) => bad_draft_tree(alloc, fault),
        BadSheet::NoEvent(unread) => no_game_tree(alloc, unread.as_slice()),
    }
}

/// Both sheets, compared, for a program, with the merged record if it is requested and there is one.
fn both_body(alloc: Global, both: &BothCompared) -> Result<Body, AllocError>
    ensures has_object { IfOk result (λ body. object_in body ≡ Some (comparison_object both.now.answer)) }
    ensures asked { IfOk result (λ body. is_some (text_in body) ≡ (both.now.merged && has_merged both.now.answer.merged)) }
    ensures has_text { IfOk result (λ body. IfSome (text_in body) (IsNormalForm both.now.answer.merged)) }
{
    let object = comparison_tree(alloc, &both.answer)?;
    match merged_of(alloc, both)? {
        Some(text) => Ok(Body::Both(object, text)),
        None => Ok(Body::Object(object)),
    }
}

/// What is found of two sheets, for a program.
pub fn compared_body(alloc: Global, found: &SheetsFound) -> Result<Body, AllocError>
    ensures has_object { IfOk result (λ body. object_in body ≡ Some (compared_of found.now)) }
    ensures has_text { IfOk result (λ body. IsComparedText found.now (text_in body)) }
{
    match found {
        SheetsFound::Both(both) => both_body(alloc, both),
        SheetsFound::FirstBad(bad) | SheetsFound::SecondBad(bad) => {
            Ok(Body::Object(bad_tree(alloc, bad)?))
        }
    }
}
