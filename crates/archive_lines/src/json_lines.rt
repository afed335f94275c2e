//! Lines that are JSON objects.
ghost use Rattle.std.specs.Prelude.{◌≡◌, ◌++◌, IfOk, OnOk, Some, option_map};
ghost use Rattle.std.specs.String.{string_bytes};
ghost use Rattle.std.specs.Cow.{cow_str_bytes};
ghost use Rattle.json.specs.Json.{document};
ghost use Rattle.json_trees.specs.Texts.{json_line, json_text};
ghost use Rattle.json_trees.specs.Trees.{fields_view, view};
ghost use Rattle.archive_lines.specs.Objects.{asked_fields, ending_value, likely_object, line_fields, line_object, page_value, said_fields, text_value};

use crate::answers::Ending;
use crate::fields::Fields;
use crate::likely::LikelyFields;
use crate::pages::PageField;
use json_trees::{
    Tree, count_or_null, integer_or_null, name_tree, null_tree, object, push_tree, size_or_null,
    str_or_null, str_tree, with_field_if,
};
use std::alloc::{AllocError, Global};
use std::borrow::CowStr;

/// Whether a legal game has ended; null if the game is not legal.
fn ending_tree(ending: Option<Ending>) -> Tree
    ensures { view result ≡ ending_value ending }
{
    match ending {
        None => null_tree(),
        Some(ending) => name_tree(ending.name()),
    }
}

/// A text that the line owns, or null if there is none.
fn owned_tree(alloc: Global, text: &Option<String>) -> Result<Tree, AllocError>
    ensures { IfOk result (λ tree. view tree ≡ text_value (option_map string_bytes text.now)) }
{
    match text {
        None => Ok(null_tree()),
        Some(text) => str_tree(alloc, text.as_str()),
    }
}

/// A fault, or null if there is none.
fn fault_tree(alloc: Global, fault: &Option<CowStr<'_, Global>>) -> Result<Tree, AllocError>
    ensures { IfOk result (λ tree. view tree ≡ text_value (option_map cow_str_bytes fault.now)) }
{
    match fault {
        None => Ok(null_tree()),
        Some(fault) => str_tree(alloc, fault.as_str()),
    }
}

/// What each line says of its game, as the fields of an object.
fn said_fields(alloc: Global, fields: &Fields<'_>) -> Result<Vec<(&'static str, Tree)>, AllocError>
    ensures { IfOk result (λ all. fields_view all.items ≡ said_fields fields.now) }
{
    let name = str_tree(alloc, fields.name)?;
    let fault = fault_tree(alloc, &fields.fault)?;
    let player1 = owned_tree(alloc, &fields.player1)?;
    let player2 = owned_tree(alloc, &fields.player2)?;
    let all = vec![in alloc;
        ("name", name),
        ("verdict", name_tree(fields.verdict.name())),
        ("ending", ending_tree(fields.ending)),
        ("line", count_or_null(fields.line)),
        ("fault", fault),
        ("events", size_or_null(fields.events)),
        ("player1", player1),
        ("total1", integer_or_null(fields.total1)),
        ("player2", player2),
        ("total2", integer_or_null(fields.total2)),
        ("unlisted", size_or_null(fields.unlisted)),
    ]?;
    Ok(all)
}

/// The page: its name, why there is none, or null.
fn page_tree(alloc: Global, page: &PageField) -> Result<Tree, AllocError>
    ensures { IfOk result (λ tree. view tree ≡ page_value page.now) }
{
    str_or_null(alloc, page.text())
}

/// The page, if pages are made.
fn page_asked(alloc: Global, page: &Option<PageField>) -> Result<Option<Tree>, AllocError>
    ensures { IfOk result (λ tree. option_map view tree ≡ option_map page_value page.now) }
{
    match page {
        None => Ok(None),
        Some(page) => Ok(Some(page_tree(alloc, page)?)),
    }
}

/// The likely repair.
fn likely_tree(alloc: Global, likely: &LikelyFields) -> Result<Tree, AllocError>
    ensures { IfOk result (λ tree. view tree ≡ likely_object likely.now) }
{
    let change = owned_tree(alloc, &likely.change)?;
    let right = owned_tree(alloc, &likely.numbers_right)?;
    let fields = vec![in alloc; ("change", change), ("numbers_right", right)]?;
    Ok(object(fields))
}

/// The likely repair, if repairs are looked for.
fn likely_asked(alloc: Global, likely: &Option<LikelyFields>) -> Result<Option<Tree>, AllocError>
    ensures { IfOk result (λ tree. option_map view tree ≡ option_map likely_object likely.now) }
{
    match likely {
        None => Ok(None),
        Some(likely) => Ok(Some(likely_tree(alloc, likely)?)),
    }
}

/// What each line says, and what it says only on request.
fn asked_fields(alloc: Global, fields: &Fields<'_>) -> Result<Vec<(&'static str, Tree)>, AllocError>
    ensures { IfOk result (λ all. fields_view all.items ≡ asked_fields fields.now) }
{
    let page = page_asked(alloc, &fields.page)?;
    let likely = likely_asked(alloc, &fields.likely)?;
    let all = said_fields(alloc, fields)?;
    let all = with_field_if(all, "page", page)?;
    with_field_if(all, "likely", likely)
}

/// What a line says, as the fields of an object.
fn line_fields(alloc: Global, fields: &Fields<'_>) -> Result<Vec<(&'static str, Tree)>, AllocError>
    ensures { IfOk result (λ all. fields_view all.items ≡ line_fields fields.now) }
{
    let fault_name = fault_tree(alloc, &fields.fault_name)?;
    let all = asked_fields(alloc, fields)?;
    let all = with_field_if(all, "fault_name", Some(fault_name))?;
    let all = with_field_if(all, "expected", Some(integer_or_null(fields.expected)))?;
    let all = with_field_if(all, "unread_lines", Some(size_or_null(fields.unread_lines)))?;
    Ok(all)
}

/// What a line says.
fn line_tree(alloc: Global, fields: &Fields<'_>) -> Result<Tree, AllocError>
    ensures { IfOk result (λ tree. view tree ≡ line_object fields.now) }
{
    Ok(object(line_fields(alloc, fields)?))
}

/// Appends a line: a JSON object with the fields by their names, null for a missing one, and an LF. A reader of JSON has these fields again.
///
/// # Errors
///
/// Memory was refused.
pub fn push_json_line(
    alloc: Global,
    line: &mut Vec<u8>,
    fields: &Fields<'_>,
) -> Result<(), AllocError>
    ensures written { OnOk result (line.new.items ≡ line.old.items ++ json_line (line_object fields.now)) }
    ensures read_back { OnOk result (document (json_text (line_object fields.now)) ≡ Some (line_object fields.now)) }
{
    let tree = line_tree(alloc, fields)?;
    push_tree(line, &tree)?;
    line.push(b'\n')?;
    Ok(())
}
