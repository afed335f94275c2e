//! The text of a tree.
ghost use Rattle.std.specs.Prelude.{◌≡◌, ◌≤◌, ◌++◌, ◌∷◌, [], IfOk, OnOk, OnErr, Some, decimal};
ghost use Rattle.std.specs.Str.{IsUtf8};
ghost use Rattle.json.specs.Json.{document, max_depth};
ghost use Rattle.json.specs.Lex.{tokens};
ghost use Rattle.json.specs.Token as token;
ghost use Rattle.json.specs.Tree.{depth, items_tokens, json_tokens, members_tokens};
ghost use Rattle.json_trees.specs.Trees.{fields_view, items_view, view};
ghost use Rattle.json_trees.specs.Texts.{json_line, json_text};
ghost use Rattle.json_trees.specs.Values.{members_of};

use crate::trees::Tree;
use itoa::Buffer;
use json::Writer;
use std::alloc::{AllocError, Global};
use std::mem::replace;

/// Writes a number that counts something and may not fit in 64 bits.
fn write_wide(out: &mut Writer, n: u128) -> Result<(), AllocError>
    ensures done { OnOk result (out.new.tokens ≡ out.old.tokens ++ token.number (decimal n) ∷ []) }
    ensures before { out.new.before ≡ out.old.before }
{
    let mut buffer = Buffer::new();
    out.number(buffer.format(n))
}

/// Writes a value. If memory is refused, some of it may be written.
#[cycle(write)]
fn write_tree(out: &mut Writer, tree: &Tree) -> Result<(), AllocError>
    ensures done { OnOk result (out.new.tokens ≡ out.old.tokens ++ json_tokens (view tree.now)) }
    ensures before { out.new.before ≡ out.old.before }
{
    match tree {
        Tree::Null => out.null(),
        Tree::Bool(value) => out.boolean(*value),
        Tree::Count(number) => out.u64(*number),
        Tree::Integer(number) => out.i64(*number),
        Tree::Wide(number) => write_wide(out, *number),
        Tree::Name(name) => out.string(name),
        Tree::Text(text) => out.string(text.as_str()),
        Tree::Array(values) => {
            out.begin_array()?;
            write_values(out, values)
        }
        Tree::Object(fields) => {
            out.begin_object()?;
            write_fields(out, fields)
        }
    }
}

/// Writes the values of an array and its end.
#[cycle(write)]
fn write_values(out: &mut Writer, values: &Vec<Tree>) -> Result<(), AllocError>
    ensures done { OnOk result (out.new.tokens ≡ out.old.tokens ++ items_tokens (items_view values.now.items)) }
    ensures before { out.new.before ≡ out.old.before }
{
    for value in values {
        write_tree(out, value)?;
    }
    Ok(out.end_array()?)
}

/// Writes the fields of an object and its end.
#[cycle(write)]
fn write_fields(out: &mut Writer, fields: &Vec<(&'static str, Tree)>) -> Result<(), AllocError>
    ensures done { OnOk result (out.new.tokens ≡ out.old.tokens ++ members_tokens (members_of (fields_view fields.now.items))) }
    ensures before { out.new.before ≡ out.old.before }
{
    for field in fields {
        out.key(field.0)?;
        write_tree(out, &field.1)?;
    }
    Ok(out.end_object()?)
}

/// Appends the text of a tree: no spaces, the fields of each object in their order, and the escapes that JSON requires.
///
/// # Errors
///
/// Memory was refused; the text then is as it was.
pub fn push_tree(text: &mut Vec<u8>, tree: &Tree) -> Result<(), AllocError>
    ensures written { OnOk result (text.new.items ≡ text.old.items ++ json_text (view tree.now)) }
    ensures tokens { OnOk result (tokens (json_text (view tree.now)) ≡ json_tokens (view tree.now)) }
    ensures reads_back { OnOk result (depth (view tree.now) ≤ max_depth
        → document (json_text (view tree.now)) ≡ Some (view tree.now)) }
    ensures utf8 { OnOk result (IsUtf8 (json_text (view tree.now))) }
    ensures kept { OnErr result (text.new.items ≡ text.old.items) }
{
    let len = text.len();
    let empty = Vec::new(*text.allocator());
    let mut out = Writer::new(replace(text, empty));
    if let Err(error) = write_tree(&mut out, tree) {
        *text = out.into_inner();
        text.truncate(len);
        return Err(error);
    }
    *text = out.into_inner();
    Ok(())
}

/// Appends the text of a tree and an LF.
///
/// # Errors
///
/// Memory was refused.
pub fn push_tree_line(text: &mut Vec<u8>, tree: &Tree) -> Result<(), AllocError>
    ensures { OnOk result (text.new.items ≡ text.old.items ++ json_line (view tree.now)) }
{
    push_tree(text, tree)?;
    text.push(b'\n')?;
    Ok(())
}

/// The text of a tree and an LF.
///
/// # Errors
///
/// Memory was refused.
pub fn line_of(alloc: Global, tree: &Tree) -> Result<Vec<u8>, AllocError>
    ensures { IfOk result (λ line. line.items ≡ json_line (view tree.now)) }
{
    let mut line = Vec::new(alloc);
    push_tree_line(&mut line, tree)?;
    Ok(line)
}
