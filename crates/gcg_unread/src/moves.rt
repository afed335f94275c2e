//! Fields in a row that are a position or a code, and two numbers.
ghost use Rattle.std.specs.Prelude.{◌≡◌, ◌||◌, IfOk, is_some};
ghost use Rattle.gcg_read.specs.Numerals.{points_of};
ghost use Rattle.text_lines.specs.Fields.{fields_of};
ghost use Rattle.gcg_unread.specs.Moves.{are_numbers, after_first, is_code, is_position, is_move, has_move};

use crate::readings::read_with;
use gcg_read::Points;
use std::alloc::{AllocError, Global};
use text_lines::{Field, next_field};

/// Whether a field is a number of a record.
fn is_number(field: &[u8]) -> bool
    ensures { result ≡ is_some (points_of field.now) }
{
    Points::of_bytes(field).is_some()
}

/// Whether the first two fields of a text are numbers.
fn are_numbers(text: &[u8]) -> bool
    ensures { result ≡ are_numbers (fields_of text.now) }
{
    let Some(first) = next_field(text) else {
        return false;
    };
    let Some(second) = next_field(first.after) else {
        return false;
    };
    is_number(first.bytes) && is_number(second.bytes)
}

/// Whether the two fields after the first field of a text are numbers.
fn are_numbers_after(text: &[u8]) -> bool
    ensures { result ≡ are_numbers (after_first (fields_of text.now)) }
{
    match next_field(text) {
        None => false,
        Some(word) => are_numbers(word.after),
    }
}

/// Whether a field is the code of an event.
fn is_code(alloc: Global, field: &[u8]) -> Result<bool, AllocError>
    ensures { IfOk result (λ is. is ≡ is_code field.now) }
{
    read_with(alloc, field, b" 0 0")
}

/// Whether a field is the position of a play.
fn is_position(alloc: Global, field: &[u8]) -> Result<bool, AllocError>
    ensures { IfOk result (λ is. is ≡ is_position field.now) }
{
    read_with(alloc, field, b" A 0 0")
}

/// Whether a field is the code of an event or the position of a play.
fn is_code_or_position(alloc: Global, field: &[u8]) -> Result<bool, AllocError>
    ensures { IfOk result (λ is. is ≡ (is_code field.now || is_position field.now)) }
{
    if is_code(alloc, field)? {
        return Ok(true);
    }
    is_position(alloc, field)
}

/// Whether a field and those after it are a position or a code, and two numbers.
fn is_move(alloc: Global, field: Field<'_>) -> Result<bool, AllocError>
    ensures { IfOk result (λ is. is ≡ is_move field.entry.bytes.now (fields_of field.entry.after.now)) }
{
    if are_numbers(field.after) {
        return is_code_or_position(alloc, field.bytes);
    }
    if are_numbers_after(field.after) {
        return is_position(alloc, field.bytes);
    }
    Ok(false)
}

/// Whether a line has, from some field on, a position or a code, and two numbers.
#[tactic(auto, using(crate::proofs::Steps::fields_more))]
pub(crate) fn has_move(alloc: Global, line: &[u8]) -> Result<bool, AllocError>
    ensures { IfOk result (λ has. has ≡ has_move (fields_of line.now)) }
{
    let mut remaining = line;
    while let Some(field) = next_field(remaining) {
        if is_move(alloc, field)? {
            return Ok(true);
        }
        remaining = field.after;
    }
    Ok(false)
}
