//! What is missing in a line that is not a line of a record, and how it is written, besides what is wrong with it.

use crate::fields::{after_colon, before_colon, count_fields, field_at};
use explain_clues::line_of;
use explain_parts::say;
use gcg_read::{Points, ReadFault, Text, Why};
use ref_tiles::row_of_digits;
use std::alloc::AllocError;
use text_lines::next_field;

/// Appends what the line of a fault lacks, if that can be found out: its score or its total, the position or the word of its play; or how a nickname
/// with a blank, a code or a number is written.
pub fn push_missing(text: &mut Vec<u8>, bytes: &[u8], fault: ReadFault) -> Result<(), AllocError> {
    let written = line_of(bytes, fault.line).unwrap_or(b"");
    match fault.why {
        Why::NoColon => push_nickname(text, before_colon(written).unwrap_or(b"")),
        Why::ThirdPlayer => push_marks(text, before_colon(written).unwrap_or(b"")),
        Why::Fields => push_after(text, after_colon(written)),
        Why::Rack | Why::Position | Why::Word => push_numbers(text, after_colon(written)),
        Why::Code => push_code(text, after_colon(written)),
        Why::Number => push_commas(text, after_colon(written)),
        Why::TooLong | Why::TooManyEvents | Why::NoMemory => Ok(()),
    }
}

/// Appends that a line begins with more than one >, if the nickname of an event begins with one.
fn push_marks(text: &mut Vec<u8>, nick: &[u8]) -> Result<(), AllocError> {
    if field_at(nick, 0).starts_with(b">") {
        return say!(text; " The line begins with more than one >.");
    }
    Ok(())
}

/// Appends where a note stands, if the fields of an event go on after two numbers; otherwise which of the numbers is missing.
fn push_after(text: &mut Vec<u8>, fields: &[u8]) -> Result<(), AllocError> {
    if count_fields(fields) <= 5 {
        return push_numbers(text, fields);
    }
    for place in 1..4 {
        if is_number(fields, place) && is_number(fields, place + 1) {
            return say!(text; " What comes after the total belongs on a line of its own that begins with #note.");
        }
    }
    Ok(())
}

/// Appends how numbers are written, if one of the last two fields has a comma or a full stop.
fn push_commas(text: &mut Vec<u8>, fields: &[u8]) -> Result<(), AllocError> {
    let many = count_fields(fields);
    let score = field_at(fields, many.saturating_sub(2));
    let total = field_at(fields, many.saturating_sub(1));
    if has_comma(score) || has_comma(total) {
        return say!(text; " Numbers are written without commas and full stops.");
    }
    Ok(())
}

/// Whether a field has a comma or a full stop.
fn has_comma(field: &[u8]) -> bool {
    field.iter().any(|byte| *byte == b',' || *byte == b'.')
}

/// Whether a field is a position.
fn is_position(field: &[u8]) -> bool {
    match field {
        [first, digits @ ..] if is_column(*first) => row_of_digits(digits).is_some(),
        [digits @ .., last] if is_column(*last) => row_of_digits(digits).is_some(),
        _ => false,
    }
}

/// Whether a byte names a column.
fn is_column(byte: u8) -> bool {
    (b'A' <= byte && byte <= b'O') || (b'a' <= byte && byte <= b'o')
}

/// Whether a field has round brackets around it.
fn is_in_brackets(field: &[u8]) -> bool {
    field.starts_with(b"(") && field.ends_with(b")")
}

/// Appends what is missing of an event whose code is none: one of its numbers, the word or the position of a play; or how the code is written.
fn push_code(text: &mut Vec<u8>, fields: &[u8]) -> Result<(), AllocError> {
    let many = count_fields(fields);
    let code = field_at(fields, many.saturating_sub(3));
    if many < 3 || !is_number(fields, many - 1) || !is_number(fields, many - 2) {
        return push_numbers(text, fields);
    }
    push_no_code(text, code)
}

/// Appends what is missing next to a code that is none, or how the code is written.
fn push_no_code(text: &mut Vec<u8>, code: &[u8]) -> Result<(), AllocError> {
    if is_position(code) {
        say!(text; " The word of the play is missing.")
    } else if is_in_brackets(code) {
        say!(text; " The codes (time) and (challenge) are written in small letters, and a last rack in capitals.")
    } else if Text::of_bytes(code).is_some() {
        say!(text; " The position of the play is missing.")
    } else {
        Ok(())
    }
}

/// Appends how a nickname with a blank inside is written.
fn push_nickname(text: &mut Vec<u8>, nick: &[u8]) -> Result<(), AllocError> {
    if count_fields(nick) < 2 {
        return Ok(());
    }
    say!(text; " Write ")?;
    let mut remaining = nick;
    for number in 0..nick.len() {
        let Some(field) = next_field(remaining) else {
            break;
        };
        let front = if number == 0 { "" } else { "_" };
        say!(text; front, field.bytes)?;
        remaining = field.after;
    }
    say!(text; ".")
}

/// Whether the field at a place, from 0, is a number.
fn is_number(fields: &[u8], place: usize) -> bool {
    Points::of_bytes(field_at(fields, place)).is_some()
}

/// Appends which of the numbers at the end of a line is missing.
fn push_numbers(text: &mut Vec<u8>, fields: &[u8]) -> Result<(), AllocError> {
    let many = count_fields(fields);
    if many == 0 || many > 5 {
        return Ok(());
    }
    if !is_number(fields, many - 1) {
        return say!(text; " The score and the total are missing.");
    }
    if many == 1 || !is_number(fields, many - 2) {
        return say!(text; " The score or the total is missing: an event ends with both.");
    }
    if many == 2 {
        return say!(text; " The play or the code before the score is missing.");
    }
    Ok(())
}
