//! What is wrong with a line that is not a line of a record.

use crate::fields::{after_colon, before_colon, count_fields, field_at};
use explain_clues::line_of;
use explain_parts::say;
use gcg_read::{Points, Record, Why, read};
use std::alloc::{AllocError, Global};
use text_lines::{cut_line, next_field};

/// Appends what is wrong with a line of a text that is not a record.
pub fn push_record_fault(
    alloc: Global,
    text: &mut Vec<u8>,
    bytes: &[u8],
    line: u32,
    why: Why,
) -> Result<(), AllocError> {
    let written = line_of(bytes, line).unwrap_or(b"");
    match why {
        Why::TooLong =>
            say!(text; "The file has more than 1,048,576 bytes, and no game record may be that long. Is it the wrong file?\n"),
        Why::TooManyEvents => say!(text; "This is event 1,001, and a record has 1,000 at most.\n"),
        Why::NoColon => push_no_colon(text, written),
        Why::ThirdPlayer => push_third(alloc, text, front_of(bytes, line), written),
        Why::Fields => push_fields(text, written),
        Why::Rack =>
            say!(text; rack_in(written), " is not a rack: a rack is 1 to 7 tiles, each A to Z or ?.\n"),
        Why::Position =>
            say!(text; position_in(written), " is not a position: a position is a row from 1 to 15 and a column from A to O, in either order.\n"),
        Why::Word =>
            say!(text; word_in(written), " cannot be the word of a play: a word is 1 to 15 letters and dots.\n"),
        Why::Number => push_no_number(text, written),
        Why::Code => push_no_event(text, code_in(written)),
        Why::NoMemory => Ok(()),
    }
}

/// The text before a line, counted from 1.
fn front_of(bytes: &[u8], line: u32) -> &[u8] {
    let mut remaining = bytes;
    for _k in 1..line {
        match cut_line(remaining).after {
            None => return bytes,
            Some(after) => remaining = after,
        }
    }
    let len = bytes.len().saturating_sub(remaining.len());
    bytes.get(..len).unwrap_or(b"")
}

/// The rack of an event line that has one.
fn rack_in(written: &[u8]) -> &[u8] {
    field_at(after_colon(written), 0)
}

/// The position of the line of a play: the field before the word, the score and the total.
fn position_in(written: &[u8]) -> &[u8] {
    let fields = after_colon(written);
    field_at(fields, count_fields(fields).saturating_sub(4))
}

/// The word of the line of a play.
fn word_in(written: &[u8]) -> &[u8] {
    code_in(written)
}

/// The code of an event line: the field before the score and the total.
fn code_in(written: &[u8]) -> &[u8] {
    let fields = after_colon(written);
    field_at(fields, count_fields(fields).saturating_sub(3))
}

/// Appends that a field is not an event, and what an event is.
fn push_no_event(text: &mut Vec<u8>, code: &[u8]) -> Result<(), AllocError> {
    say!(text; code, " is not an event: an event is a play with its position, word, score and total, ")?;
    say!(text; "or one of the codes -, --, -TILES, -NUMBER, (challenge), (time) and (TILES).\n")
}

/// Appends what is missing before the fields of an event.
fn push_no_colon(text: &mut Vec<u8>, written: &[u8]) -> Result<(), AllocError> {
    let Some(head) = before_colon(written) else {
        return say!(text; "An event begins with >, a nickname and a colon, but this line has no colon.\n");
    };
    match next_field(head) {
        None => say!(text; "There is no nickname before the colon.\n"),
        Some(_) => say!(text; "There is a space or a tab inside the nickname before the colon.\n"),
    }
}

/// Appends that a nickname is one too many.
fn push_third(
    alloc: Global,
    text: &mut Vec<u8>,
    front: &[u8],
    written: &[u8],
) -> Result<(), AllocError> {
    let Some(head) = before_colon(written) else {
        return say!(text; "This line gives a player the nickname that the other player already has.\n");
    };
    let nick = field_at(head, 0);
    let Ok(record) = read(alloc, front) else {
        return Err(AllocError);
    };
    push_nicks(text, &record, nick)
}

/// Appends the nicknames of both players, next to a third one.
fn push_nicks(text: &mut Vec<u8>, record: &Record, nick: &[u8]) -> Result<(), AllocError> {
    let first = record.players.first.nick.as_bytes();
    let second = record.players.second.nick.as_bytes();
    say!(text; nick, " is a third nickname: the players are ", first, " and ", second, ".\n")
}

/// Appends how many fields an event line has.
fn push_fields(text: &mut Vec<u8>, written: &[u8]) -> Result<(), AllocError> {
    let many = count_fields(after_colon(written));
    if many > 5 {
        return say!(text; "There are more than 5 fields after the colon, but an event has 3 to 5.\n");
    }
    let are = if many == 1 { "is" } else { "are" };
    say!(text; "There ", are, " ", (many, "field"), " after the colon, but an event has 3 to 5.\n")
}

/// Appends which of score and total is not a number.
fn push_no_number(text: &mut Vec<u8>, written: &[u8]) -> Result<(), AllocError> {
    let fields = after_colon(written);
    let many = count_fields(fields);
    let score = field_at(fields, many.saturating_sub(2));
    let total = field_at(fields, many.saturating_sub(1));
    if Points::of_bytes(score).is_none() {
        return say!(text; "The score ", score, " is not a number of 1 to 6 digits, with or without a sign.\n");
    }
    say!(text; "The total ", total, " is not a number of 1 to 6 digits, with or without a sign.\n")
}
