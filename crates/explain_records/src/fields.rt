//! The fields of an event line.

use text_lines::next_field;

/// The greatest number of fields that are counted: one more than an event has.
const FIELDS: usize = 6;

/// Where the colon of an event line is, and whether the line is one.
fn colon_of(written: &[u8]) -> Option<usize> {
    if written.first() != Some(&b'>') {
        return None;
    }
    written.iter().position(|byte| *byte == b':')
}

/// What is between the > and the colon of an event line.
pub fn before_colon(written: &[u8]) -> Option<&[u8]> {
    let colon = colon_of(written)?;
    written.get(1..colon)
}

/// What is after the colon of an event line.
pub fn after_colon(written: &[u8]) -> &[u8] {
    let Some(colon) = colon_of(written) else {
        return b"";
    };
    match written.get(colon..) {
        Some([_, after @ ..]) => after,
        _ => b"",
    }
}

/// How many fields a text has, counted up to one more than an event has.
pub fn count_fields(text: &[u8]) -> usize {
    let mut remaining = text;
    for many in 0..FIELDS {
        match next_field(remaining) {
            None => return many,
            Some(field) => remaining = field.after,
        }
    }
    FIELDS
}

/// The field of a text with this number, counted from 0.
pub fn field_at(text: &[u8], number: usize) -> &[u8] {
    let mut remaining = text;
    for _k in 0..number {
        match next_field(remaining) {
            None => return b"",
            Some(field) => remaining = field.after,
        }
    }
    match next_field(remaining) {
        None => b"",
        Some(field) => field.bytes,
    }
}
