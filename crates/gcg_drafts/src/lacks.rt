//! What an event line of a draft lacks.
ghost use Rattle.std.specs.Prelude.{◌≡◌};
ghost use Rattle.text_lines.specs.Fields.{fields_of};
ghost use Rattle.gcg_read.specs.EventLines.{has_digit};
ghost use Rattle.gcg_drafts.specs.Lacks.{is_code, is_place, needs_score, lacks_of, lacks_after_place, lacks_after_rack, lacks_in};

use crate::amiss::Amiss;
use crate::missing::Missing;
use text_lines::next_field;

/// Whether a field begins as a code does.
fn is_code(field: &[u8]) -> bool
    ensures { result ≡ is_code field.now }
{
    match field {
        [b'-', ..] => true,
        [b'(', ..] => true,
        _ => false,
    }
}

/// Whether one of the bytes is a digit.
fn has_digit(bytes: &[u8]) -> bool
    ensures { result ≡ has_digit bytes.now }
{
    bytes.iter().any(|byte| byte.is_ascii_digit())
}

/// Whether a field after a rack is a position: it has a digit, and does not begin as a code does.
fn is_place(field: &[u8]) -> bool
    ensures { result ≡ is_place field.now }
{
    !is_code(field) && has_digit(field)
}

/// Whether a code is that of a challenge or a penalty, whose score has to be written.
fn needs_score(code: &[u8]) -> bool
    ensures { result ≡ needs_score code.now }
{
    if code == b"(challenge)".as_slice() {
        return true;
    }
    code == b"(time)".as_slice()
}

/// What is missing of a score and a total, of which the fields of a text are what is written.
fn lacks_of(needs: bool, text: &[u8]) -> Result<Missing, Amiss>
    ensures { result ≡ lacks_of needs (fields_of text.now) }
{
    let Some(score) = next_field(text) else {
        if needs {
            return Err(Amiss::NoScore);
        }
        return Ok(Missing::Both);
    };
    let Some(total) = next_field(score.after) else {
        return Ok(Missing::Total);
    };
    if next_field(total.after).is_some() {
        return Err(Amiss::TooMany);
    }
    Ok(Missing::Nothing)
}

/// What is missing of the text after a position.
fn lacks_after_place(text: &[u8]) -> Result<Missing, Amiss>
    ensures { result ≡ lacks_after_place (fields_of text.now) }
{
    match next_field(text) {
        None => Err(Amiss::NoWord),
        Some(word) => lacks_of(false, word.after),
    }
}

/// What is missing of the text after a rack.
fn lacks_after_rack(text: &[u8]) -> Result<Missing, Amiss>
    ensures { result ≡ lacks_after_rack (fields_of text.now) }
{
    let Some(field) = next_field(text) else {
        return Err(Amiss::NoEvent);
    };
    if is_place(field.bytes) {
        return lacks_after_place(field.after);
    }
    lacks_of(needs_score(field.bytes), field.after)
}

/// What the text after the colon of an event line lacks of a score and a total, or what else is amiss with its fields. They are told from the left:
/// a field that begins as a code does is one; one with a digit is a position; and any other is a rack.
#[tactic(auto, unfolding(crate::specs::Lacks::lacks_in))]
pub fn lacks_in(text: &[u8]) -> Result<Missing, Amiss>
    ensures { result ≡ lacks_in (fields_of text.now) }
{
    let Some(field) = next_field(text) else {
        return Err(Amiss::NoEvent);
    };
    if is_code(field.bytes) {
        return lacks_of(needs_score(field.bytes), field.after);
    }
    if has_digit(field.bytes) {
        return lacks_after_place(field.after);
    }
    lacks_after_rack(field.after)
}
