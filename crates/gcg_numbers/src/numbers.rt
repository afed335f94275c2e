//! The numbers of an event in the text of its line.
ghost use Rattle.std.specs.Prelude.{◌≡◌, ◌++◌, OnOk};
ghost use Rattle.std.specs.Fmt.{signed_decimal};
ghost use Rattle.gcg_write.specs.Fields.{score_text};
ghost use Rattle.gcg_read.specs.Numerals.{points_of};
ghost use Rattle.gcg_numbers.specs.Numbers.{last_field, says, number_text, with_score, with_numbers};

use crate::cutting::last_field;
use gcg_read::{Event, Points};
use std::alloc::AllocError;
use text_decimals::push_number;

/// Whether a field is this number.
fn says(field: &[u8], right: Points) -> bool
    ensures { result ≡ says (points_of field.now) right }
{
    match Points::of_bytes(field) {
        Some(written) => written.value() == right.value(),
        None => false,
    }
}

/// Appends a score as records write it, with its sign.
fn push_signed(out: &mut Vec<u8>, score: Points) -> Result<(), AllocError>
    ensures { OnOk result (out.new.items ≡ out.old.items ++ score_text score) }
{
    if score.value() >= 0 {
        out.push(b'+')?;
    }
    push_number(out, score.value())
}

/// Appends a score: the field as it is if it is right.
fn push_score(out: &mut Vec<u8>, field: &[u8], right: Points) -> Result<(), AllocError>
    ensures { OnOk result (out.new.items ≡ out.old.items ++ number_text field.now right (score_text right)) }
{
    if says(field, right) {
        return out.extend_from_slice(field);
    }
    push_signed(out, right)
}

/// Appends a total: the field as it is if it is right.
fn push_total(out: &mut Vec<u8>, field: &[u8], right: Points) -> Result<(), AllocError>
    ensures { OnOk result (out.new.items ≡ out.old.items ++ number_text field.now right (signed_decimal right)) }
{
    if says(field, right) {
        return out.extend_from_slice(field);
    }
    push_number(out, right.value())
}

/// Appends a text whose last field is a score.
fn push_to_score(out: &mut Vec<u8>, text: &[u8], right: Points) -> Result<(), AllocError>
    ensures { OnOk result (out.new.items ≡ out.old.items ++ with_score text.now right (last_field text.now)) }
{
    let Some(score) = last_field(text) else {
        return out.extend_from_slice(text);
    };
    out.extend_from_slice(score.front)?;
    push_score(out, score.field, right)?;
    out.extend_from_slice(score.back)
}

/// Appends a text whose last two fields are the score and the total of an event.
#[tactic(auto, unfolding(crate::specs::Numbers::with_numbers))]
pub fn push_numbers(out: &mut Vec<u8>, text: &[u8], event: &Event) -> Result<(), AllocError>
    ensures { OnOk result (out.new.items ≡ out.old.items ++ with_numbers event.now text.now) }
{
    let Some(total) = last_field(text) else {
        return out.extend_from_slice(text);
    };
    push_to_score(out, total.front, event.score)?;
    push_total(out, total.field, event.total)?;
    out.extend_from_slice(total.back)
}
