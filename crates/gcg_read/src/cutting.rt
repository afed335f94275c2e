//! The head of an event line, up to its colon.
ghost use Rattle.std.specs.Prelude.{◌≡◌};
ghost use Rattle.std.specs.List.{position};
ghost use Rattle.gcg_read.specs.Cutting.{is_colon, head_of, head_in};

use text_lines::{Field, next_field};

fn find_colon(text: &[u8]) -> Option<usize>
    ensures { result ≡ position is_colon text.now }
{
    text.iter().position(|byte| *byte == b':')
}

/// The nickname before the first colon of a text, which must be the only field there, with the text after the colon. None if there
/// is no colon, no field or more than one.
pub fn read_head(text: &[u8]) -> Option<Field<'_>>
    ensures { head_of text.now ≡ head_in result }
{
    let colon = find_colon(text)?;
    let field = next_field(&text[..colon])?;
    if next_field(field.after).is_some() {
        return None;
    }
    Some(Field {
        bytes: field.bytes,
        after: &text[colon + 1..],
    })
}
