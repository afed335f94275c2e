//! Fields of a line, separated by blanks.
ghost use Rattle.std.specs.Prelude.{◌≡◌, not};
ghost use Rattle.std.specs.List.{position};
ghost use Rattle.text_lines.specs.Fields.{is_blank, fields_of, fields_from};

use bstr::ByteSlice;

/// The first field of a text.
#[derive(Clone, Copy)]
pub struct Field<'a> {
    /// The field, which has a byte and no blank.
    pub bytes: &'a [u8],
    /// The text after it.
    pub after: &'a [u8],
}

/// The place of the first blank of a text, a space or a tab, if it has one.
#[tactic(auto, using(crate::proofs::FieldCuts::first_blank))]
pub fn find_blank(text: &[u8]) -> Option<usize>
    ensures { result ≡ position is_blank text.now }
{
    text.find_byteset(b" \t")
}

/// The place of the first byte of a text that is not a blank, if it has one.
#[tactic(auto, using(crate::proofs::FieldCuts::first_filled))]
pub fn find_filled(text: &[u8]) -> Option<usize>
    ensures { result ≡ position (λ byte. not (is_blank byte)) text.now }
{
    text.find_not_byteset(b" \t")
}

/// The first field of a text, if it has one. Fields are separated by runs of spaces and tabs.
#[tactic(auto, using(crate::proofs::FieldCuts::field_none, crate::proofs::FieldCuts::field_only, crate::proofs::FieldCuts::field_first))]
pub fn next_field(text: &[u8]) -> Option<Field<'_>>
    ensures { fields_of text.now ≡ fields_from result }
{
    let start = find_filled(text)?;
    let filled = &text[start..];
    match find_blank(filled) {
        None => Some(Field {
            bytes: filled,
            after: &[],
        }),
        Some(end) => Some(Field {
            bytes: &filled[..end],
            after: &filled[end + 1..],
        }),
    }
}
