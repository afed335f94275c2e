//! The lines of a sheet as they are written: each without its LF, but with the CR that may be before that.
ghost use Rattle.std.specs.Prelude.{◌≡◌, ◌<◌, ◌++◌, ◌∷◌, length, IfSome, OnOk};
ghost use Rattle.std.specs.List.{position, slice_split};
ghost use Rattle.text_lines.specs.Lines.{is_feed};
ghost use Rattle.gcg_numbers.specs.Lines.{parts_after};
ghost use Rattle.gcg_numbers.specs.Numbers.{is_event_line, mark_of};

use bstr::ByteSlice;
use std::alloc::AllocError;

/// The first line of a text, and the text after it.
#[derive(Clone, Copy)]
pub struct RawLine<'a> {
    /// The line, which has no LF.
    pub line: &'a [u8],
    /// What is after its LF; none if the text ends with the line.
    pub after: Option<&'a [u8]>,
}

/// The place of the first LF of a text.
#[tactic(auto, using(text_lines::proofs::Cuts::first_byte))]
fn find_feed(text: &[u8]) -> Option<usize>
    ensures { result ≡ position is_feed text.now }
{
    text.find_byte(b'\n')
}

/// Cuts the first line off a text.
#[tactic(auto, using(crate::proofs::Cuts::lines_end))]
pub fn cut_raw_line(text: &[u8]) -> RawLine<'_>
    ensures lines { slice_split is_feed text.now ≡ result.line.now ∷ parts_after result.after }
    ensures shorter { IfSome result.after (λ after. length after.now < length text.now) }
{
    match find_feed(text) {
        None => RawLine {
            line: text,
            after: None,
        },
        Some(end) => RawLine {
            line: &text[..end],
            after: Some(&text[end + 1..]),
        },
    }
}

/// Whether a line is that of an event: it begins with `>`.
pub fn is_event_line(line: &[u8]) -> bool
    ensures { result ≡ is_event_line line.now }
{
    line.starts_with(b">")
}

/// Appends the byte order mark of a text, if it has one.
///
/// # Errors
///
/// Memory ran out.
pub fn push_mark(out: &mut Vec<u8>, text: &[u8]) -> Result<(), AllocError>
    ensures { OnOk result (out.new.items ≡ out.old.items ++ mark_of text.now) }
{
    if text.starts_with(&[0xef, 0xbb, 0xbf]) {
        return out.extend_from_slice(&[0xef, 0xbb, 0xbf]);
    }
    Ok(())
}
