//! A text that is appended to the text of a page.
ghost use Rattle.std.specs.Prelude.{◌≡◌, ◌++◌, OnOk};
ghost use Rattle.std.specs.Str.Lossy.{utf8_lossy};
ghost use Rattle.page_pieces.specs.Escaping.{written, html_text};
ghost use Rattle.text_lines.specs.Fronts.{IsFront};

use std::alloc::{AllocError, Global};

/// Appends one byte of a text, or the name of the sign that it is.
#[tactic(auto, unfolding(crate::specs::Escaping::written))]
fn push_byte(out: &mut Vec<u8>, byte: u8) -> Result<(), AllocError>
    ensures done { OnOk result (out.new.items ≡ out.old.items ++ written byte) }
    ensures kept { IsFront out.old.items out.new.items }
{
    match byte {
        b'&' => out.extend_from_slice(b"&amp;"),
        b'<' => out.extend_from_slice(b"&lt;"),
        b'>' => out.extend_from_slice(b"&gt;"),
        b'"' => out.extend_from_slice(b"&quot;"),
        b'\'' => out.extend_from_slice(b"&#39;"),
        _ => {
            out.push(byte)?;
            Ok(())
        }
    }
}

/// Appends a text in the form that it may have between two tags and between the quotes of an attribute. Bytes that are not UTF-8
/// become U+FFFD, as in `String::from_utf8_lossy`.
///
/// The names are those of the [HTML standard](https://html.spec.whatwg.org/multipage/syntax.html#character-references).
///
/// # Errors
///
/// Memory was refused; `out` then begins with what it had.
#[tactic(auto, using(text_lines::proofs::Outputs::front_through))]
pub fn push_text(alloc: Global, out: &mut Vec<u8>, text: &[u8]) -> Result<(), AllocError>
    ensures done { OnOk result (out.new.items ≡ out.old.items ++ html_text (utf8_lossy text.now)) }
    ensures kept { IsFront out.old.items out.new.items }
{
    let readable = String::from_utf8_lossy(alloc, text)?;
    for byte in readable.as_bytes() {
        push_byte(out, *byte)?;
    }
    Ok(())
}
