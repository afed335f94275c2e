//! Bytes as text.
ghost use Rattle.std.specs.Prelude.{◌≡◌, IfOk};
ghost use Rattle.std.specs.String.{string_bytes};
ghost use Rattle.std.specs.Char.{encode_utf8};
ghost use Rattle.std.specs.List.{flat_map};
ghost use Rattle.gcg_about.specs.Texts.{text_by};

use crate::encodings::Encoding;
use std::alloc::{AllocError, Global};

/// Bytes as the characters of their numbers.
fn latin_text(alloc: Global, bytes: &[u8]) -> Result<String, AllocError>
    ensures { IfOk result (λ text. string_bytes text ≡ flat_map encode_utf8 bytes.now) }
{
    let mut text = String::new(alloc);
    for byte in bytes {
        text.push(char::from(*byte))?;
    }
    Ok(text)
}

impl Encoding {
    /// Bytes as text, by this encoding.
    ///
    /// # Errors
    ///
    /// Memory was refused.
    pub fn text_of(self, alloc: Global, bytes: &[u8]) -> Result<String, AllocError>
        ensures { IfOk result (λ text. string_bytes text ≡ text_by self bytes.now) }
    {
        match self {
            Encoding::Utf8 => String::from_utf8_lossy(alloc, bytes),
            Encoding::Latin1 => latin_text(alloc, bytes),
        }
    }
}
