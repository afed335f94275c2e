//! The encoding that a record states.
ghost use Rattle.std.specs.Prelude.{◌≡◌};
ghost use Rattle.gcg_about.specs.Encodings.{is_latin, is_pragma, is_latin_pragma, states_latin, encoding_of};

use text_lines::{Lines, next_field, without_mark};

/// How the bytes of a record are read as text.
#[derive(Clone, Copy, Debug, PartialEq, Eq)]
pub enum Encoding {
    /// As UTF-8; bytes that are not UTF-8 become U+FFFD.
    Utf8,
    /// As ISO-8859-1: each byte is the character of that number.
    Latin1,
}

/// Whether this is the name of ISO-8859-1, in letters of either case.
fn is_latin(name: &[u8]) -> bool
    ensures { result ≡ is_latin name.now }
{
    match name {
        [i, s, o, rest @ ..] => {
            i.eq_ignore_ascii_case(&b'i')
                && s.eq_ignore_ascii_case(&b's')
                && o.eq_ignore_ascii_case(&b'o')
                && rest == b"-8859-1".as_slice()
        }
        _ => false,
    }
}

/// Whether this is the word of the pragma that states an encoding.
fn is_pragma(word: &[u8]) -> bool
    ensures { result ≡ is_pragma word.now }
{
    word == b"#character-encoding".as_slice()
}

/// Whether a line states the encoding ISO-8859-1.
fn is_latin_pragma(line: &[u8]) -> bool
    ensures { result ≡ is_latin_pragma line.now }
{
    if !line.starts_with(b"#") {
        return false;
    }
    let Some(word) = next_field(line) else {
        return false;
    };
    match next_field(word.after) {
        None => false,
        Some(name) => is_pragma(word.bytes) && is_latin(name.bytes),
    }
}

/// Whether some line of a text states the encoding ISO-8859-1.
fn states_latin(text: &[u8]) -> bool
    ensures { result ≡ states_latin text.now }
{
    for line in Lines::of(text) {
        if is_latin_pragma(line) {
            return true;
        }
    }
    false
}

impl Encoding {
    /// The encoding of a record: ISO-8859-1 if a line `#character-encoding ISO-8859-1` states it, otherwise UTF-8.
    pub fn of(text: &[u8]) -> Encoding
        ensures { result ≡ encoding_of text.now }
    {
        if states_latin(without_mark(text)) {
            Encoding::Latin1
        } else {
            Encoding::Utf8
        }
    }
}
