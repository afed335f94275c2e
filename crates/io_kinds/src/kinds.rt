//! The kinds of files that are mistaken for records.
ghost use Rattle.std.specs.Prelude.{◌≡◌, ◌↔◌, IsTrue};
ghost use Rattle.std.specs.List.{list_all, list_any};
ghost use Rattle.std.specs.Char.{is_ascii_alphabetic};
ghost use Rattle.text_lines.specs.Lines.{is_feed, lines_in};
ghost use Rattle.io_kinds.specs.Kinds.{kind_of, is_lexicon, is_gzip, is_zip, is_wide, is_markup, is_return, has_returns_alone, is_indented_event, has_indented_events, is_word_line, begins_with_letter, is_list, is_event, has_events};

use text_lines::{Lines, next_field, without_mark};

/// What a file seems to be.
#[derive(Clone, Copy, Debug, PartialEq, Eq)]
pub enum FileKind {
    /// It has no byte.
    Empty,
    /// It begins like a compiled lexicon.
    Lexicon,
    /// It begins like a file that `gzip` made ([RFC 1952](https://www.rfc-editor.org/rfc/rfc1952), 2.3.1).
    Gzip,
    /// It begins like an archive of the format ZIP.
    Zip,
    /// It begins like text in UTF-16, with a byte order mark or with a zero byte for every other one.
    Utf16,
    /// Its first field begins with `<`, as that of HTML does.
    Markup,
    /// Its lines end in CR only.
    Returns,
    /// Some line would be an event without the blanks before it.
    Indented,
    /// It begins with a letter, and its lines are words of 2 to 15 letters, or empty.
    Words,
    /// It is none of these.
    Other,
}

/// Whether a text begins like a compiled lexicon of either format.
fn is_lexicon(text: &[u8]) -> bool
    ensures { result ≡ is_lexicon text.now }
{
    text.starts_with(b"GAD1") || text.starts_with(b"GAD2")
}

/// Whether a text begins like a file that `gzip` made.
fn is_gzip(text: &[u8]) -> bool
    ensures { result ≡ is_gzip text.now }
{
    text.starts_with(&[0x1f, 0x8b])
}

/// Whether a text begins like a ZIP archive.
fn is_zip(text: &[u8]) -> bool
    ensures { result ≡ is_zip text.now }
{
    text.starts_with(&[0x50, 0x4b, 3, 4])
}

/// Whether a text begins like one in UTF-16.
fn is_wide(text: &[u8]) -> bool
    ensures { result ≡ is_wide text.now }
{
    match text {
        [0xff, 0xfe, ..] | [0xfe, 0xff, ..] | [0, ..] | [_, 0, ..] => true,
        _ => false,
    }
}

/// Whether the first field of a text begins with `<`.
fn is_markup(text: &[u8]) -> bool
    ensures { result ≡ is_markup text.now }
{
    match next_field(text) {
        Some(field) => field.bytes.starts_with(b"<"),
        None => false,
    }
}

/// Whether a text has a CR.
fn has_return(text: &[u8]) -> bool
    ensures { result ≡ list_any is_return text.now }
{
    text.iter().any(|byte| *byte == b'\r')
}

/// Whether a text has an LF.
fn has_feed(text: &[u8]) -> bool
    ensures { result ≡ list_any is_feed text.now }
{
    text.iter().any(|byte| *byte == b'\n')
}

/// Whether a text has a CR and no LF.
fn has_returns_alone(text: &[u8]) -> bool
    ensures { result ≡ has_returns_alone text.now }
{
    has_return(text) && !has_feed(text)
}

/// Whether a line begins with a blank, and its first field with `>`.
fn is_indented_event(line: &[u8]) -> bool
    ensures { result ≡ is_indented_event line.now }
{
    if line.starts_with(b">") {
        return false;
    }
    match next_field(line) {
        Some(field) => field.bytes.starts_with(b">"),
        None => false,
    }
}

/// Whether some line of a text would be an event without the blanks before it.
fn has_indented_events(text: &[u8]) -> bool
    ensures { result ≡ has_indented_events text.now }
{
    for line in Lines::of(text) {
        if is_indented_event(line) {
            return true;
        }
    }
    false
}

/// Whether the bytes are letters alone.
fn are_letters(text: &[u8]) -> bool
    ensures { result ≡ list_all is_ascii_alphabetic text.now }
{
    text.iter().all(u8::is_ascii_alphabetic)
}

/// Whether a line is empty, or a word of 2 to 15 letters.
fn is_word_line(line: &[u8]) -> bool
    ensures { result ≡ is_word_line line.now }
{
    line.is_empty() || (2 <= line.len() && line.len() <= 15 && are_letters(line))
}

/// Whether a text begins with a letter.
fn begins_with_letter(text: &[u8]) -> bool
    ensures { result ≡ begins_with_letter text.now }
{
    match text {
        [first, ..] => first.is_ascii_alphabetic(),
        [] => false,
    }
}

/// Whether a text begins with a letter, and each of its lines is empty or a word of 2 to 15 letters.
fn is_list(text: &[u8]) -> bool
    ensures { result ≡ is_list text.now }
{
    begins_with_letter(text) && are_word_lines(text)
}

/// Whether each line of a text is empty, or a word of 2 to 15 letters.
fn are_word_lines(text: &[u8]) -> bool
    ensures { result ≡ list_all is_word_line (lines_in text.now) }
{
    for line in Lines::of(text) {
        if !is_word_line(line) {
            return false;
        }
    }
    true
}

/// Whether a line of a text, after a byte order mark, begins like an event.
pub fn has_events(text: &[u8]) -> bool
    ensures { result ≡ has_events text.now }
{
    has_event_lines(without_mark(text))
}

/// Whether a line begins like an event.
fn is_event(line: &[u8]) -> bool
    ensures { result ≡ is_event line.now }
{
    line.starts_with(b">")
}

/// Whether some line begins like an event.
fn has_event_lines(text: &[u8]) -> bool
    ensures { result ≡ list_any is_event (lines_in text.now) }
{
    for line in Lines::of(text) {
        if is_event(line) {
            return true;
        }
    }
    false
}

impl FileKind {
    /// What a text without an event seems to be: the first kind, in the order in which they are declared, whose signs it has.
    #[tactic(auto, unfolding(crate::specs::Kinds::kind_of))]
    pub fn of(text: &[u8]) -> FileKind
        ensures { result ≡ kind_of text.now }
    {
        if text.is_empty() {
            FileKind::Empty
        } else if is_lexicon(text) {
            FileKind::Lexicon
        } else if is_gzip(text) {
            FileKind::Gzip
        } else if is_zip(text) {
            FileKind::Zip
        } else if is_wide(text) {
            FileKind::Utf16
        } else if is_markup(without_mark(text)) {
            FileKind::Markup
        } else if has_returns_alone(text) {
            FileKind::Returns
        } else if has_indented_events(without_mark(text)) {
            FileKind::Indented
        } else if is_list(without_mark(text)) {
            FileKind::Words
        } else {
            FileKind::Other
        }
    }

    /// What is said of such a file: a clause whose subject is the file.
    pub fn sentence(self) -> &'static str {
        match self {
            FileKind::Empty => "it is empty",
            FileKind::Lexicon => "it is a compiled lexicon",
            FileKind::Gzip => "it is compressed (gzip)",
            FileKind::Zip => "it is compressed (zip)",
            FileKind::Utf16 => "it is text in UTF-16, and records are read as UTF-8 or ISO-8859-1",
            FileKind::Markup => "it is HTML or another markup",
            FileKind::Returns => "its lines end only in CR, not in LF or CR LF",
            FileKind::Indented => "its lines begin with blanks before the >",
            FileKind::Words =>
                "it is a word list, and the files are WORDS, LEXICON and GAME, in this order",
            FileKind::Other => "no line begins with >",
        }
    }
}
