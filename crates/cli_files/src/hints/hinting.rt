//! The hint that goes with the line of a fault.

use crate::hints::items::write_missing;
use crate::hints::limits::Limit;
use crate::hints::racks::RackHint;
use std::fmt;
use text_lines::without_mark;

/// What is known of the inputs of a call.
#[derive(Clone, Copy)]
pub struct Known<'a> {
    /// The name of the word list in messages.
    pub words: &'a str,
    /// The first bytes of the word list.
    pub words_front: &'a [u8],
    /// The name of the lexicon in messages.
    pub lexicon: &'a str,
    /// The rules text.
    pub rules: &'a [u8],
    /// The rack of the command line, if it has one.
    pub rack: Option<&'a str>,
}

impl Known<'_> {
    /// Nothing is known.
    pub const NOTHING: Known<'static> = Known {
        words: "",
        words_front: b"",
        lexicon: "",
        rules: b"",
        rack: None,
    };
}

/// What may help with a fault, besides its line. Its text is a clause without a full stop.
#[derive(Clone, Copy)]
pub enum Hint<'a> {
    /// The text is not a rack.
    Rack(RackHint<'a>),
    /// The command line names no rack, and the line shows none.
    NoRack,
    /// The rules text leaves items out.
    Missing(&'a [u8]),
    /// A number of the rules text is outside its limits.
    Limit(Limit),
    /// The lexicon is that of another list.
    OtherList { words: &'a str, lexicon: &'a str },
    /// A lexicon is given as the word list.
    NoList { words: &'a str },
    /// A game record is given as the word list.
    Record { words: &'a str },
}

impl<'a> Hint<'a> {
    /// What may help with a fault, by its line.
    pub fn of(line: &[u8], known: &Known<'a>) -> Option<Hint<'a>> {
        if line.starts_with(b"bad rack") {
            return match known.rack {
                Some(rack) => Some(Hint::Rack(RackHint::of(rack))),
                None => Some(Hint::NoRack),
            };
        }
        if line.starts_with(b"bad rules") {
            return Hint::of_rules(line, known.rules);
        }
        Hint::of_pair(line, known)
    }

    /// What may help with a fault of a rules text, by its line.
    fn of_rules(line: &[u8], text: &'a [u8]) -> Option<Hint<'a>> {
        if line.starts_with(b"bad rules: Missing") {
            Some(Hint::Missing(text))
        } else if line.starts_with(b"bad rules: Limits") {
            Some(Hint::Limit(Limit::first(text)?))
        } else {
            None
        }
    }

    /// What may help with a fault of a word list or of its lexicon, by its line.
    fn of_pair(line: &[u8], known: &Known<'a>) -> Option<Hint<'a>> {
        let Known { words, lexicon, .. } = *known;
        if line.starts_with(b"bad word list") && is_lexicon(known.words_front) {
            Some(Hint::NoList { words })
        } else if line.starts_with(b"bad word list") && is_record(known.words_front) {
            Some(Hint::Record { words })
        } else if is_of_other_list(line) {
            Some(Hint::OtherList { words, lexicon })
        } else {
            None
        }
    }
}

/// Whether a text begins like a compiled lexicon.
fn is_lexicon(text: &[u8]) -> bool {
    text.starts_with(b"GAD1") || text.starts_with(b"GAD2")
}

/// Whether a text begins like a game record: with an event, or with a pragma.
fn is_record(text: &[u8]) -> bool {
    match without_mark(text) {
        [b'>', ..] => true,
        [b'#', letter, ..] => letter.is_ascii_lowercase(),
        _ => false,
    }
}

/// Whether the line of a fault says that a lexicon is that of another list.
fn is_of_other_list(line: &[u8]) -> bool {
    line.starts_with(b"bad lexicon: Missing")
        || line.starts_with(b"bad lexicon: Extra")
        || line.starts_with(b"bad lexicon: WordCount")
}

impl fmt::Display for Hint<'_> {
    fn fmt<W: fmt::Write>(&self, f: &mut fmt::Formatter<W>) -> fmt::Result {
        match self {
            Hint::Rack(rack) => write!(f, "{rack}"),
            Hint::NoRack => write!(f, "the line shows no rack: name one after GAME"),
            Hint::Missing(text) => {
                write!(f, "the rules text has no line for ")?;
                write_missing(text, f)
            }
            Hint::Limit(limit) => write!(f, "{limit}"),
            Hint::OtherList { words, lexicon } => write!(
                f,
                "{lexicon} is not the lexicon of {words}, but of another list: referee build makes the right one"
            ),
            Hint::NoList { words } => write!(
                f,
                "{words} is a compiled lexicon, not a word list: the two names are the wrong way round"
            ),
            Hint::Record { words } => write!(
                f,
                "{words} is a game record, not a word list: the files are WORDS, LEXICON and GAME, in this order"
            ),
        }
    }
}
