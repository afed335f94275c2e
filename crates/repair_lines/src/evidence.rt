//! The evidence for a repair: which numbers of the sheet are right then and which are not, and which words are not in the list.

use explain_parts::{Part, say};
use game_corrections::{WrongNumber, due};
use game_turns::SpelledWord;
use repair_single::Remains;
use std::alloc::AllocError;
use text_decimals::push_number;

/// Appends a number of a line that is wrong, and the right one.
fn push_on_line(
    text: &mut Vec<u8>,
    line: u32,
    what: &'static str,
    written: i32,
    right: i32,
) -> Result<(), AllocError> {
    say(
        text,
        &[
            Part::Say("  line "),
            Part::Line(line),
            Part::Say(": "),
            Part::Say(what),
            Part::Points(written),
            Part::Say(", should be "),
            Part::Points(right),
            Part::Say("\n"),
        ],
    )
}

/// Appends a number that is wrong.
fn push_wrong(text: &mut Vec<u8>, number: &WrongNumber) -> Result<(), AllocError> {
    match number {
        WrongNumber::Score {
            line,
            written,
            right,
        } => push_on_line(text, *line, "score ", *written, *right),
        WrongNumber::Sum {
            line,
            written,
            sum,
            right,
        } => push_on_line(text, *line, "sum ", *written, due(*sum, *right)),
        WrongNumber::Total { .. } => Ok(()),
    }
}

/// Appends words, with a comma between two of them.
fn push_words(text: &mut Vec<u8>, words: &[SpelledWord]) -> Result<(), AllocError> {
    let mut between: &[u8] = b"";
    for word in words {
        text.extend_from_slice(between)?;
        text.extend_from_slice(word.letters.as_slice())?;
        between = b", ";
    }
    Ok(())
}

/// Appends the words that are not in the list, if there are any.
fn push_unlisted(text: &mut Vec<u8>, words: &[SpelledWord]) -> Result<(), AllocError> {
    if words.is_empty() {
        return Ok(());
    }
    text.extend_from_slice(b"  not in the list: ")?;
    push_words(text, words)?;
    text.extend_from_slice(b"\n")
}

/// Appends how many of `numbers` numbers are right, and how many there are, such as `90 of 90`.
///
/// It fails only if memory runs out.
pub(crate) fn push_share(
    text: &mut Vec<u8>,
    remains: &Remains,
    numbers: u128,
) -> Result<(), AllocError> {
    let right = numbers.saturating_sub(remains.wrong.len() as u128);
    push_number(text, right)?;
    text.extend_from_slice(b" of ")?;
    push_number(text, numbers)
}

/// Appends how many of `numbers` numbers are right, each number that is not, and each word that is not in the list.
///
/// It fails only if memory runs out.
pub(crate) fn push_evidence(
    text: &mut Vec<u8>,
    remains: &Remains,
    numbers: u128,
) -> Result<(), AllocError> {
    text.extend_from_slice(b"  ")?;
    push_share(text, remains, numbers)?;
    text.extend_from_slice(b" numbers right\n")?;
    for number in remains.wrong.as_slice() {
        push_wrong(text, number)?;
    }
    push_unlisted(text, remains.unlisted.as_slice())
}
