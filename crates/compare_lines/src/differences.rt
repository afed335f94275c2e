//! What is said of the lines of a pair.

use crate::written::{push_numbers, push_pair};
use compare_alignments::{Pair, Side};
use compare_answers::{LinesAnswer, OtherLine};
use compare_choices::Sheets;
use engine_stages::{GameFault, fault_text};
use explain_parts::say;
use game_turns::RuleFault;
use std::alloc::{AllocError, Global};

/// The words for a sheet.
fn name_of(side: Side) -> &'static str {
    match side {
        Side::First => "the first",
        Side::Second => "the second",
    }
}

/// The words for the other sheet.
fn other_name(side: Side) -> &'static str {
    match side {
        Side::First => "the second",
        Side::Second => "the first",
    }
}

/// Appends that the event of the pair at an index is refused, and why.
pub(crate) fn push_stop(
    alloc: Global,
    text: &mut Vec<u8>,
    sheets: &Sheets,
    at: Option<usize>,
    why: RuleFault,
) -> Result<(), AllocError> {
    if let Some(index) = at {
        if let Some(pair) = sheets.pairs.as_slice().get(index) {
            push_numbers(text, sheets, pair)?;
        }
    }
    let fault = fault_text(alloc, &GameFault::Rule(why))?;
    say!(text; " is refused: ", fault.as_slice())
}

/// Appends that the event is refused with the line of the sheet that is not taken.
fn push_refused(
    alloc: Global,
    text: &mut Vec<u8>,
    sheets: &Sheets,
    side: Side,
    at: Option<usize>,
    why: RuleFault,
) -> Result<(), AllocError> {
    say!(text; ": ", name_of(side), "; with ", other_name(side), ", ")?;
    push_stop(alloc, text, sheets, at, why)
}

/// Appends which line of an item is taken, and what comes of the other one.
fn push_taken(
    alloc: Global,
    text: &mut Vec<u8>,
    sheets: &Sheets,
    side: Side,
    other: OtherLine,
) -> Result<(), AllocError> {
    let taken = name_of(side);
    let sheet = other_name(side);
    match other {
        OtherLine::NotVaried => say!(text; ": not varied, ", taken, " is taken"),
        OtherLine::AsGood => say!(text; ": both stand"),
        OtherLine::Refused { at, why } => push_refused(alloc, text, sheets, side, at, why),
        OtherLine::NoDeal => say!(text; ": ", taken, "; with ", sheet, " no deal yields the racks"),
        OtherLine::NoDealFound => say!(text; ": ", taken, "; with ", sheet, " no deal was found"),
        OtherLine::OtherScore { written, right } =>
            say!(text; ": ", taken, "; ", sheet, " gives ", right, ", and ", written, " is written"),
        OtherLine::MoreWrong => say!(text; ": ", taken, "; ", sheet, " leaves more wrong"),
    }
}

/// Appends what is said of the lines of a pair, unless they agree: the lines, and the right score, or which of them the rules support.
pub(crate) fn push_lines(
    alloc: Global,
    text: &mut Vec<u8>,
    sheets: &Sheets,
    pair: &Pair,
    answer: LinesAnswer,
) -> Result<(), AllocError> {
    match answer {
        LinesAnswer::Agree => return Ok(()),
        LinesAnswer::Differ => push_pair(text, sheets, pair)?,
        LinesAnswer::OtherScores { right } => {
            push_pair(text, sheets, pair)?;
            say!(text; ": the rules give ", right)?;
        }
        LinesAnswer::Taken { side, other } => {
            push_pair(text, sheets, pair)?;
            push_taken(alloc, text, sheets, side, other)?;
        }
    }
    say!(text; "\n")
}
