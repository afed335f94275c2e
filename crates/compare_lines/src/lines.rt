//! The lines of an answer.

use crate::differences::{push_lines, push_stop};
use crate::racks::push_racks;
use crate::repaired::push_repaired;
use crate::results::push_results;
use compare_alignments::{MOST_ITEMS, Side, chosen_side};
use compare_answers::{ComparisonAnswer, GameEnd};
use compare_choices::Stop;
use explain_parts::say;
use game_case::{Finding, finding_line};
use std::alloc::{AllocError, Global};

/// Appends what is said of the pair at an index, if it differs.
fn push_pair_at(
    alloc: Global,
    text: &mut Vec<u8>,
    answer: &ComparisonAnswer,
    index: usize,
) -> Result<(), AllocError> {
    let sheets = &answer.sheets;
    let (Some(pair), Some(found)) = (
        sheets.pairs.as_slice().get(index),
        answer.pairs.as_slice().get(index),
    ) else {
        return Ok(());
    };
    push_lines(alloc, text, sheets, pair, found.lines)?;
    push_racks(text, sheets, pair, found.racks)
}

/// Appends how many other choices are as good, if there are any.
fn push_rivals(text: &mut Vec<u8>, answer: &ComparisonAnswer) -> Result<(), AllocError> {
    let rivals = answer.comparison.find.rivals.len();
    if rivals == 0 {
        return Ok(());
    }
    say!(text; (rivals, "other choice"), " of the lines would stand as well\n")
}

/// Appends how many choices are left open, if there are any.
fn push_remaining(text: &mut Vec<u8>, answer: &ComparisonAnswer) -> Result<(), AllocError> {
    let remaining = answer.comparison.find.remaining.len();
    if remaining == 0 {
        return Ok(());
    }
    say!(text; "of ", (remaining, "choice"), " of the lines it is not known whether a deal yields the racks\n")
}

/// Appends which lines a choice takes.
fn push_taken(text: &mut Vec<u8>, choice: usize, items: usize) -> Result<(), AllocError> {
    for number in 0..items.min(MOST_ITEMS) {
        let side = chosen_side(choice, number);
        let name = match side {
            Side::First => "first",
            Side::Second => "second",
        };
        let front = if number == 0 { "" } else { ", " };
        say!(text; front, name)?;
    }
    Ok(())
}

/// Appends which lines a choice takes, if there is a choice.
pub(crate) fn push_name(
    text: &mut Vec<u8>,
    answer: &ComparisonAnswer,
    choice: usize,
) -> Result<(), AllocError> {
    let items = answer.counts.items;
    if items == 0 {
        say!(text; "the record of both sheets")
    } else {
        push_taken(text, choice, items)
    }
}

/// Appends where the choice that goes furthest stops.
fn push_furthest(
    alloc: Global,
    text: &mut Vec<u8>,
    answer: &ComparisonAnswer,
    stop: &Stop,
) -> Result<(), AllocError> {
    push_name(text, answer, stop.choice)?;
    let why = stop.stopped.refusal.why;
    say!(text; " goes furthest: ")?;
    push_stop(alloc, text, &answer.sheets, answer.stop_at, why)?;
    say!(text; "\n")
}

/// Appends that no choice makes a game.
fn push_none(
    alloc: Global,
    text: &mut Vec<u8>,
    answer: &ComparisonAnswer,
) -> Result<(), AllocError> {
    say!(text; "none of ", (answer.counts.choices, "choice"), " of the lines is known to be a game\n")?;
    match &answer.comparison.furthest {
        Some(stop) => push_furthest(alloc, text, answer, stop),
        None => Ok(()),
    }
}

/// Appends the verdict on the game, the last totals that differ, and who won.
fn push_end(
    alloc: Global,
    text: &mut Vec<u8>,
    answer: &ComparisonAnswer,
    end: &GameEnd,
) -> Result<(), AllocError> {
    let line = finding_line(
        alloc,
        &Finding::Legal {
            complete: end.complete,
        },
    )?;
    text.extend_from_slice(line.as_slice())?;
    push_results(
        text,
        &answer.sheets.first.players,
        &end.results,
        end.complete,
    )
}

/// Appends what is found of two sheets: each difference with its lines and what the rules say of them, the verdict on the merged record, the last totals
/// that differ, and who won. If no choice of the lines makes a game, the verdict is that on the record of a choice with one more change, if there is one.
///
/// It fails only if memory runs out.
pub fn push_comparison(
    alloc: Global,
    text: &mut Vec<u8>,
    answer: &ComparisonAnswer,
) -> Result<(), AllocError> {
    for index in 0..answer.pairs.len() {
        push_pair_at(alloc, text, answer, index)?;
    }
    if answer.comparison.find.best.is_some() {
        push_rivals(text, answer)?;
        push_remaining(text, answer)?;
    } else {
        push_remaining(text, answer)?;
        push_none(alloc, text, answer)?;
        push_repaired(text, answer)?;
    }
    match &answer.end {
        Some(end) => push_end(alloc, text, answer, end),
        None => Ok(()),
    }
}
