//! What is said of a choice that one more change makes a game.

use crate::lines::push_name;
use compare_alignments::Side;
use compare_answers::ComparisonAnswer;
use compare_repaired::{BestRepair, RepairedChoice};
use explain_parts::say;
use repair_lines::push_change;
use repair_single::Repair;
use std::alloc::AllocError;

/// The words for the sheet whose line is changed; an empty text if the line has the same number on both.
fn words_for(changed: Option<Side>) -> &'static str {
    match changed {
        Some(Side::First) => "first sheet, ",
        Some(Side::Second) => "second sheet, ",
        None => "",
    }
}

/// Appends which lines a repaired choice takes, and its first repair.
fn push_first(
    text: &mut Vec<u8>,
    answer: &ComparisonAnswer,
    choice: &RepairedChoice,
    repair: &Repair,
) -> Result<(), AllocError> {
    push_name(text, answer, choice.choice)?;
    say!(text; " is a game with one more change: ", words_for(answer.changed))?;
    push_change(
        text,
        &answer.sheets.first.players,
        choice.written.as_slice(),
        &repair.listed.change,
        repair.right.as_slice(),
    )?;
    say!(text; "\n")
}

/// Appends that a repair is not ahead of all others, if that is so.
fn push_rival(text: &mut Vec<u8>, best: &BestRepair) -> Result<(), AllocError> {
    if best.ahead {
        return Ok(());
    }
    say!(text; "another change would make a game as well\n")
}

/// Appends the repaired choice with the cheapest repair, if there is one.
pub(crate) fn push_repaired(
    text: &mut Vec<u8>,
    answer: &ComparisonAnswer,
) -> Result<(), AllocError> {
    let repaired = &answer.repaired;
    let (Some(best), Some(choice), Some(repair)) = (
        repaired.best,
        repaired.best_choice(),
        repaired.best_repair(),
    ) else {
        return Ok(());
    };
    push_first(text, answer, choice, repair)?;
    push_rival(text, &best)
}
