//! What the rules say of the lines of a pair.
ghost use Rattle.std.specs.Prelude.{◌≡◌, ◌≤◌, ◌<◌, length, slice_get, IfOk};
ghost use Rattle.std.specs.Option.{option_copied};
ghost use Rattle.compare_choices.specs.Comparisons.{flipped};
ghost use Rattle.compare_answers.specs.Lines.{worse, other_scores, IsRefused, IsOtherLine, IsLinesAnswer};

use crate::places::pair_of;
use crate::scores::{other_side, right_score, score_on};
use compare_alignments::{Pair, Side, chosen_side};
use compare_choices::{Best, Sheets, Stopped, Trial};
use game_turns::RuleFault;
use std::alloc::{AllocError, Global};

/// What comes of the best choice with the other line of an item.
#[derive(Clone, Copy)]
pub enum OtherLine {
    /// The item is not varied: only the first twelve are.
    NotVaried,
    /// It makes a game that costs as little.
    AsGood,
    /// An event is refused whatever its numbers are.
    Refused {
        /// The index of the pair from which the event is taken.
        at: Option<usize>,
        /// Why it is refused.
        why: RuleFault,
    },
    /// No deal yields the racks.
    NoDeal,
    /// Neither a deal nor a proof that there is none was found.
    NoDealFound,
    /// It makes a game that costs more, in which the other line has another score than is written.
    OtherScore {
        /// The score that is written.
        written: i32,
        /// The score that the rules give.
        right: i32,
    },
    /// It makes a game that costs more, and the score of the other line is right, or there is no other line.
    MoreWrong,
}

/// What the rules say of the lines of a pair.
#[derive(Clone, Copy)]
pub enum LinesAnswer {
    /// They agree, scores included; or they agree, and no choice of the lines is known to make a game.
    Agree,
    /// They agree but for the scores.
    OtherScores {
        /// The score that the rules give.
        right: i32,
    },
    /// They differ, and no choice of the lines is known to make a game.
    Differ,
    /// They differ, and the best choice takes one of them.
    Taken {
        /// The sheet whose line it takes.
        side: Side,
        /// What comes of the other line.
        other: OtherLine,
    },
}

/// A choice with the other line of the item with a number.
fn flipped(choice: usize, number: usize) -> usize
    requires { number < 12 }
    ensures { result ≡ flipped choice number }
{
    choice ^ (1 << number)
}

/// What a line with a wrong score, or with another wrong number, is worth.
fn worse(written: Option<i32>, right: Option<i32>) -> OtherLine
    ensures { result ≡ worse written right }
{
    match (written, right) {
        (Some(written), Some(right)) => {
            if written == right {
                OtherLine::MoreWrong
            } else {
                OtherLine::OtherScore { written, right }
            }
        }
        _ => OtherLine::MoreWrong,
    }
}

/// An event that is refused.
fn refused(
    alloc: Global,
    sheets: &Sheets,
    choice: usize,
    stopped: &Stopped,
) -> Result<OtherLine, AllocError>
    ensures { IfOk result (IsRefused sheets.now choice stopped.now) }
{
    let at = pair_of(alloc, sheets, choice, stopped.place)?;
    Ok(OtherLine::Refused {
        at,
        why: stopped.refusal.why,
    })
}

/// What comes of the other line of the pair at an index, which is the item with a number.
fn other_line(
    alloc: Global,
    sheets: &Sheets,
    pair: &Pair,
    index: usize,
    number: usize,
    best: &Best,
    flips: &[Trial],
) -> Result<OtherLine, AllocError>
    requires within { index ≤ length sheets.now.pairs.items }
    requires few { length flips.now ≤ 12 }
    ensures { IfOk result (IsOtherLine sheets.now pair.now index number best.now (slice_get flips.now number)) }
{
    let Some(flip) = flips.get(number) else {
        return Ok(OtherLine::NotVaried);
    };
    match flip {
        Trial::Stops(stopped) => { refused(alloc, sheets, flipped(best.choice, number), stopped) }
        Trial::NoGame => Ok(OtherLine::NoDeal),
        Trial::Open => Ok(OtherLine::NoDealFound),
        Trial::Game(game) => {
            if game.cost == best.cost {
                return Ok(OtherLine::AsGood);
            }
            let side = other_side(chosen_side(best.choice, number));
            let written = score_on(sheets, pair, side);
            let right = right_score(alloc, sheets, game, index)?;
            Ok(worse(written, right))
        }
    }
}

/// What is said of lines that agree, by the scores that are written and the one that the rules give.
fn other_scores(score: Option<i32>, other: Option<i32>, right: Option<i32>) -> LinesAnswer
    ensures { result ≡ other_scores score other right }
{
    match (score, other, right) {
        (Some(score), Some(other), Some(right)) => {
            if score == other {
                LinesAnswer::Agree
            } else {
                LinesAnswer::OtherScores { right }
            }
        }
        _ => LinesAnswer::Agree,
    }
}

/// What the rules say of the lines of the pair at an index. If they differ, they are the item with a number.
pub(crate) fn lines_answer(
    alloc: Global,
    sheets: &Sheets,
    pair: &Pair,
    index: usize,
    number: usize,
    best: Option<&Best>,
    flips: &[Trial],
) -> Result<LinesAnswer, AllocError>
    requires within { index ≤ length sheets.now.pairs.items }
    requires few { length flips.now ≤ 12 }
    ensures { IfOk result (IsLinesAnswer sheets.now pair.now index number (option_copied best.entry) (slice_get flips.now number)) }
{
    match best {
        Some(best) => {
            if pair.agrees {
                let first = score_on(sheets, pair, Side::First);
                let second = score_on(sheets, pair, Side::Second);
                let right = right_score(alloc, sheets, best, index)?;
                return Ok(other_scores(first, second, right));
            }
            let side = chosen_side(best.choice, number);
            let other = other_line(alloc, sheets, pair, index, number, best, flips)?;
            Ok(LinesAnswer::Taken { side, other })
        }
        None => {
            if pair.agrees {
                Ok(LinesAnswer::Agree)
            } else {
                Ok(LinesAnswer::Differ)
            }
        }
    }
}
