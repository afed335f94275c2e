//! What is wrong on two sheets with a choice.
ghost use Rattle.std.specs.Prelude.{◌≡◌, ◌+◌, ◌+ℤ◌, ◌<◌, ◌≤◌, ℕ, List, length, map, min, if◌then◌else◌, Some, None, IfOk};
ghost use Rattle.std.specs.Ordering.{int_eq};
ghost use Rattle.gcg_read.specs.Numerals.{IsPoints};
ghost use Rattle.ref_tiles.specs.declared.rulebook.Rules.{Rules};
ghost use Rattle.game_case.specs.Archiving.{unlisted_plays};
ghost use Rattle.game_corrections.specs.WrongNumbers.{is_right_sum, wrong_at, wrong_lines};
ghost use Rattle.game_walk.specs.Numbers.{numbers_in};
ghost use Rattle.draft_numbers.specs.Numbers.{wrong_written};
ghost use Rattle.compare_choices.specs.Choices.{wrong_on, costs, cost_of};
ghost use Rattle.compare_choices.specs.Lacking.{choice_lacks};

use crate::corrections::Corrected;
use crate::sheets::Sheets;
use compare_alignments::{Lacks, NumbersOf, Side, count_other_racks};
use draft_numbers::wrong_written;
use game_corrections::{had_before, is_right_sum};
use game_walk::numbers_of;
use gcg_read::Event;
use std::alloc::{AllocError, Global};

/// 1 if the score of a line is wrong, and otherwise 0.
fn score_wrong(line: &Event, right: &Event) -> usize
    ensures number { result ≡ (if int_eq line.now.score right.now.score then 0 else 1) }
    ensures few { result ≤ 1 }
{
    if line.score.value() == right.score.value() {
        0
    } else {
        1
    }
}

/// 1 if the total of a line is wrong, by what its player had and by the right total, and otherwise 0.
fn sum_wrong(line: &Event, had: i32, right: &Event) -> usize
    requires { IsPoints had }
    ensures number { result ≡ (if is_right_sum line.now.total (had +ℤ line.now.score) (Some right.now.total) then 0 else 1) }
    ensures few { result ≤ 1 }
{
    let due = Some(right.total.value());
    if is_right_sum(line.total, had, line.score, due) {
        0
    } else {
        1
    }
}

/// The lesser of two numbers.
fn lesser(number: usize, other: usize) -> usize
    ensures { result ≡ min number other }
{
    if number < other { number } else { other }
}

/// How many numbers of a line are wrong.
#[derive(Clone, Copy)]
struct Wrong {
    /// 1 if its score is, and otherwise 0.
    score: usize,
    /// 1 if its total is, and otherwise 0.
    sum: usize,
}

/// How many numbers of the line at a place are wrong.
fn wrong_at(written: &[Event], right: &[Event], place: usize) -> Wrong
    requires within { place < length written.now }
    requires also { place < length right.now }
    ensures many { result.score + result.sum ≡ length (wrong_at None written.now right.now place) }
    ensures score { result.score ≤ 1 }
    ensures sum { result.sum ≤ 1 }
{
    let line = &written[place];
    let due = &right[place];
    let score = score_wrong(line, due);
    let sum = sum_wrong(line, had_before(written, line.player, place), due);
    Wrong { score, sum }
}

/// How many numbers of the lines are wrong, compared with the right ones.
fn count_wrong(written: &[Event], right: &[Event]) -> u128
    ensures many { result ≡ length (wrong_lines None written.now right.now) }
    ensures few { result ≤ 36893488147419103230 }
{
    let mut scores = 0;
    let mut sums = 0;
    let end = lesser(written.len(), right.len());
    for place in 0..end {
        let wrong = wrong_at(written, right, place);
        scores += wrong.score;
        sums += wrong.sum;
    }
    scores as u128 + sums as u128
}

/// How many numbers of a sheet are wrong with a choice between drafts.
fn wrong_on_draft(
    alloc: Global,
    sheets: &Sheets,
    lacks: &Lacks,
    side: Side,
    choice: usize,
    written: &[Event],
    right: &[Event],
) -> Result<u128, AllocError>
    ensures many { IfOk result (λ many. many ≡ length (wrong_written (choice_lacks sheets.now lacks.now side choice) written.now (map numbers_in right.now))) }
    ensures few { IfOk result (λ many. many ≤ 36893488147419103230) }
{
    let missing = sheets.missing(alloc, lacks, side, choice)?;
    let numbers = numbers_of(alloc, right)?;
    let wrong = wrong_written(alloc, missing.as_slice(), written, numbers.as_slice())?;
    Ok(wrong.len() as u128)
}

/// How many numbers of a sheet are wrong with a choice.
fn wrong_on(
    alloc: Global,
    sheets: &Sheets,
    side: Side,
    choice: usize,
    right: &[Event],
) -> Result<u128, AllocError>
    ensures many { IfOk result (λ many. many ≡ wrong_on sheets.now side choice right.now) }
    ensures few { IfOk result (λ many. many ≤ 36893488147419103230) }
{
    let written = sheets.events(alloc, NumbersOf::Sheet(side), choice)?;
    match &sheets.lacks {
        None => Ok(count_wrong(written.as_slice(), right)),
        Some(lacks) => {
            wrong_on_draft(
                alloc,
                sheets,
                lacks,
                side,
                choice,
                written.as_slice(),
                right,
            )
        }
    }
}

/// The cost of `first` and `second` wrong numbers on the two sheets, `unlisted` plays with a word that is not in the list,
/// `omitted` lines that are left out, and `racks` that are not of the player's own sheet.
fn costs(first: u128, second: u128, unlisted: usize, omitted: usize, racks: usize) -> u128
    requires first { first ≤ 36893488147419103230 }
    requires second { second ≤ 36893488147419103230 }
    ensures { result ≡ costs (first + second) unlisted omitted racks }
{
    5 * (first + second) + 3 * unlisted as u128 + omitted as u128 + racks as u128
}

/// What a choice costs.
///
/// It fails only if memory runs out.
pub(crate) fn cost_of(
    alloc: Global,
    sheets: &Sheets,
    choice: usize,
    corrected: &Corrected,
) -> Result<u128, AllocError>
    ensures { IfOk result (λ cost. (rules : Rules) (list : List (List ℕ)) → corrected.now.unlisted ≡ unlisted_plays rules list corrected.now.right
        → cost ≡ cost_of rules list sheets.now choice corrected.now.right) }
{
    let right = corrected.right.as_slice();
    let first = wrong_on(alloc, sheets, Side::First, choice, right)?;
    let second = wrong_on(alloc, sheets, Side::Second, choice, right)?;
    let omitted = sheets.pairs.len().saturating_sub(corrected.right.len());
    let racks = count_other_racks(choice, sheets.pairs.as_slice());
    Ok(costs(first, second, corrected.unlisted, omitted, racks))
}
