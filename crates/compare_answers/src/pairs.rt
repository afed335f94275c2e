//! What is found of each pair of lines.
ghost use Rattle.std.specs.Prelude.{◌≡◌, ◌+◌, ◌≤◌, ◌<◌, length, take, slice_get, IfOk};
ghost use Rattle.compare_alignments.specs.Merging.{items_of, rack_items};
ghost use Rattle.compare_answers.specs.Pairs.{best_choice, IsAnswerAt, ArePairAnswers};

use crate::lines::{LinesAnswer, lines_answer};
use crate::racks::{RacksAnswer, racks_answer};
use compare_alignments::{count_items, count_racks};
use compare_choices::{Best, Comparison, Sheets};
use std::alloc::{AllocError, Global};

/// What is found of a pair of lines.
#[derive(Clone, Copy)]
pub struct PairAnswer {
    /// What the rules say of the lines.
    pub lines: LinesAnswer,
    /// What is said of the racks that they state.
    pub racks: RacksAnswer,
}

/// The best choice, or the first if none is known to make a game.
fn best_choice(best: &Option<Best>) -> usize
    ensures { result ≡ best_choice best.now }
{
    match best {
        Some(best) => best.choice,
        None => 0,
    }
}

/// What is found of the pair at an index.
fn answer_at(
    alloc: Global,
    sheets: &Sheets,
    comparison: &Comparison,
    index: usize,
) -> Result<PairAnswer, AllocError>
    requires within { index < length sheets.now.pairs.items }
    requires few { length comparison.now.flips.items ≤ 12 }
    ensures { IfOk result (IsAnswerAt sheets.now comparison.now index (slice_get sheets.now.pairs.items index)) }
{
    let pairs = sheets.pairs.as_slice();
    let Some(pair) = pairs.get(index) else {
        unreachable!()
    };
    let before = &pairs[..index];
    let flips = comparison.flips.as_slice();
    let best = comparison.find.best.as_ref();
    let choice = best_choice(&comparison.find.best);
    let lines = lines_answer(alloc, sheets, pair, index, count_items(before), best, flips)?;
    let number = count_items(pairs) + count_racks(before);
    let racks = racks_answer(sheets, pair, choice, number, flips);
    Ok(PairAnswer { lines, racks })
}

/// What is found of each pair.
pub(crate) fn pair_answers(
    alloc: Global,
    sheets: &Sheets,
    comparison: &Comparison,
) -> Result<Vec<PairAnswer>, AllocError>
    requires { length comparison.now.flips.items ≤ 12 }
    ensures { IfOk result (λ answers. ArePairAnswers sheets.now comparison.now answers.items) }
{
    let mut answers = Vec::new(alloc);
    for index in 0..sheets.pairs.len() {
        let answer = answer_at(alloc, sheets, comparison, index)?;
        answers.push(answer)?;
    }
    Ok(answers)
}
