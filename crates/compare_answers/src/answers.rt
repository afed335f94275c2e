//! What is found of two sheets.
ghost use Rattle.std.specs.Prelude.{◌≡◌, IfOk};
ghost use Rattle.compare_choices.specs.Comparisons.{IsComparison};
ghost use Rattle.compare_repaired.specs.Repaired.{AreRepaired};
ghost use Rattle.compare_answers.specs.Answers.{IsAnswerOn, IsComparisonAnswer};

use crate::agreements::{Agreement, agreement_of};
use crate::changed::changed_sheet;
use crate::counts::{ItemCounts, counts_of};
use crate::ends::{GameEnd, game_end};
use crate::found::{WhyNotMerged, merged_record};
use crate::furthest::stop_at;
use crate::pairs::{PairAnswer, pair_answers};
use compare_alignments::{Lacks, Side};
use compare_choices::{Comparison, Sheets, compare, in_seats_of};
use compare_repaired::{RepairedChoices, repaired_choices};
use gcg_read::Record;
use lex_list::WordList;
use ref_tiles::Rules;
use std::alloc::{AllocError, Global};

/// What is found of two sheets.
#[derive(Drop)]
pub struct ComparisonAnswer {
    /// Both sheets, line by line. The players of the second are in the seats of those of the first.
    pub sheets: Sheets,
    /// The best of all choices of their lines.
    pub comparison: Comparison,
    /// If no choice is known to make a game and none is left open, those that go furthest, and what repairs them.
    pub repaired: RepairedChoices,
    /// Whether they agree.
    pub agreement: Agreement,
    /// How many differences there are.
    pub counts: ItemCounts,
    /// What is found of each pair of lines.
    pub pairs: Vec<PairAnswer>,
    /// The index of the pair at which the choice that goes furthest stops.
    pub stop_at: Option<usize>,
    /// The sheet whose line the best repair changes, if the line has another number on the other sheet.
    pub changed: Option<Side>,
    /// How the game ends: that of the best choice, or of the best repair if no choice is known to make a game.
    pub end: Option<GameEnd>,
    /// The merged record: its players are those of the first sheet, and its events those of the best choice, or of the best repair, with right numbers. Or
    /// why there is none.
    pub merged: Result<Record, WhyNotMerged>,
}

/// What is found of two sheets that are compared.
#[tactic(auto, using(crate::proofs::Agreeing::best_has_cost, crate::proofs::Flipping::few_flips))]
fn answer_on(
    alloc: Global,
    rules: &Rules,
    list: &WordList,
    sheets: Sheets,
    comparison: Comparison,
    repaired: RepairedChoices,
) -> Result<ComparisonAnswer, AllocError>
    requires compared { IsComparison rules.now list.now sheets comparison }
    requires tried { AreRepaired rules.now list.now sheets comparison.find repaired }
    ensures { IfOk result (IsAnswerOn rules.now list.now sheets) }
{
    let agreement = agreement_of(&sheets, &comparison.find);
    let counts = counts_of(sheets.pairs.as_slice());
    let pairs = pair_answers(alloc, &sheets, &comparison)?;
    let stop_at = stop_at(alloc, &sheets, &comparison.furthest)?;
    let changed = changed_sheet(alloc, &sheets, &repaired)?;
    let end = game_end(&sheets, &comparison, &repaired);
    let merged = merged_record(alloc, &sheets, &comparison, &repaired)?;
    Ok(ComparisonAnswer {
        sheets,
        comparison,
        repaired,
        agreement,
        counts,
        pairs,
        stop_at,
        changed,
        end,
        merged,
    })
}

/// Compares two records of one game, by the rules and a word list. If they are those of drafts, `lacks` says what their lines lack; a number that is missing
/// counts nowhere.
///
/// It fails only if memory runs out.
///
/// The second sheet's players are put in the seats of the first one's. The sheets agree exactly if no line and no racks differ and nothing is wrong
/// on either. Of each pair of lines it says which of them the best choice takes, what comes of the other one, and what the rules give if the scores
/// differ; of racks which of them is taken, and why not that of the player's own sheet.
///
/// The merged record has the players of the first sheet and the right events of the best choice, if no choice is as good or left open, or else of the
/// best repair, if it is ahead and nothing is left open; otherwise the value says why there is none.
#[tactic(auto, using(crate::proofs::Answering::is_comparison_answer))]
pub fn answer_comparison(
    alloc: Global,
    rules: &Rules,
    list: &WordList,
    first: Record,
    second: Record,
    lacks: Option<Lacks>,
) -> Result<ComparisonAnswer, AllocError>
    ensures { IfOk result (IsComparisonAnswer rules.now list.now first second lacks) }
{
    let seated = in_seats_of(alloc, &first.players, second)?;
    let sheets = Sheets::new(alloc, first, seated, lacks)?;
    let comparison = compare(alloc, rules, list, &sheets)?;
    let repaired = repaired_choices(alloc, rules, list, &sheets, &comparison)?;
    let answer = answer_on(alloc, rules, list, sheets, comparison, repaired)?;
    Ok(answer)
}
