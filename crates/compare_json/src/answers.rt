//! An answer as a tree.
ghost use Rattle.std.specs.Prelude.{◌≡◌, IfOk};
ghost use Rattle.json_trees.specs.Trees.{view};
ghost use Rattle.json_trees.specs.Values.{text};
ghost use Rattle.gcg_write.specs.Normal.{normal_of};
ghost use Rattle.compare_json.specs.Answers.{comparison_object, merged_value, not_merged};

use crate::choices::{best_tree, choices_array, furthest_tree};
use crate::differences::differences_array;
use crate::ends::{ahead_by_first, ahead_by_second, ahead_tree, ending_tree, totals_array};
use crate::names::{verdict_name, why_name};
use crate::repairs::{best_repair_tree, tried_array};
use compare_answers::{ComparisonAnswer, WhyNotMerged};
use gcg_read::Record;
use gcg_write::write;
use json_base::players_array;
use json_trees::{Tree, name_tree, null_tree, object, size_tree, text_tree};
use std::alloc::{AllocError, Global};

/// A record in the normal form.
fn normal_tree(alloc: Global, game: &Record) -> Result<Tree, AllocError>
    ensures { IfOk result (λ tree. view tree ≡ text (normal_of game.now)) }
{
    let mut text = Vec::new(alloc);
    write(game, &mut text)?;
    text_tree(alloc, text.as_slice())
}

/// The merged record in the normal form; null if there is none.
fn merged_tree(alloc: Global, merged: &Result<Record, WhyNotMerged>) -> Result<Tree, AllocError>
    ensures { IfOk result (λ tree. view tree ≡ merged_value merged.now) }
{
    match merged {
        Ok(game) => normal_tree(alloc, game),
        Err(_) => Ok(null_tree()),
    }
}

/// Why there is no merged record; null if there is one.
fn not_merged(merged: &Result<Record, WhyNotMerged>) -> Tree
    ensures { view result ≡ not_merged merged.now }
{
    match merged {
        Ok(_) => null_tree(),
        Err(why) => name_tree(why_name(*why)),
    }
}

/// What is found of two sheets: whether they agree, each difference, the choices of the lines, how the game ends, and the merged record.
///
/// # Errors
///
/// Memory was refused.
pub fn comparison_tree(alloc: Global, answer: &ComparisonAnswer) -> Result<Tree, AllocError>
    ensures { IfOk result (λ tree. view tree ≡ comparison_object answer.now) }
{
    let counts = &answer.counts;
    let players = &answer.sheets.first.players;
    let find = &answer.comparison.find;
    let both = players_array(alloc, players)?;
    let differences = differences_array(alloc, &answer.sheets, answer.pairs.as_slice())?;
    let best = best_tree(alloc, counts, &find.best)?;
    let rivals = choices_array(alloc, counts, find.rivals.as_slice())?;
    let remaining = choices_array(alloc, counts, find.remaining.as_slice())?;
    let furthest = furthest_tree(alloc, answer)?;
    let tried = tried_array(alloc, counts, players, answer.repaired.tried.as_slice())?;
    let best_repair = best_repair_tree(alloc, answer.changed, &answer.repaired.best)?;
    let totals = totals_array(alloc, &answer.end)?;
    let ahead = ahead_tree(alloc, &answer.end)?;
    let by_first = ahead_by_first(alloc, &answer.end)?;
    let by_second = ahead_by_second(alloc, &answer.end)?;
    let merged = merged_tree(alloc, &answer.merged)?;
    let fields = vec![in alloc;
        ("verdict", name_tree(verdict_name(answer.agreement))),
        ("line", null_tree()),
        ("fault", null_tree()),
        ("ending", ending_tree(&answer.end)),
        ("players", both),
        ("differences", differences),
        ("not_varied", size_tree(counts.not_varied)),
        ("choices", size_tree(counts.choices)),
        ("best", best),
        ("rivals", rivals),
        ("left", remaining),
        ("furthest", furthest),
        ("tried", tried),
        ("best_repair", best_repair),
        ("totals", totals),
        ("ahead", ahead),
        ("ahead_by_first", by_first),
        ("ahead_by_second", by_second),
        ("merged", merged),
        ("not_merged", not_merged(&answer.merged)),
    ]?;
    Ok(object(fields))
}
