//! How the game ends, as trees.
ghost use Rattle.std.specs.Prelude.{◌≡◌, IfOk, option_map};
ghost use Rattle.json_trees.specs.Trees.{view};
ghost use Rattle.json_trees.specs.Values.{or_null};
ghost use Rattle.json_base.specs.Players.{standing_object};
ghost use Rattle.compare_json.specs.Answers.{ahead_by_first, ahead_by_second, ahead_value, ending_value, totals_object, totals_value};

use compare_answers::GameEnd;
use compare_choices::LastTotals;
use game_corrections::Standing;
use gcg_read::{Points, Seat};
use json_base::{ending_name, number_of, standing_tree};
use json_trees::{Tree, array, count_tree, integer_or_null, name_tree, null_tree, object};
use std::alloc::{AllocError, Global};

/// Whether the game has ended; null if it is not known how it ends.
pub(crate) fn ending_tree(end: &Option<GameEnd>) -> Tree
    ensures { view result ≡ ending_value end.now }
{
    match end {
        Some(end) => name_tree(ending_name(end.complete)),
        None => null_tree(),
    }
}

/// A total, if there is one.
fn total_of(points: Option<Points>) -> Option<i32>
    ensures { result ≡ points }
{
    match points {
        Some(points) => Some(points.value()),
        None => None,
    }
}

/// The last totals of a player.
fn totals_tree(alloc: Global, player: Seat, totals: &LastTotals) -> Result<Tree, AllocError>
    ensures { IfOk result (λ tree. view tree ≡ totals_object player totals.now) }
{
    let fields = vec![in alloc;
        ("player", count_tree(number_of(player))),
        ("first", integer_or_null(total_of(totals.first))),
        ("second", integer_or_null(total_of(totals.second))),
        ("right", integer_or_null(total_of(totals.right))),
    ]?;
    Ok(object(fields))
}

/// The last totals of both players, if it is known how the game ends.
pub(crate) fn totals_array(alloc: Global, end: &Option<GameEnd>) -> Result<Tree, AllocError>
    ensures { IfOk result (λ tree. view tree ≡ totals_value end.now) }
{
    match end {
        Some(end) => {
            let first = totals_tree(alloc, Seat::First, &end.results.of_first)?;
            let second = totals_tree(alloc, Seat::Second, &end.results.of_second)?;
            let trees = vec![in alloc; first, second]?;
            Ok(array(trees))
        }
        None => Ok(array(Vec::new(alloc))),
    }
}

/// Who is ahead by the right numbers; null if it is not known how the game ends.
pub(crate) fn ahead_tree(alloc: Global, end: &Option<GameEnd>) -> Result<Tree, AllocError>
    ensures { IfOk result (λ tree. view tree ≡ ahead_value end.now) }
{
    match end {
        Some(end) => standing_tree(alloc, &end.results.right),
        None => Ok(null_tree()),
    }
}

/// Who is ahead; null if a sheet does not say so.
fn known_standing(alloc: Global, standing: &Option<Standing>) -> Result<Tree, AllocError>
    ensures { IfOk result (λ tree. view tree ≡ or_null (option_map standing_object standing.now)) }
{
    match standing {
        Some(standing) => standing_tree(alloc, standing),
        None => Ok(null_tree()),
    }
}

/// Who is ahead by the numbers of the first sheet.
pub(crate) fn ahead_by_first(alloc: Global, end: &Option<GameEnd>) -> Result<Tree, AllocError>
    ensures { IfOk result (λ tree. view tree ≡ ahead_by_first end.now) }
{
    match end {
        Some(end) => known_standing(alloc, &end.results.first),
        None => Ok(null_tree()),
    }
}

/// Who is ahead by the numbers of the second sheet.
pub(crate) fn ahead_by_second(alloc: Global, end: &Option<GameEnd>) -> Result<Tree, AllocError>
    ensures { IfOk result (λ tree. view tree ≡ ahead_by_second end.now) }
{
    match end {
        Some(end) => known_standing(alloc, &end.results.second),
        None => Ok(null_tree()),
    }
}
