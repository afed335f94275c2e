//! Choices that do not make a game, and what repairs them, as trees.
ghost use Rattle.std.specs.Prelude.{◌≡◌, IfOk, map, option_map};
ghost use Rattle.json_trees.specs.Trees.{view};
ghost use Rattle.json_trees.specs.Values.{array_of, or_null};
ghost use Rattle.compare_json.specs.Answers.{best_repair_object, first_repair, side_value, tried_object};

use crate::choices::choice_tree;
use crate::names::side_name;
use compare_alignments::Side;
use compare_answers::ItemCounts;
use compare_repaired::{BestRepair, RepairedChoice};
use gcg_read::{Event, Players};
use json_trees::{Tree, array, bool_tree, name_tree, null_tree, object, size_tree};
use repair_json::tree_by_events;
use repair_single::Repair;
use std::alloc::{AllocError, Global};

/// The first of some repairs; null if there is none.
fn first_repair(
    alloc: Global,
    players: &Players,
    events: &[Event],
    repairs: &[Repair],
) -> Result<Tree, AllocError>
    ensures { IfOk result (λ tree. view tree ≡ first_repair players.now events.now repairs.now) }
{
    match repairs {
        [repair, ..] => tree_by_events(alloc, players, events, repair),
        [] => Ok(null_tree()),
    }
}

/// A choice that was tried with one more change, and its first repair, if it has one.
fn tried_tree(
    alloc: Global,
    counts: &ItemCounts,
    players: &Players,
    tried: &RepairedChoice,
) -> Result<Tree, AllocError>
    ensures { IfOk result (λ tree. view tree ≡ tried_object counts.now players.now tried.now) }
{
    let choice = choice_tree(alloc, counts, tried.choice)?;
    let repairs = tried.found.reported.as_slice();
    let repair = first_repair(alloc, players, tried.written.as_slice(), repairs)?;
    let fields = vec![in alloc; ("choice", choice), ("repair", repair)]?;
    Ok(object(fields))
}

/// The choices that were tried with one more change.
pub(crate) fn tried_array(
    alloc: Global,
    counts: &ItemCounts,
    players: &Players,
    choices: &[RepairedChoice],
) -> Result<Tree, AllocError>
    ensures { IfOk result (λ tree. view tree ≡ array_of (map (tried_object counts.now players.now) choices.now)) }
{
    let mut trees = Vec::new(alloc);
    for tried in choices {
        trees.push(tried_tree(alloc, counts, players, tried)?)?;
    }
    Ok(array(trees))
}

/// A sheet; null if none is named.
fn side_tree(side: Option<Side>) -> Tree
    ensures { view result ≡ side_value side }
{
    match side {
        Some(side) => name_tree(side_name(side)),
        None => null_tree(),
    }
}

/// The cheapest repair of all.
fn cheapest_tree(
    alloc: Global,
    changed: Option<Side>,
    best: &BestRepair,
) -> Result<Tree, AllocError>
    ensures { IfOk result (λ tree. view tree ≡ best_repair_object changed best.now) }
{
    let fields = vec![in alloc;
        ("tried", size_tree(best.index)),
        ("sheet", side_tree(changed)),
        ("ahead", bool_tree(best.ahead)),
        ("settled", bool_tree(best.settled)),
    ]?;
    Ok(object(fields))
}

/// The cheapest repair of all: the number of its choice among those that were tried, counted from 0; the sheet whose line it changes, if the line has another
/// number on the other sheet; and whether it is ahead of all others, and no change is left open. Null if there is none.
pub(crate) fn best_repair_tree(
    alloc: Global,
    changed: Option<Side>,
    best: &Option<BestRepair>,
) -> Result<Tree, AllocError>
    ensures { IfOk result (λ tree. view tree ≡ or_null (option_map (best_repair_object changed) best.now)) }
{
    match best {
        Some(best) => cheapest_tree(alloc, changed, best),
        None => Ok(null_tree()),
    }
}
