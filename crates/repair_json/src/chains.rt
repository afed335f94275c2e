//! Several changes as a tree.
ghost use Rattle.std.specs.Prelude.{◌≡◌, ◌++◌, IfOk, OnOk, map};
ghost use Rattle.json_trees.specs.Trees.{view};
ghost use Rattle.json_trees.specs.Values.{array_of};
ghost use Rattle.repair_changes.specs.Spots.{spot_of};
ghost use Rattle.repair_pairs.specs.Spots.{later_spot};
ghost use Rattle.repair_json.specs.Changes.{change_object};
ghost use Rattle.repair_json.specs.Chains.{all_changes, chain_object, chain_value, later_changes};

use crate::changes::change_tree;
use crate::evidence::evidence_tree;
use gcg_read::{Event, Players, Record};
use json_trees::{Tree, array, null_tree, object, wide_tree};
use repair_changes::{Change, spot_of};
use repair_pairs::{Chain, Head, later_spot};
use repair_single::Repair;
use std::alloc::{AllocError, Global};

/// A change that is made after others, by the events that they make.
fn later_tree(
    alloc: Global,
    players: &Players,
    made: &[Event],
    change: &Change,
    right: &[Event],
) -> Result<Tree, AllocError>
    ensures { IfOk result (λ tree. view tree ≡ change_object players.now made.now change.now (later_spot made.now change.now) right.now) }
{
    change_tree(
        alloc,
        players,
        made,
        change,
        later_spot(made, change),
        right,
    )
}

/// Appends the changes after those that make some events, and the last one.
fn push_later(
    alloc: Global,
    trees: &mut Vec<Tree>,
    players: &Players,
    made: &[Event],
    steps: &[Head],
    last: &Repair,
) -> Result<(), AllocError>
    ensures { OnOk result (map view trees.new.items ≡ map view trees.old.items ++ later_changes players.now made.now steps.now last.now) }
{
    match steps {
        [] => {
            let right = last.right.as_slice();
            trees.push(later_tree(alloc, players, made, &last.listed.change, right)?)?;
            Ok(())
        }
        [step, rest @ ..] => {
            let right = step.made.as_slice();
            trees.push(later_tree(alloc, players, made, &step.first.change, right)?)?;
            push_later(alloc, trees, players, right, rest, last)
        }
    }
}

/// The first change, by the events of the record.
fn first_tree(
    alloc: Global,
    players: &Players,
    events: &[Event],
    step: &Head,
) -> Result<Tree, AllocError>
    ensures { IfOk result (λ tree. view tree
        ≡ change_object players.now events.now step.now.first.change (spot_of events.now step.now.first.change) step.now.made) }
{
    let change = &step.first.change;
    let spot = spot_of(events, change);
    change_tree(alloc, players, events, change, spot, step.made.as_slice())
}

/// All changes.
fn changes_array(
    alloc: Global,
    players: &Players,
    events: &[Event],
    steps: &[Head],
    last: &Repair,
) -> Result<Tree, AllocError>
    ensures { IfOk result (λ tree. view tree ≡ array_of (all_changes players.now events.now steps.now last.now)) }
{
    let mut trees = Vec::new(alloc);
    match steps {
        [] => push_later(alloc, &mut trees, players, events, steps, last)?,
        [step, rest @ ..] => {
            trees.push(first_tree(alloc, players, events, step)?)?;
            push_later(alloc, &mut trees, players, step.made.as_slice(), rest, last)?;
        }
    }
    Ok(array(trees))
}

/// The changes that repair a record one after the other, and the evidence.
fn chain_tree(alloc: Global, game: &Record, chain: &Chain) -> Result<Tree, AllocError>
    ensures { IfOk result (λ tree. view tree ≡ chain_object game.now chain.now) }
{
    let events = game.events.as_slice();
    let steps = chain.steps.as_slice();
    let numbers = chain.numbers(events.len());
    let changes = changes_array(alloc, &game.players, events, steps, &chain.last)?;
    let evidence = evidence_tree(alloc, &chain.last.remains, numbers)?;
    let fields = vec![in alloc;
        ("changes", changes),
        ("weight", wide_tree(chain.weight())),
        ("cost", wide_tree(chain.cost())),
        ("evidence", evidence),
    ]?;
    Ok(object(fields))
}

/// The changes that repair a record one after the other; null if they were not found.
pub(crate) fn chain_or_null(
    alloc: Global,
    game: &Record,
    chain: &Option<Chain>,
) -> Result<Tree, AllocError>
    ensures { IfOk result (λ tree. view tree ≡ chain_value game.now chain.now) }
{
    match chain {
        Some(chain) => chain_tree(alloc, game, chain),
        None => Ok(null_tree()),
    }
}
