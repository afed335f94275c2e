//! A pair of changes as a tree.
ghost use Rattle.std.specs.Prelude.{◌≡◌, ◌∷◌, [], IfOk, option_map};
ghost use Rattle.std.specs.List.{filter_map};
ghost use Rattle.json_trees.specs.Trees.{view};
ghost use Rattle.json_trees.specs.Values.{array_of};
ghost use Rattle.repair_json.specs.Pairs.{first_object, pair_object, second_at, second_object};

use crate::changes::{change_tree, put_by};
use crate::evidence::evidence_tree;
use gcg_read::{Players, Record};
use json_base::item_at;
use json_trees::{Tree, array, object, push_if, wide_tree};
use repair_changes::{numbers_with_both, spot_of, weight_of};
use repair_pairs::{Head, Pair, later_spot};
use std::alloc::{AllocError, Global};

/// The first change, by the events of the record.
fn first_tree(alloc: Global, game: &Record, head: &Head) -> Result<Tree, AllocError>
    ensures { IfOk result (λ tree. view tree ≡ first_object game.now head.now) }
{
    let events = game.events.as_slice();
    let change = &head.first.change;
    let spot = spot_of(events, change);
    change_tree(
        alloc,
        &game.players,
        events,
        change,
        spot,
        head.made.as_slice(),
    )
}

/// The second change, by the events that the first one makes.
fn second_tree(alloc: Global, game: &Record, head: &Head, pair: &Pair) -> Result<Tree, AllocError>
    ensures { IfOk result (λ tree. view tree ≡ second_object game.now head.now pair.now) }
{
    let made = head.made.as_slice();
    let change = &pair.then.listed.change;
    let spot = later_spot(made, change);
    change_tree(
        alloc,
        &game.players,
        made,
        change,
        spot,
        pair.then.right.as_slice(),
    )
}

/// Both changes.
fn both_changes(alloc: Global, game: &Record, head: &Head, pair: &Pair) -> Result<Tree, AllocError>
    ensures { IfOk result (λ tree. view tree ≡ array_of (first_object game.now head.now ∷ second_object game.now head.now pair.now ∷ [])) }
{
    let first = first_tree(alloc, game, head)?;
    let second = second_tree(alloc, game, head, pair)?;
    let trees = vec![in alloc; first, second]?;
    Ok(array(trees))
}

/// What the second change of one of several pairs puts at its place.
fn second_at(
    alloc: Global,
    players: &Players,
    pairs: &[Pair],
    index: usize,
) -> Result<Option<Tree>, AllocError>
    ensures { IfOk result (λ tree. option_map view tree ≡ second_at players.now pairs.now index) }
{
    match item_at(pairs, index) {
        Some(pair) => put_by(alloc, players, &pair.then),
        None => Ok(None),
    }
}

/// What the second changes of some of several pairs put at their places.
#[tactic(auto, using(std::proofs::lemmas::Grind::common_steps, json_trees::proofs::Lists::kept))]
fn others_array(
    alloc: Global,
    players: &Players,
    pairs: &[Pair],
    others: &[usize],
) -> Result<Tree, AllocError>
    ensures { IfOk result (λ tree. view tree ≡ array_of (filter_map (second_at players.now pairs.now) others.now)) }
{
    let mut trees = Vec::new(alloc);
    for index in others {
        push_if(&mut trees, second_at(alloc, players, pairs, *index)?)?;
    }
    Ok(array(trees))
}

/// A pair of changes, with those that share its line.
pub(crate) fn pair_tree(
    alloc: Global,
    game: &Record,
    pairs: &[Pair],
    head: &Head,
    pair: &Pair,
    others: &[usize],
) -> Result<Tree, AllocError>
    ensures { IfOk result (λ tree. view tree ≡ pair_object game.now pairs.now head.now pair.now others.now) }
{
    let first = &head.first.change.slip;
    let second = &pair.then.listed.change.slip;
    let numbers = numbers_with_both(first, second, game.events.len());
    let weight = weight_of(first) as u128 + weight_of(second) as u128;
    let changes = both_changes(alloc, game, head, pair)?;
    let others = others_array(alloc, &game.players, pairs, others)?;
    let evidence = evidence_tree(alloc, &pair.then.remains, numbers)?;
    let fields = vec![in alloc;
        ("changes", changes),
        ("others", others),
        ("weight", wide_tree(weight)),
        ("cost", wide_tree(pair.cost)),
        ("evidence", evidence),
    ]?;
    Ok(object(fields))
}
