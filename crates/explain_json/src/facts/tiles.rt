//! Facts about the number of tiles, as trees.
ghost use Rattle.std.specs.Prelude.{◌≡◌, IfOk};
ghost use Rattle.json_trees.specs.Trees.{view};
ghost use Rattle.explain_json.specs.Racks.{bag_object, exchange_size_object, held_object, tile_object};

use explain_facts::TileFact;
use gcg_read::Seat;
use json_base::number_of;
use json_trees::{Tree, count_tree, name_tree, object, size_tree};
use std::alloc::{AllocError, Global};

/// A fact of this name about the number of tiles of an event, and the number that a player has.
fn held_fact(
    alloc: Global,
    name: &'static str,
    player: Seat,
    number: usize,
    has: usize,
) -> Result<Tree, AllocError>
    ensures { IfOk result (λ tree. view tree ≡ held_object name.now player number has) }
{
    let fields = vec![in alloc;
        ("name", name_tree(name)),
        ("player", count_tree(number_of(player))),
        ("number", size_tree(number)),
        ("limit", size_tree(has)),
    ]?;
    Ok(object(fields))
}

/// That the bag has too few tiles for an exchange.
fn bag_fact(alloc: Global, bag: usize, least: usize) -> Result<Tree, AllocError>
    ensures { IfOk result (λ tree. view tree ≡ bag_object bag least) }
{
    let fields = vec![in alloc;
        ("name", name_tree("ExchangeRefused")),
        ("limit", size_tree(least)),
        ("bag", size_tree(bag)),
    ]?;
    Ok(object(fields))
}

/// An exchange of more tiles than there are.
fn exchange_size(
    alloc: Global,
    number: usize,
    player: Seat,
    has: usize,
    bag: usize,
) -> Result<Tree, AllocError>
    ensures { IfOk result (λ tree. view tree ≡ exchange_size_object number player has bag) }
{
    let fields = vec![in alloc;
        ("name", name_tree("ExchangeSize")),
        ("player", count_tree(number_of(player))),
        ("number", size_tree(number)),
        ("limit", size_tree(has)),
        ("bag", size_tree(bag)),
    ]?;
    Ok(object(fields))
}

/// A fact.
pub fn tile_tree(alloc: Global, fact: &TileFact) -> Result<Tree, AllocError>
    ensures { IfOk result (λ tree. view tree ≡ tile_object fact.now) }
{
    match fact {
        TileFact::TooManyUsed { player, used, has } => {
            held_fact(alloc, "TooManyUsed", *player, *used, *has)
        }
        TileFact::ExchangeRefused { bag, least } => bag_fact(alloc, *bag, *least),
        TileFact::ExchangeSize {
            tiles,
            player,
            has,
            bag,
        } => exchange_size(alloc, *tiles, *player, *has, *bag),
        TileFact::LastRackSize { shown, holder, has } => {
            held_fact(alloc, "LastRackSize", *holder, *shown, *has)
        }
    }
}
