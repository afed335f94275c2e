//! Facts as trees, by families. Each has the name of its case and the fields that it needs.
ghost use Rattle.std.specs.Prelude.{◌≡◌, IfOk};
ghost use Rattle.json_trees.specs.Trees.{view};
ghost use Rattle.explain_json.specs.Facts.{fact_object, facts_value};

mod challenges;
mod deals;
mod games;
mod orders;
mod plays;
mod racks;
mod readings;
mod rulings;
mod scores;
mod tiles;
mod totals;
mod turns;

use crate::facts::challenges::challenge_tree;
use crate::facts::deals::deal_tree;
use crate::facts::games::game_tree;
use crate::facts::orders::order_tree;
use crate::facts::plays::play_tree;
use crate::facts::racks::rack_tree;
use crate::facts::readings::reading_tree;
use crate::facts::rulings::ruling_tree;
use crate::facts::scores::score_tree;
use crate::facts::tiles::tile_tree;
use crate::facts::totals::total_tree;
use crate::facts::turns::turn_tree;
use explain_facts::Fact;
use json_trees::{Tree, array};
use std::alloc::{AllocError, Global};

/// A fact.
fn fact_tree(alloc: Global, fact: &Fact) -> Result<Tree, AllocError>
    ensures { IfOk result (λ tree. view tree ≡ fact_object fact.now) }
{
    match fact {
        Fact::Game(it) => game_tree(alloc, it),
        Fact::Ruling(it) => ruling_tree(alloc, it),
        Fact::Turn(it) => turn_tree(alloc, it),
        Fact::Order(it) => order_tree(alloc, it),
        Fact::Play(it) => play_tree(alloc, it),
        Fact::Score(it) => score_tree(alloc, it),
        Fact::Reading(it) => reading_tree(alloc, it),
        Fact::Total(it) => total_tree(alloc, it),
        Fact::Challenge(it) => challenge_tree(alloc, it),
        Fact::Tile(it) => tile_tree(alloc, it),
        Fact::Rack(it) => rack_tree(alloc, it),
        Fact::Deal(it) => deal_tree(alloc, it),
    }
}

/// Facts, in their order.
pub fn facts_array(alloc: Global, facts: &[Fact]) -> Result<Tree, AllocError>
    ensures { IfOk result (λ tree. view tree ≡ facts_value facts.now) }
{
    let mut trees = Vec::new(alloc);
    for fact in facts {
        trees.push(fact_tree(alloc, fact)?)?;
    }
    Ok(array(trees))
}
