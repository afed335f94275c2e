//! Facts about the order of lines, as trees.
ghost use Rattle.std.specs.Prelude.{◌≡◌, IfOk};
ghost use Rattle.json_trees.specs.Trees.{view};
ghost use Rattle.explain_json.specs.Turns.{missing_object, order_object, player_object, wrong_way_object};

use crate::fact_parts::lines_tree;
use crate::facts::rulings::line_fact;
use explain_facts::OrderFact;
use gcg_read::Seat;
use json_base::number_of;
use json_trees::{Tree, count_tree, integer_tree, name_tree, object};
use std::alloc::{AllocError, Global};

/// That a line and the next one are allowed the other way round.
fn wrong_way(alloc: Global, line: u32, next: u32) -> Result<Tree, AllocError>
    ensures { IfOk result (λ tree. view tree ≡ wrong_way_object line next) }
{
    let lines = lines_tree(alloc, &[line, next])?;
    let fields = vec![in alloc; ("name", name_tree("WrongWay")), ("on_lines", lines)]?;
    Ok(object(fields))
}

/// That a line seems to be missing.
fn missing(
    alloc: Global,
    player: Seat,
    score: i32,
    before: u32,
    after: u32,
) -> Result<Tree, AllocError>
    ensures { IfOk result (λ tree. view tree ≡ missing_object player score before after) }
{
    let lines = lines_tree(alloc, &[before, after])?;
    let fields = vec![in alloc;
        ("name", name_tree("Missing")),
        ("player", count_tree(number_of(player))),
        ("score", integer_tree(score)),
        ("on_lines", lines),
    ]?;
    Ok(object(fields))
}

/// A fact of this name about a player.
fn player_fact(alloc: Global, name: &'static str, player: Seat) -> Result<Tree, AllocError>
    ensures { IfOk result (λ tree. view tree ≡ player_object name.now player) }
{
    let fields = vec![in alloc;
        ("name", name_tree(name)),
        ("player", count_tree(number_of(player))),
    ]?;
    Ok(object(fields))
}

/// A fact.
pub fn order_tree(alloc: Global, fact: &OrderFact) -> Result<Tree, AllocError>
    ensures { IfOk result (λ tree. view tree ≡ order_object fact.now) }
{
    match fact {
        OrderFact::StandsTwice { line } => line_fact(alloc, "StandsTwice", *line),
        OrderFact::WrongWay { line, next } => wrong_way(alloc, *line, *next),
        OrderFact::Missing {
            player,
            score,
            before,
            after,
        } => missing(alloc, *player, *score, *before, *after),
        OrderFact::AllowedFor { other } => player_fact(alloc, "AllowedFor", *other),
    }
}
