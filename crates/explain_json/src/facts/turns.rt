//! Facts about turns, as trees.
ghost use Rattle.std.specs.Prelude.{◌≡◌, IfOk};
ghost use Rattle.json_trees.specs.Trees.{view};
ghost use Rattle.explain_json.specs.Turns.{none_due_object, players_object, turn_object};

use crate::fact_parts::bare_tree;
use explain_facts::TurnFact;
use gcg_read::Seat;
use json_base::number_of;
use json_trees::{Tree, count_tree, name_tree, object, size_tree};
use std::alloc::{AllocError, Global};

/// A fact of this name about two players.
fn players_fact(
    alloc: Global,
    name: &'static str,
    player: Seat,
    other: Seat,
) -> Result<Tree, AllocError>
    ensures { IfOk result (λ tree. view tree ≡ players_object name.now player other) }
{
    let fields = vec![in alloc;
        ("name", name_tree(name)),
        ("player", count_tree(number_of(player))),
        ("other", count_tree(number_of(other))),
    ]?;
    Ok(object(fields))
}

/// That no last rack is due.
fn none_due(alloc: Global, limit: usize, turns: usize) -> Result<Tree, AllocError>
    ensures { IfOk result (λ tree. view tree ≡ none_due_object limit turns) }
{
    let fields = vec![in alloc;
        ("name", name_tree("NoRackDue")),
        ("number", size_tree(turns)),
        ("limit", size_tree(limit)),
    ]?;
    Ok(object(fields))
}

/// A fact.
pub fn turn_tree(alloc: Global, fact: &TurnFact) -> Result<Tree, AllocError>
    ensures { IfOk result (λ tree. view tree ≡ turn_object fact.now) }
{
    match fact {
        TurnFact::OthersTurn { player, other } => players_fact(
            alloc,
            "OthersTurn",
            *player,
            *other,
        ),
        TurnFact::OthersLine { player, out } => players_fact(alloc, "OthersLine", *player, *out),
        TurnFact::Complete => bare_tree(alloc, "Complete"),
        TurnFact::Out { out, holder } => players_fact(alloc, "Out", *out, *holder),
        TurnFact::RackLost { player, holder } => players_fact(alloc, "RackLost", *player, *holder),
        TurnFact::NoRackDue { limit, turns } => none_due(alloc, *limit, *turns),
    }
}
