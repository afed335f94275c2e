//! Facts about a total or a penalty for time, as trees.
ghost use Rattle.std.specs.Prelude.{◌≡◌, IfOk};
ghost use Rattle.json_trees.specs.Trees.{view};
ghost use Rattle.explain_json.specs.Scores.{leaves_out_object, penalty_object, step_object, sum_object, total_object};

use crate::fact_parts::bare_tree;
use explain_facts::TotalFact;
use gcg_read::Seat;
use json_base::number_of;
use json_trees::{Tree, count_tree, integer_tree, name_tree, object, size_tree};
use std::alloc::{AllocError, Global};

/// The sum that makes a total.
fn sum_fact(
    alloc: Global,
    player: Seat,
    had: i32,
    score: i32,
    right: i32,
    written: i32,
) -> Result<Tree, AllocError>
    ensures { IfOk result (λ tree. view tree ≡ sum_object player had score right written) }
{
    let fields = vec![in alloc;
        ("name", name_tree("WrongTotal")),
        ("player", count_tree(number_of(player))),
        ("had", integer_tree(had)),
        ("score", integer_tree(score)),
        ("right", integer_tree(right)),
        ("written", integer_tree(written)),
    ]?;
    Ok(object(fields))
}

/// The turn that a total leaves out.
fn leaves_out(alloc: Global, line: u32, score: i32) -> Result<Tree, AllocError>
    ensures { IfOk result (λ tree. view tree ≡ leaves_out_object line score) }
{
    let fields = vec![in alloc;
        ("name", name_tree("LeavesOut")),
        ("line", count_tree(line)),
        ("score", integer_tree(score)),
    ]?;
    Ok(object(fields))
}

/// Which penalties for time are possible.
fn step_fact(alloc: Global, step: usize, written: i32) -> Result<Tree, AllocError>
    ensures { IfOk result (λ tree. view tree ≡ step_object step written) }
{
    let fields = vec![in alloc;
        ("name", name_tree("TimeStep")),
        ("written", integer_tree(written)),
        ("limit", size_tree(step)),
    ]?;
    Ok(object(fields))
}

/// That a player already has a penalty for time.
fn penalty(alloc: Global, player: Seat, line: u32) -> Result<Tree, AllocError>
    ensures { IfOk result (λ tree. view tree ≡ penalty_object player line) }
{
    let fields = vec![in alloc;
        ("name", name_tree("SecondTime")),
        ("line", count_tree(line)),
        ("player", count_tree(number_of(player))),
    ]?;
    Ok(object(fields))
}

/// A fact.
pub fn total_tree(alloc: Global, fact: &TotalFact) -> Result<Tree, AllocError>
    ensures { IfOk result (λ tree. view tree ≡ total_object fact.now) }
{
    match fact {
        TotalFact::Wrong {
            player,
            had,
            score,
            right,
            written,
        } => sum_fact(alloc, *player, *had, *score, *right, *written),
        TotalFact::LeavesOutOwn => bare_tree(alloc, "LeavesOutOwn"),
        TotalFact::LeavesOut { line, score } => leaves_out(alloc, *line, *score),
        TotalFact::TimeStep { step, written } => step_fact(alloc, *step, *written),
        TotalFact::SecondTime { player, line } => penalty(alloc, *player, *line),
    }
}
