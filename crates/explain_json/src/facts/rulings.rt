//! Whether the rules allow an event, as trees.
ghost use Rattle.std.specs.Prelude.{◌≡◌, IfOk};
ghost use Rattle.json_trees.specs.Trees.{view};
ghost use Rattle.explain_json.specs.Turns.{line_object, ruling_object};

use crate::fact_parts::bare_tree;
use explain_facts::RulingFact;
use json_trees::{Tree, count_tree, name_tree, object};
use std::alloc::{AllocError, Global};

/// A fact of this name about a line.
pub fn line_fact(alloc: Global, name: &'static str, line: u32) -> Result<Tree, AllocError>
    ensures { IfOk result (λ tree. view tree ≡ line_object name.now line) }
{
    let fields = vec![in alloc; ("name", name_tree(name)), ("line", count_tree(line))]?;
    Ok(object(fields))
}

/// A fact.
pub fn ruling_tree(alloc: Global, fact: &RulingFact) -> Result<Tree, AllocError>
    ensures { IfOk result (λ tree. view tree ≡ ruling_object fact.now) }
{
    match fact {
        RulingFact::NotJudged { refused } => line_fact(alloc, "NotJudged", *refused),
        RulingFact::Allowed => bare_tree(alloc, "Allowed"),
    }
}
