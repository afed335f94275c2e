//! Verdicts as trees.
ghost use Rattle.std.specs.Prelude.{◌≡◌, IfOk};
ghost use Rattle.json_trees.specs.Trees.{view};
ghost use Rattle.json_base.specs.Verdicts.{ending_value, ending_word, fault_line_value, fault_value, verdict_object, verdict_word};

use crate::fault_trees::game_fault_tree;
use engine_stages::Verdict;
use json_trees::{Tree, count_tree, name_tree, null_tree, object};
use std::alloc::{AllocError, Global};

/// The name of a verdict.
pub fn verdict_name(verdict: &Verdict) -> &'static str
    ensures { result.now ≡ verdict_word verdict.now }
{
    match verdict {
        Verdict::Legal { .. } => "legal",
        Verdict::Illegal { .. } => "illegal",
        Verdict::Unsettled => "unsettled",
        Verdict::Done => "ok",
        Verdict::BadList => "bad word list",
        Verdict::BadFile => "bad lexicon",
        Verdict::BadRecord => "bad record",
        Verdict::BadRack => "bad rack",
        Verdict::BadRules => "bad rules",
        Verdict::BadLine => "bad line",
    }
}

/// Whether a game has ended.
pub fn ending_name(complete: bool) -> &'static str
    ensures { result.now ≡ ending_word complete }
{
    if complete { "complete" } else { "unfinished" }
}

/// Whether a legal game has ended; null for every other verdict.
pub fn ending_tree(verdict: &Verdict) -> Tree
    ensures { view result ≡ ending_value verdict.now }
{
    match verdict {
        Verdict::Legal { complete } => name_tree(ending_name(*complete)),
        Verdict::Illegal { .. }
        | Verdict::Unsettled
        | Verdict::Done
        | Verdict::BadList
        | Verdict::BadFile
        | Verdict::BadRecord
        | Verdict::BadRack
        | Verdict::BadRules
        | Verdict::BadLine => null_tree(),
    }
}

/// The line of the fault of an illegal game; null for every other verdict.
pub fn fault_line_tree(verdict: &Verdict) -> Tree
    ensures { view result ≡ fault_line_value verdict.now }
{
    match verdict {
        Verdict::Illegal { line, .. } => count_tree(*line),
        Verdict::Legal { .. }
        | Verdict::Unsettled
        | Verdict::Done
        | Verdict::BadList
        | Verdict::BadFile
        | Verdict::BadRecord
        | Verdict::BadRack
        | Verdict::BadRules
        | Verdict::BadLine => null_tree(),
    }
}

/// The fault of an illegal game; null for every other verdict.
pub fn fault_tree(alloc: Global, verdict: &Verdict) -> Result<Tree, AllocError>
    ensures { IfOk result (λ tree. view tree ≡ fault_value verdict.now) }
{
    match verdict {
        Verdict::Illegal { fault, .. } => game_fault_tree(alloc, fault),
        Verdict::Legal { .. }
        | Verdict::Unsettled
        | Verdict::Done
        | Verdict::BadList
        | Verdict::BadFile
        | Verdict::BadRecord
        | Verdict::BadRack
        | Verdict::BadRules
        | Verdict::BadLine => Ok(null_tree()),
    }
}

/// A verdict and nothing more.
pub fn verdict_tree(alloc: Global, verdict: &Verdict) -> Result<Tree, AllocError>
    ensures { IfOk result (λ tree. view tree ≡ verdict_object verdict.now) }
{
    let fault = fault_tree(alloc, verdict)?;
    let fields = vec![in alloc;
        ("verdict", name_tree(verdict_name(verdict))),
        ("line", fault_line_tree(verdict)),
        ("fault", fault),
    ]?;
    Ok(object(fields))
}
