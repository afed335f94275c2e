//! The count of the strings of a file, by one pass over its nodes up to the root.
ghost use Rattle.std.specs.Prelude.{◌≡◌, ◌+◌, ◌<◌, IsTrue, IfOk, if◌then◌else◌};
ghost use Rattle.lex_file.specs.Files.{bytes_of, number_of};
ghost use Rattle.lex_file.specs.Languages.{file_tail, language_of};
ghost use Rattle.lex_file.specs.Shapes.{is_file_node};
ghost use Rattle.lex_file.specs.Walking.{next_strings};
ghost use Rattle.lex_agree.specs.Counts.{most_counted, IsCount, IsCountedThere, AreCountedBelow};
ghost use Rattle.lex_agree.specs.Walks.{node_tail};

use crate::steps::law_of_labels;
use crate::tables::CountTable;
use lex_file::{LexFile, Node, PathLex};
use std::alloc::{AllocError, Global};

/// An upper bound on the number of strings of a file, unless it is the greatest number: the sum over its arcs, each node once, up
/// to the root.
///
/// It takes a byte for each word of the file up to there, or in GAD2 for each three words.
#[tactic(auto, using(crate::proofs::Bounds::counted_first, crate::proofs::Bounds::counted_more, crate::proofs::Bounds::less_remaining))]
pub fn count_strings(alloc: Global, file: &LexFile<'_>) -> Result<u32, AllocError>
    ensures { IfOk result (λ count. IsCount (language_of (bytes_of file.now)) count) }
{
    let root = file.root();
    let mut counts = CountTable::new(alloc, file)?;
    let mut next = file.first();
    while let Some(node) = next {
        let count = count_node(file, &counts, node);
        if file.place(node) == file.place(root) {
            return Ok(count);
        }
        if !counts.has_room(file, node) {
            return Ok(u32::MAX);
        }
        counts.put(file, node, count)?;
        next = file.after(node);
    }
    Ok(counts.of(file, root))
}

/// The count of a node, from those of the nodes before it.
#[tactic(auto, using(crate::proofs::Bounds::first_label, crate::proofs::Bounds::last_label, crate::proofs::Bounds::label_more, crate::proofs::Bounds::counted_there, crate::proofs::Bounds::longer))]
fn count_node(file: &LexFile<'_>, counts: &CountTable, node: Node) -> u32
    requires node { IsTrue (is_file_node (bytes_of file.now) (number_of node)) }
    requires before { AreCountedBelow (bytes_of file.now) counts.now (number_of node) }
    ensures { IsCount (file_tail (bytes_of file.now) (number_of node)) result }
{
    let mut count = 0;
    let mut from = 0;
    let mut rest = file.place(node) as usize;
    while let Some(on) = file.walk_on(node, from, rest) {
        let branch = on.branch;
        law_of_labels(file, node, branch);
        let more = count_after(file, counts, branch.step.next);
        count = sum_of(count, more, branch.step.accepts);
        from = branch.label + 1;
        rest = on.rest;
    }
    count
}

/// The count of the strings after an arc.
#[tactic(auto, using(crate::proofs::Bounds::count_none))]
fn count_after(file: &LexFile<'_>, counts: &CountTable, next: Option<Node>) -> u32
    requires { IsCountedThere (bytes_of file.now) counts.now next }
    ensures { IsCount (next_strings (node_tail (bytes_of file.now)) next) result }
{
    match next {
        None => 0,
        Some(node) => counts.of(file, node),
    }
}

/// The sum of two counts, and one more if an arc accepts; or the greatest number.
fn sum_of(count: u32, more: u32, accepts: bool) -> u32
    ensures { result < most_counted → result ≡ count + more + (if accepts then 1 else 0) }
{
    count
        .saturating_add(more)
        .saturating_add(u32::from(accepts))
}
