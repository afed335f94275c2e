//! The least tail of a node.
ghost use Rattle.std.specs.Prelude.{◌≡◌, ◌≤◌, ◌<◌, ℕ, [], ◌∷◌};
ghost use Rattle.lex_file.specs.Lexicons.{NoTail, NextGives};
ghost use Rattle.lex_check.specs.Orders.{IsLeast};
ghost use Rattle.lex_check.specs.Differences.{Begins};

use crate::differences::{Path, only, with_front};
use lex_file::{Branch, PathLex};

/// The least label with which a tail of the node begins, and what follows it.
fn first_branch<L: PathLex>(lexicon: &L, node: L::Node) -> Branch<L::Node>
    requires node { L.is_node lexicon.now node }
    requires some { Begins (L.tail lexicon.now node) [] }
    ensures least { (label : ℕ) → label < result.label → NoTail (L.tail lexicon.now) node label }
    ensures accepts { result.step.accepts ≡ L.tail lexicon.now node (result.label ∷ []) }
    ensures next { NextGives (L.is_node lexicon.now) (L.tail lexicon.now) (L.height lexicon.now) node result.label result.step.next }
    ensures found { Begins (L.tail lexicon.now node) (result.label ∷ []) }
{
    match lexicon.branch_from(node, 0) {
        Some(branch) => branch,
        None => unreachable!(),
    }
}

/// The least label with which a tail of a node begins.
pub fn first_label<L: PathLex>(lexicon: &L, node: L::Node) -> u8
    requires node { L.is_node lexicon.now node }
    requires some { Begins (L.tail lexicon.now node) [] }
    ensures found { Begins (L.tail lexicon.now node) (result ∷ []) }
    ensures least { (label : ℕ) → label < result → NoTail (L.tail lexicon.now) node label }
{
    first_branch(lexicon, node).label
}

/// The least tail of a node.
pub fn least_tail<L: PathLex>(lexicon: &L, node: L::Node) -> Path
    requires node { L.is_node lexicon.now node }
    requires some { Begins (L.tail lexicon.now node) [] }
    requires low { L.height lexicon.now node ≤ 16 }
    ensures { IsLeast (L.tail lexicon.now node) result.items }
{
    let Branch { label, step } = first_branch(lexicon, node);
    if step.accepts {
        return only(label);
    }
    match step.next {
        Some(next) => with_front(label, least_tail(lexicon, next)),
        None => only(label),
    }
}
