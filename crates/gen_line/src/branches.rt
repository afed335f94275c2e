//! The mark and the letters with which the strings of a lexicon continue, one after another.
ghost use Rattle.std.specs.Prelude.{◌≡◌, ◌<◌, ◌≤◌, ◌+◌, ℕ, List, ◌∷◌, true, false, IfNone, IfSome};
ghost use Rattle.lex_file.specs.Lexicons.{NoTail, IsRemaining};
ghost use Rattle.lex_file.specs.Walking.{IsOpen, strings};
ghost use Rattle.gen_line.specs.Model.{shows};

use crate::cells::Open;
use crate::tiles::Tiles;
use lex_file::{LABELS, MARK, Onward, PathLex, Step};

/// What follows the mark, or None if no string continues with it. It is the first label of a node that has it, so no other label is tried.
#[inline(always)]
pub fn pass_mark<L: PathLex>(lex: &L, at: Step<L::Node>) -> Option<Step<L::Node>>
    requires { IsOpen (L.is_node lex.now) at.next }
    ensures none { IfNone result ((t : List ℕ) → strings (L.tail lex.now) at (0 ∷ t) ≡ false) }
    ensures some { IfSome result (λ s. (t : List ℕ) → strings (L.tail lex.now) at (0 ∷ t) ≡ strings (L.tail lex.now) s t) }
    ensures open { IfSome result (λ s. IsOpen (L.is_node lex.now) s.next) }
{
    let Some(node) = at.next else {
        return None;
    };
    let Some(on) = lex.branch_on(node, MARK, node) else {
        return None;
    };
    if on.branch.label == MARK {
        return Some(on.branch.step);
    }
    None
}

/// The first label from `from` on with which some tail of a node begins and which a square and the rack allow, what follows it, and
/// what is left of the node after that label.
#[inline(always)]
pub fn next_letter<L: PathLex>(
    lex: &L,
    node: L::Node,
    from: u8,
    rest: L::Node,
    free: &Open,
    tiles: &Tiles,
) -> Option<Onward<L::Node, L::Node>>
    requires node { L.is_node lex.now node }
    requires low { 0 < from }
    requires high { from ≤ LABELS }
    requires rest { IsRemaining (L.is_rest lex.now) node from rest }
    ensures none { IfNone result ((label : ℕ) → from ≤ label → shows free.now tiles.now.rack label ≡ true → NoTail (L.tail lex.now) node label) }
    ensures reached { IfSome result (λ on. from ≤ on.branch.label) }
    ensures passed { IfSome result (λ on. (label : ℕ) → from ≤ label → label < on.branch.label → shows free.now tiles.now.rack label ≡ true → NoTail (L.tail lex.now) node label) }
    ensures label { IfSome result (λ on. on.branch.label < LABELS) }
    ensures some { IfSome result (λ on. (t : List ℕ)
        → L.tail lex.now node (on.branch.label ∷ t) ≡ strings (L.tail lex.now) on.branch.step t) }
    ensures open { IfSome result (λ on. IsOpen (L.is_node lex.now) on.branch.step.next) }
    ensures rest { IfSome result (λ on. IsRemaining (L.is_rest lex.now) node (on.branch.label + 1) on.rest) }
{
    let mut next = from;
    let mut remaining = rest;
    while let Some(on) = lex.branch_on(node, next, remaining) {
        if tiles.allow_label(free, on.branch.label) {
            return Some(on);
        }
        next = on.branch.label + 1;
        remaining = on.rest;
    }
    None
}
