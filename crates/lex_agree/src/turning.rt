//! Whether letters turn over: what a file has with a letter after a mark, it also has with that letter before the front.
ghost use Rattle.std.specs.Prelude.{◌≡◌, ◌+◌, ◌<◌, ◌≤◌, ◌++◌, ◌∷◌, [], ℕ, List, IsSome, OnSome, length, take, true};
ghost use Rattle.std.specs.Bool.{OnTrue};
ghost use Rattle.lex_list.specs.RotatedPaths.{after_mark};
ghost use Rattle.lex_file.specs.Files.{bytes_of, number_of};
ghost use Rattle.lex_file.specs.Languages.{file_tail, language_of};
ghost use Rattle.lex_agree.specs.Chains.{TurnsOverFrom};
ghost use Rattle.lex_agree.specs.Walks.{IsNodeOf, IsNodeAt, AreKept};

use crate::kept::{Kept, MOST_LABELS, none_kept, walk_on};
use crate::steps::{follow, is_same, law_of_labels, start};
use lex_file::{LABELS, LexFile, MARK, Node, PathLex};

/// The number of labels.
const EACH_LABEL: usize = LABELS as usize;

/// Whether letters turn over in the whole file, which may have no more fronts than `letters` letters of words.
#[tactic(auto, using(crate::proofs::Turned::kept_none))]
pub fn all_turn_over(file: &LexFile<'_>, letters: usize) -> bool
    requires { letters ≤ 6000000 }
    ensures { OnTrue result (TurnsOverFrom (language_of (bytes_of file.now)) []) }
{
    let fronts = (MOST_LABELS * letters + 1) as u32;
    let mut kept = [none_kept(start(file)); EACH_LABEL];
    let mut front = [0; MOST_LABELS];
    turn_over(file, &mut front, 0, file.root(), fronts, &mut kept).is_some()
}

/// The number of fronts that are left of `fronts`, if letters turn over at a node after a front and at all nodes that come after it
/// before a mark; none if one does not, or if there are too many fronts or too long ones.
///
/// The front is the first `len` labels; those after it are overwritten. For each label, what follows it is kept, with the last
/// front that was turned over to it.
fn turn_over(
    file: &LexFile<'_>,
    front: &mut [u8; MOST_LABELS],
    len: usize,
    node: Node,
    fronts: u32,
    kept: &mut [Kept; EACH_LABEL],
) -> Option<u32>
    requires room { length front.old ≡ 15 }
    requires node { IsNodeAt (bytes_of file.now) (take len front.old) node }
    requires kept { AreKept (bytes_of file.now) kept.old }
    ensures room { OnSome result (length front.new ≡ 15) }
    ensures front { OnSome result (take len front.new ≡ take len front.old) }
    ensures turned { OnSome result (TurnsOverFrom (language_of (bytes_of file.now)) (take len front.old)) }
    ensures kept { OnSome result (AreKept (bytes_of file.now) kept.new) }
{
    if fronts == 0 || len >= MOST_LABELS {
        return None;
    }
    let mut remaining = fronts - 1;
    let mut from = 0;
    let mut rest = file.place(node) as usize;
    while let Some(on) = file.walk_on(node, from, rest) {
        let branch = on.branch;
        law_of_labels(file, node, branch);
        match branch.step.next {
            None => {}
            Some(following) if branch.label == MARK => {
                if !turn_over_at(file, &front[..len], following, kept) {
                    return None;
                }
            }
            Some(next) => {
                front[len] = branch.label;
                remaining = turn_over(file, front, len + 1, next, remaining, kept)?;
            }
        }
        from = branch.label + 1;
        rest = on.rest;
    }
    Some(remaining)
}

/// Whether the letters turn over with which tails of a node begin; the node comes after the mark of a front.
fn turn_over_at(
    file: &LexFile<'_>,
    front: &[u8],
    following: Node,
    kept: &mut [Kept; EACH_LABEL],
) -> bool
    requires few { length front.now < 15 }
    requires following { IsNodeOf (bytes_of file.now) following }
    requires kept { AreKept (bytes_of file.now) kept.old }
    ensures turned { OnTrue result ((label : ℕ) (rest : List ℕ) → file_tail (bytes_of file.now) (number_of following) (label ∷ rest) ≡ true → language_of (bytes_of file.now) (label ∷ front.now ++ after_mark rest) ≡ true) }
    ensures kept { OnTrue result (AreKept (bytes_of file.now) kept.new) }
{
    let mut from = 0;
    let mut rest = file.place(following) as usize;
    while let Some(on) = file.walk_on(following, from, rest) {
        let branch = on.branch;
        law_of_labels(file, following, branch);
        let turned = walk_on(file, branch.label, front, &mut kept[branch.label as usize]);
        let marked = follow(file, turned, MARK);
        if !is_kept(branch.step.accepts, turned.accepts) {
            return false;
        }
        if !is_same(file, branch.step.next, marked.next) {
            return false;
        }
        from = branch.label + 1;
        rest = on.rest;
    }
    true
}

/// Whether the second accepts if the first does.
fn is_kept(one: bool, other: bool) -> bool
    ensures { OnTrue result (one ≡ true → other ≡ true) }
{
    !one || other
}
