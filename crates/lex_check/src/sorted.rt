//! The rotated paths of a word list in order, as a lexicon.
ghost use Rattle.std.specs.Prelude.{◌≡◌, ◌≤◌, ◌<◌, ℕ, [], ◌∷◌, false, length, slice_index_or, IfNone, IfSome, IsSome};
ghost use Rattle.lex_file.specs.Lexicons.{NoTail, NextGives};
ghost use Rattle.lex_check.specs.Stretches.{label_at, ends_at, stretch_tail, height_of, IsStretch, IsPartWith, IsPlaceFrom, IsBelow, IsPartFrom};

use crate::rotated::Rotated;
use crate::rotating::gather;
use lex_file::{Branch, PathLex, Step};
use lex_list::{WordList, law_of_paths};
use std::alloc::{AllocError as NoMemory, Global};
use std::marker::Model;

/// A node of a lexicon of sorted paths: the paths from one place up to another, without their first labels.
#[derive(Clone, Copy, Debug, PartialEq, Eq)]
pub struct Stretch {
    low: usize,
    high: usize,
    depth: usize,
}

/// The rotated paths of a word list, in order. Contracts see the list of the paths.
#[derive(Debug, Drop)]
pub struct SortedPaths {
    paths: Vec<Rotated>,
}

impl Model for SortedPaths {
    ghost use Rattle.std.specs.Prelude.{List, ℕ};
    ghost use Rattle.lex_check.specs.Stretches.{IsPathList};

    ghost Value = { List (List ℕ) };

    ghost view = { λ a. a.paths.items };

    ghost invariant = { λ a. IsPathList a.paths.items };
}

/// The paths of a stretch that have one label at its depth: those from one place up to another.
#[derive(Clone, Copy)]
struct Part {
    label: u8,
    low: usize,
    high: usize,
}

/// The label at a depth of the path at a place.
fn label_at(paths: &[Rotated], place: usize, depth: usize) -> u8
    requires place { place < length paths.now }
    requires depth { depth < length (slice_index_or paths.now place []) }
    ensures { result ≡ label_at paths.now depth place }
{
    paths[place].label(depth)
}

/// The first place of a stretch whose path has, at the stretch's depth, that label or a higher one, by binary search.
#[inline(never)]
fn search_from(paths: &[Rotated], stretch: Stretch, label: u8) -> usize
    requires { IsStretch paths.now stretch }
    ensures { IsPlaceFrom paths.now stretch label result }
{
    let mut low = stretch.low;
    let mut high = stretch.high;
    while low < high {
        let mid = low + (high - low) / 2;
        if label_at(paths, mid, stretch.depth) < label {
            low = mid + 1;
        } else {
            high = mid;
        }
    }
    low
}

/// The first place of a stretch whose path has, at the stretch's depth, that label or a higher one. The first and the last path of
/// the stretch decide at once whether it is the first place or there is none.
#[tactic(auto, using(crate::proofs::Stretches::place_empty, crate::proofs::Stretches::place_first))]
#[inline(always)]
fn first_from(paths: &[Rotated], stretch: Stretch, label: u8) -> usize
    requires { IsStretch paths.now stretch }
    ensures { IsPlaceFrom paths.now stretch label result }
{
    let Stretch { low, high, depth } = stretch;
    if low == high {
        return low;
    }
    if label_at(paths, low, depth) >= label {
        return low;
    }
    if label_at(paths, high - 1, depth) < label {
        return high;
    }
    search_from(paths, stretch, label)
}

/// The part of a stretch with the first label from `from` on.
#[tactic(auto, using(crate::proofs::Stretches::label_below, crate::proofs::Stretches::part_is, crate::proofs::Stretches::below_all))]
#[inline(always)]
fn part_from(paths: &[Rotated], stretch: Stretch, from: u8) -> Option<Part>
    requires { IsStretch paths.now stretch }
    ensures none { IfNone result (IsBelow paths.now stretch from) }
    ensures part { IfSome result (λ part. IsPartFrom paths.now stretch from part.label part.low part.high) }
{
    let low = first_from(paths, stretch, from);
    if low == stretch.high {
        return None;
    }
    let label = label_at(paths, low, stretch.depth);
    let rest = Stretch {
        low,
        high: stretch.high,
        depth: stretch.depth,
    };
    let high = first_from(paths, rest, label + 1);
    Some(Part { label, low, high })
}

/// Whether the path at a place ends at a depth that it reaches.
fn ends_at(paths: &[Rotated], depth: usize, place: usize) -> bool
    requires place { place < length paths.now }
    requires depth { depth ≤ length (slice_index_or paths.now place []) }
    ensures { result ≡ ends_at paths.now depth place }
{
    paths[place].ends_at(depth)
}

/// What follows the label of a part of a stretch.
#[inline(always)]
fn step_after(paths: &[Rotated], stretch: Stretch, part: Part) -> Step<Stretch>
    requires stretch { IsStretch paths.now stretch }
    requires part { IsPartWith paths.now stretch part.label part.low part.high }
    requires some { part.low < part.high }
    ensures accepts { result.accepts ≡ stretch_tail paths.now stretch (part.label ∷ []) }
    ensures next { NextGives (IsStretch paths.now) (stretch_tail paths.now) height_of stretch part.label result.next }
    ensures alive { result.accepts ≡ false → IsSome result.next }
{
    let depth = stretch.depth + 1;
    let accepts = ends_at(paths, depth, part.low);
    let low = if accepts { part.low + 1 } else { part.low };
    if low == part.high {
        return Step {
            accepts,
            next: None,
        };
    }
    Step {
        accepts,
        next: Some(Stretch {
            low,
            high: part.high,
            depth,
        }),
    }
}

/// The first label from `from` on with which a path of a stretch continues, and what follows it.
#[tactic(auto, using(crate::proofs::Stretches::branch_none))]
#[inline(always)]
fn branch_in(paths: &[Rotated], stretch: Stretch, from: u8) -> Option<Branch<Stretch>>
    requires { IsStretch paths.now stretch }
    ensures none { IfNone result ((label : ℕ) → from ≤ label → NoTail (stretch_tail paths.now) stretch label) }
    ensures reached { IfSome result (λ branch. from ≤ branch.label) }
    ensures passed { IfSome result (λ branch. (label : ℕ) → from ≤ label → label < branch.label → NoTail (stretch_tail paths.now) stretch label) }
    ensures accepts { IfSome result (λ branch. branch.step.accepts ≡ stretch_tail paths.now stretch (branch.label ∷ [])) }
    ensures next { IfSome result (λ branch. NextGives (IsStretch paths.now) (stretch_tail paths.now) height_of stretch branch.label branch.step.next) }
    ensures alive { IfSome result (λ branch. branch.step.accepts ≡ false → IsSome branch.step.next) }
{
    let Some(part) = part_from(paths, stretch, from) else {
        return None;
    };
    Some(Branch {
        label: part.label,
        step: step_after(paths, stretch, part),
    })
}

/// What follows a label in a stretch.
fn step_in(paths: &[Rotated], stretch: Stretch, label: u8) -> Option<Step<Stretch>>
    requires { IsStretch paths.now stretch }
    ensures none { IfNone result (NoTail (stretch_tail paths.now) stretch label) }
    ensures accepts { IfSome result (λ step. step.accepts ≡ stretch_tail paths.now stretch (label ∷ [])) }
    ensures next { IfSome result (λ step. NextGives (IsStretch paths.now) (stretch_tail paths.now) height_of stretch label step.next) }
    ensures alive { IfSome result (λ step. step.accepts ≡ false → IsSome step.next) }
{
    let Some(branch) = branch_in(paths, stretch, label) else {
        return None;
    };
    if branch.label != label {
        return None;
    }
    Some(branch.step)
}

impl PathLex for SortedPaths {
    ghost use Rattle.std.specs.Prelude.{List, ℕ};
    ghost use Rattle.lex_check.specs.Stretches.{IsStretch, stretch_tail, is_one_of, height_of};
    ghost use Rattle.lex_check.specs.laws.Stretches.{stretch_nonempty, stretch_labels, stretch_bounded};

    type Node = Stretch;

    ghost language = { λ paths string. is_one_of paths string };

    ghost is_node = { λ paths stretch. IsStretch paths stretch };

    ghost tail = { λ paths stretch string. stretch_tail paths stretch string };

    ghost height = { λ paths stretch. height_of stretch };

    #[tactic(auto, using(crate::proofs::Stretches::root_is, crate::proofs::Stretches::root_tails))]
    fn root(&self) -> Stretch {
        Stretch {
            low: 0,
            high: self.paths.len(),
            depth: 0,
        }
    }

    fn step(&self, node: Stretch, label: u8) -> Option<Step<Stretch>> {
        step_in(&self.paths, node, label)
    }

    #[inline(always)]
    fn branch_from(&self, node: Stretch, from: u8) -> Option<Branch<Stretch>> {
        branch_in(&self.paths, node, from)
    }

    ghost nonempty = { stretch_nonempty };

    ghost labels = { stretch_labels };

    ghost bounded = { stretch_bounded };
}

impl SortedPaths {
    ghost use Rattle.std.specs.Prelude.{◌≡◌, List, ℕ, length, IfOk};
    ghost use Rattle.lex_check.specs.Stretches.{IsPathList};
    ghost use Rattle.lex_list.specs.RotatedPaths.{StandsFor};

    /// The rotated paths of the words of a list.
    pub fn new(alloc: Global, list: &WordList) -> Result<SortedPaths, NoMemory>
        ensures { IfOk result (λ paths. StandsFor (⟦<SortedPaths as PathLex>⟧.language paths) list.now) }
    {
        law_of_paths();
        // From here on it is known that the words are a word list.
        let _words = list.len();
        let mut paths = gather(alloc, list)?;
        paths.sort_unstable_by_key(|path| path.number());
        paths.dedup();
        Ok(SortedPaths { paths })
    }

    /// The number of paths, which are in order, each once.
    pub fn len(&self) -> usize
        ensures number { result ≡ length self.now }
        ensures proper { IsPathList self.now }
    {
        self.paths.len()
    }
}
