//! Steps over a file: what follows labels.
ghost use Rattle.std.specs.Prelude.{◌≡◌, ◌<◌, ◌++◌, ◌∷◌, [], ℕ, List, IsSome, IsTrue, true, false};
ghost use Rattle.std.specs.Bool.{OnTrue};
ghost use Rattle.std.specs.Char.{is_ascii_uppercase};
ghost use Rattle.lex_list.specs.RotatedPaths.{label_of};
ghost use Rattle.lex_file.specs.Files.{bytes_of, number_of};
ghost use Rattle.lex_file.specs.Languages.{file_tail};
ghost use Rattle.lex_file.specs.Walking.{strings, next_strings, IsOpen};
ghost use Rattle.lex_agree.specs.Walks.{node_tail, IsNodeOf, IsStepAt, Leads};

use lex_file::{Branch, LexFile, Node, PathLex, Step, advance};

/// The label of a letter: A is 1, Z is 26.
pub fn label_of(letter: u8) -> u8
    requires { IsTrue (is_ascii_uppercase letter) }
    ensures { result ≡ label_of letter }
{
    letter - 64
}

/// What follows an empty string of labels.
#[tactic(auto, using(crate::proofs::Walking::step_none))]
pub fn start(file: &LexFile<'_>) -> Step<Node>
    ensures { IsStepAt (bytes_of file.now) [] result }
{
    Step {
        accepts: false,
        next: Some(file.root()),
    }
}

/// One more label; if no string continues with it, nothing follows from there.
pub fn follow(file: &LexFile<'_>, at: Step<Node>, label: u8) -> Step<Node>
    requires { IsOpen (IsNodeOf (bytes_of file.now)) at.next }
    ensures strings { (t : List ℕ) → strings (node_tail (bytes_of file.now)) at (label ∷ t) ≡ strings (node_tail (bytes_of file.now)) result t }
    ensures open_there { IsOpen (IsNodeOf (bytes_of file.now)) result.next }
{
    match advance(file, at, label) {
        Some(step) => step,
        None => Step {
            accepts: false,
            next: None,
        },
    }
}

/// What follows a label.
pub fn after_label(file: &LexFile<'_>, label: u8) -> Step<Node>
    ensures { IsStepAt (bytes_of file.now) (label ∷ []) result }
{
    follow(file, start(file), label)
}

/// Whether two walks continue at the same node, or neither does.
pub fn is_same(file: &LexFile<'_>, one: Option<Node>, other: Option<Node>) -> bool
    ensures { OnTrue result ((t : List ℕ) → next_strings (node_tail (bytes_of file.now)) one t ≡ next_strings (node_tail (bytes_of file.now)) other t) }
{
    match (one, other) {
        (None, None) => true,
        (Some(one), Some(other)) => file.place(one) == file.place(other),
        _ => false,
    }
}

/// The label of a branch of a node is the mark or a letter. The function does nothing: its contract is the law.
#[inline(always)]
pub fn law_of_labels(file: &LexFile<'_>, node: Node, branch: Branch<Node>)
    requires node { IsNodeOf (bytes_of file.now) node }
    requires accepts { branch.step.accepts ≡ file_tail (bytes_of file.now) (number_of node) (branch.label ∷ []) }
    requires next { Leads (bytes_of file.now) node branch.label branch.step.next }
    requires alive { branch.step.accepts ≡ false → IsSome branch.step.next }
    ensures { branch.label < 27 }
{}
