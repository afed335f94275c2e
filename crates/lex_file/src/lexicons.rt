//! Lexicons that are walked label by label.
ghost use Rattle.std.specs.Prelude.{◌≡◌, ◌<◌, ◌≤◌, ◌+◌, ℕ, List, [], ◌∷◌, Bool, true, false, IfSome, IfNone, IsSome, IsTrue, length};
ghost use Rattle.std.specs.List.{list_all};
ghost use Rattle.lex_file.specs.Lexicons.{is_label, NoTail, NextGives, IsRemaining};

/// The number of labels: the mark and the letters A to Z.
pub const LABELS: u8 = 27;

/// The mark between the two parts of a rotated word: the lowest label.
pub const MARK: u8 = 0;

/// What a lexicon gives at a label.
#[derive(Clone, Copy, Debug, PartialEq, Eq)]
pub struct Step<N> {
    /// Whether the label alone is a tail of the node.
    pub accepts: bool,
    /// The node of the longer tails that begin with the label, without it, if there are any.
    pub next: Option<N>,
}

/// A label with which some tail of a node begins, and what follows it.
#[derive(Clone, Copy, Debug, PartialEq, Eq)]
pub struct Branch<N> {
    /// The label.
    pub label: u8,
    /// What follows it.
    pub step: Step<N>,
}

/// A branch of a node, and where to continue after its label.
#[derive(Clone, Copy, Debug, PartialEq, Eq)]
pub struct Onward<N, R> {
    /// The branch.
    pub branch: Branch<N>,
    /// What is left of the node after the branch's label, or the whole node.
    pub rest: R,
}

/// A finite set of strings of labels, none of them empty, that is walked label by label.
///
/// `root` and `step` make a lexicon. `branch_from` tries the labels one by one, unless a lexicon has a faster way. `branch_on` goes
/// through the labels of a node from the lowest to the highest, and a lexicon may continue there from what is left of the node, so
/// that it reads nothing twice.
///
/// Each node has a set of tails; those of the root are the set. A natural number of the node, its height, falls with each step, so
/// every walk ends. Labels are below 27, and a tail has no more labels than the height of its node, so a node has finitely many
/// tails.
pub trait PathLex {
    /// A place in a walk.
    type Node: Copy;

    // Whether a string is in the set.
    ghost language: { Self → List ℕ → Bool };

    // The nodes of this lexicon.
    ghost is_node: { Self → Self.Node → Type 0 };

    // Whether a string is a tail of a node.
    ghost tail: { Self → Self.Node → List ℕ → Bool };

    // A number that falls with each step.
    ghost height: { Self → Self.Node → ℕ };

    // What is left of a node for the labels from one on, as written by a lexicon that continues from there.
    ghost is_rest: { Self → Self.Node → ℕ → Self.Node → Type 0 } = { λ _ node _ rest. rest ≡ node };

    /// The node whose tails are the whole set.
    fn root(&self) -> Self::Node
        ensures node { is_node self.now result }
        ensures tails { (string : List ℕ) → tail self.now result string ≡ language self.now string };

    /// What follows a label, or None if no tail of the node begins with it. The node must be one that this lexicon gave.
    fn step(&self, node: Self::Node, label: u8) -> Option<Step<Self::Node>>
        requires { is_node self.now node }
        ensures none { IfNone result (NoTail (tail self.now) node label) }
        ensures accepts { IfSome result (λ step. step.accepts ≡ tail self.now node (label ∷ [])) }
        ensures next { IfSome result (λ step. NextGives (is_node self.now) (tail self.now) (height self.now) node label step.next) }
        ensures alive { IfSome result (λ step. step.accepts ≡ false → IsSome step.next) };

    /// The first label from `from` on with which some tail of the node begins, and what follows it, or None if there is no such
    /// label. The node must be one that this lexicon gave.
    fn branch_from(&self, node: Self::Node, from: u8) -> Option<Branch<Self::Node>>
        requires { is_node self.now node }
        ensures none { IfNone result ((label : ℕ) → from ≤ label → NoTail (tail self.now) node label) }
        ensures reached { IfSome result (λ branch. from ≤ branch.label) }
        ensures passed { IfSome result (λ branch. (label : ℕ) → from ≤ label → label < branch.label → NoTail (tail self.now) node label) }
        ensures accepts { IfSome result (λ branch. branch.step.accepts ≡ tail self.now node (branch.label ∷ [])) }
        ensures next { IfSome result (λ branch. NextGives (is_node self.now) (tail self.now) (height self.now) node branch.label branch.step.next) }
        ensures alive { IfSome result (λ branch. branch.step.accepts ≡ false → IsSome branch.step.next) }
    {
        for label in from..LABELS {
            if let Some(step) = self.step(node, label) {
                return Some(Branch { label, step });
            }
        }
        None
    }

    /// The first label from `from` on with which some tail of the node begins, what follows it, and what is left of the node after
    /// that label; or None if there is no such label. The node must be one that this lexicon gave. The rest must be the node
    /// itself, or what the lexicon gave as left of it for the labels from `from` on.
    fn branch_on(
        &self,
        node: Self::Node,
        from: u8,
        rest: Self::Node,
    ) -> Option<Onward<Self::Node, Self::Node>>
        requires node { is_node self.now node }
        requires rest { IsRemaining (is_rest self.now) node from rest }
        ensures none { IfNone result ((label : ℕ) → from ≤ label → NoTail (tail self.now) node label) }
        ensures reached { IfSome result (λ on. from ≤ on.branch.label) }
        ensures passed { IfSome result (λ on. (label : ℕ) → from ≤ label → label < on.branch.label → NoTail (tail self.now) node label) }
        ensures accepts { IfSome result (λ on. on.branch.step.accepts ≡ tail self.now node (on.branch.label ∷ [])) }
        ensures next { IfSome result (λ on. NextGives (is_node self.now) (tail self.now) (height self.now) node on.branch.label on.branch.step.next) }
        ensures alive { IfSome result (λ on. on.branch.step.accepts ≡ false → IsSome on.branch.step.next) }
        ensures rest { IfSome result (λ on. IsRemaining (is_rest self.now) node (on.branch.label + 1) on.rest) }
    {
        let Some(branch) = self.branch_from(node, from) else {
            return None;
        };
        Some(Onward { branch, rest: node })
    }

    // No tail is empty.
    ghost nonempty: { (lexicon : Self) (node : Self.Node) → is_node lexicon node → tail lexicon node [] ≡ false };

    // The labels of a tail are below 27.
    ghost labels: { (lexicon : Self) (node : Self.Node) (string : List ℕ) → is_node lexicon node → tail lexicon node string ≡ true → IsTrue (list_all is_label string) };

    // A tail has no more labels than the height of its node.
    ghost bounded: { (lexicon : Self) (node : Self.Node) (string : List ℕ) → is_node lexicon node → tail lexicon node string ≡ true → length string ≤ height lexicon node };
}
