//! The view of a compiled lexicon, and its nodes.
ghost use Rattle.std.specs.Prelude.{◌≡◌, Some, IsTrue, is_none};
ghost use Rattle.lex_file.specs.Shapes.{fault_of, format_of};

use crate::arcs::{Arc, ArcOn, Sought};
use crate::faults::FileFault;
use crate::formats::{Format, HEADER_BYTES};
use crate::lexicons::{Branch, Onward, PathLex, Step};
use crate::masks::{arc_from_mask, arc_with_mask, count_labels, is_mask_node};
use crate::opening::check_form;
use crate::reading::{find_arc, is_node, word_at, word_count};

/// A node of a compiled lexicon, given by its file.
#[derive(Clone, Copy, Debug, PartialEq, Eq)]
pub struct Node {
    first: u32,
}

/// A view of the bytes of a compiled lexicon, which it borrows and never copies. The bytes have the shape of one.
#[derive(Clone, Copy, Debug)]
pub struct LexFile<'a> {
    bytes: &'a [u8],
    format: Format,
    pub ghost shape: { IsTrue (is_none (fault_of bytes.now)) },
    pub ghost named: { format_of bytes.now ≡ Some format },
}

impl<'a> LexFile<'a> {
    ghost use Rattle.std.specs.Prelude.{◌≡◌, ℕ, List, [], ◌∷◌, ◌+◌, ◌^◌, ◌<◌, ◌≤◌, false, Some, None, IfOk, IfSome, IfNone, IsSome, IsTrue, drop};
    ghost use Rattle.lex_file.specs.Arcs.{arc_with, arc_from};
    ghost use Rattle.first_faults.specs.Checks.{Refuses};
    ghost use Rattle.lex_file.specs.Languages.{file_tail};
    ghost use Rattle.lex_file.specs.Lexicons.{NextGives, NoTail};
    ghost use Rattle.lex_file.specs.Shapes.{format_of, word_count_of, arc_count_of, file_node, is_file_node};
    ghost use Rattle.lex_file.specs.Files.{bytes_of, number_of, IsNextNode, IsRest};
    ghost use Rattle.lex_file.specs.Formats.{header_bytes};

    /// Opens a compiled lexicon. It is refused exactly when it does not have the shape of one, with its first fault: first that of
    /// the header, `Short`, `Magic`, `Length` or `Root`, and then by the format. For a GAD1 file that is the first fault of the
    /// first arc with one, `Label`, `Order`, `Target` or `DeadArc`, and then `OpenRun`. For a GAD2 file it is the first fault of
    /// the first node with one: `NoMark`, `Mask`, `OpenRun`, `Accept`, and then that of its first label with one, `Target` or
    /// `DeadArc`. The words are read once.
    pub fn open(bytes: &'a [u8]) -> Result<LexFile<'a>, FileFault>
        ensures shape { Refuses result (fault_of bytes.now) }
        ensures bytes { IfOk result (λ file. bytes_of file ≡ bytes.now) }
    {
        let format = check_form(bytes)?;
        Ok(LexFile { bytes, format })
    }

    /// The format of the file.
    pub fn format(&self) -> Format
        ensures { format_of (bytes_of self.now) ≡ Some result }
    {
        self.format
    }

    /// The number of words that the header states.
    #[tactic(auto, using(crate::proofs::Views::header_words))]
    pub fn word_count(&self) -> u32
        ensures { result ≡ word_count_of (bytes_of self.now) }
    {
        word_at(self.bytes, 3)
    }

    /// The number of stored arcs; for a GAD2 file, the number of labels over all nodes, for which all its words are read.
    #[tactic(auto, using(crate::proofs::Views::few_words))]
    pub fn arc_count(&self) -> u32
        ensures { result ≡ arc_count_of (bytes_of self.now) }
    {
        match self.format {
            Format::Gad1 => word_count(self.body()) as u32,
            Format::Gad2 => count_labels(self.body()) as u32,
        }
    }

    /// The first stored node of the file, or None if there is none.
    pub fn first(&self) -> Option<Node>
        ensures none { IfNone result ((n : ℕ) → 0 < n → is_file_node (bytes_of self.now) n ≡ false) }
        ensures some { IfSome result (λ node. IsNextNode (bytes_of self.now) 0 (number_of node)) }
    {
        self.next_node(0)
    }

    /// The next stored node of the file after one of its nodes, or None after the last.
    pub fn after(&self, node: Node) -> Option<Node>
        ensures none { IfNone result ((n : ℕ) → number_of node < n → is_file_node (bytes_of self.now) n ≡ false) }
        ensures some { IfSome result (λ next. IsNextNode (bytes_of self.now) (number_of node) (number_of next)) }
    {
        self.next_node(node.first)
    }

    /// The number by which the file names one of its nodes: that of the node's first arc, or of its label word; 0 for the root of a
    /// file without words.
    pub fn place(&self, node: Node) -> u32
        ensures { result ≡ number_of node }
    {
        node.first
    }

    /// The stored node with the least number above the given one.
    #[tactic(auto, using(crate::proofs::Views::few_words, crate::proofs::Views::none_yet, crate::proofs::Views::one_more, crate::proofs::Views::next_is))]
    fn next_node(&self, number: u32) -> Option<Node>
        ensures none { IfNone result ((n : ℕ) → number < n → is_file_node (bytes_of self.now) n ≡ false) }
        ensures some { IfSome result (λ next. IsNextNode (bytes_of self.now) number (number_of next)) }
    {
        for place in number as usize..word_count(self.body()) {
            let next = place as u32 + 1;
            if self.is_node(next) {
                return Some(Node { first: next });
            }
        }
        None
    }

    /// Whether a number names a node.
    fn is_node(&self, number: u32) -> bool
        ensures { result ≡ is_file_node (bytes_of self.now) number }
    {
        match self.format {
            Format::Gad1 => is_node(self.body(), number),
            Format::Gad2 => is_mask_node(self.body(), number),
        }
    }

    /// The bytes after the header.
    #[tactic(auto, using(crate::proofs::Views::long))]
    #[inline(always)]
    fn body(&self) -> &'a [u8]
        ensures { result.now ≡ drop header_bytes (bytes_of self.now) }
    {
        &self.bytes[HEADER_BYTES..]
    }

    /// The arc of a node with a label.
    fn arc_with(&self, node: Node, label: u8) -> Option<Arc>
        requires { IsTrue (is_file_node (bytes_of self.now) node.first) }
        ensures { result ≡ arc_with label (file_node (bytes_of self.now) node.first) }
    {
        match self.format {
            Format::Gad1 => {
                let on = find_arc(self.body(), node.first as usize, Sought::Exactly(label))?;
                Some(on.arc)
            }
            Format::Gad2 => arc_with_mask(self.body(), node.first, label),
        }
    }

    /// The first stored arc of one of the file's nodes whose label is this one or a higher one, or None if there is none.
    pub fn arc_from(&self, node: Node, label: u8) -> Option<Arc>
        requires { IsTrue (is_file_node (bytes_of self.now) (number_of node)) }
        ensures { result ≡ arc_from label (file_node (bytes_of self.now) (number_of node)) }
    {
        let Some(on) = self.arc_on(node, label, node.first as usize) else {
            return None;
        };
        Some(on.arc)
    }

    /// The first stored arc of one of the file's nodes whose label is this one or a higher one, and what is left of the node
    /// after it, from what is left of the node for these labels.
    #[inline(always)]
    fn arc_on(&self, node: Node, label: u8, rest: usize) -> Option<ArcOn>
        requires node { IsTrue (is_file_node (bytes_of self.now) node.first) }
        requires rest { IsRest (bytes_of self.now) node.first label rest }
        ensures none { IfNone result (arc_from label (file_node (bytes_of self.now) node.first) ≡ None) }
        ensures arc { IfSome result (λ on. arc_from label (file_node (bytes_of self.now) node.first) ≡ Some on.arc) }
        ensures rest { IfSome result (λ on. IsRest (bytes_of self.now) node.first (on.arc.label + 1) on.rest) }
        ensures low { IfSome result (λ on. on.rest < 2 ^ 32) }
    {
        match self.format {
            Format::Gad1 => find_arc(self.body(), rest, Sought::AtLeast(label)),
            Format::Gad2 => match arc_from_mask(self.body(), node.first, label) {
                Some(arc) => Some(ArcOn {
                    arc,
                    rest: node.first as usize,
                }),
                None => None,
            },
        }
    }

    /// The first label from `from` on with which some tail of one of the file's nodes begins, what follows it, and where the node
    /// continues after that label; or None if there is no such label. `branch_on` does the same with a node for the rest; this one
    /// is for walks over whole files. The rest is the place of the node, or what was given as left of it for the labels from `from`
    /// on.
    #[tactic(auto, using(crate::proofs::Walks::branch_none, crate::proofs::Walks::branch_reached, crate::proofs::Walks::first_itself))]
    #[inline(always)]
    pub fn walk_on(&self, node: Node, from: u8, rest: usize) -> Option<Onward<Node, usize>>
        requires node { IsTrue (is_file_node (bytes_of self.now) (number_of node)) }
        requires rest { IsRest (bytes_of self.now) (number_of node) from rest }
        ensures none { IfNone result ((label : ℕ) → from ≤ label → NoTail (λ (n : Node) (string : List ℕ). file_tail (bytes_of self.now) n.first string) node label) }
        ensures reached { IfSome result (λ on. from ≤ on.branch.label) }
        ensures passed { IfSome result (λ on. (label : ℕ) → from ≤ label → label < on.branch.label → NoTail (λ (n : Node) (string : List ℕ). file_tail (bytes_of self.now) n.first string) node label) }
        ensures accepts { IfSome result (λ on. on.branch.step.accepts ≡ file_tail (bytes_of self.now) node.first (on.branch.label ∷ [])) }
        ensures next { IfSome result (λ on. NextGives (λ (n : Node). IsTrue (is_file_node (bytes_of self.now) n.first)) (λ (n : Node) (string : List ℕ). file_tail (bytes_of self.now) n.first string) (λ (n : Node). n.first) node on.branch.label on.branch.step.next) }
        ensures alive { IfSome result (λ on. on.branch.step.accepts ≡ false → IsSome on.branch.step.next) }
        ensures rest { IfSome result (λ on. IsRest (bytes_of self.now) (number_of node) (on.branch.label + 1) on.rest) }
        ensures low { IfSome result (λ on. on.rest < 2 ^ 32) }
    {
        let Some(on) = self.arc_on(node, from, rest) else {
            return None;
        };
        let branch = Branch {
            label: on.arc.label,
            step: self.step_over(node, on.arc),
        };
        Some(Onward {
            branch,
            rest: on.rest,
        })
    }

    /// What follows an arc of a node.
    #[tactic(auto, using(crate::proofs::Walks::step_accepts, crate::proofs::Walks::step_ends))]
    #[inline(always)]
    fn step_over(&self, node: Node, arc: Arc) -> Step<Node>
        requires node { IsTrue (is_file_node (bytes_of self.now) node.first) }
        requires arc { arc_with arc.label (file_node (bytes_of self.now) node.first) ≡ Some arc }
        ensures accepts { result.accepts ≡ file_tail (bytes_of self.now) node.first (arc.label ∷ []) }
        ensures next { NextGives (λ (n : Node). IsTrue (is_file_node (bytes_of self.now) n.first)) (λ (n : Node) (string : List ℕ). file_tail (bytes_of self.now) n.first string) (λ (n : Node). n.first) node arc.label result.next }
        ensures alive { result.accepts ≡ false → IsSome result.next }
    {
        let next = if arc.target == 0 {
            None
        } else {
            Some(Node { first: arc.target })
        };
        Step {
            accepts: arc.accepts,
            next,
        }
    }
}

impl<'a> PathLex for LexFile<'a> {
    ghost use Rattle.std.specs.Prelude.{◌≡◌, ℕ, List, IsTrue};
    ghost use Rattle.lex_file.specs.Files.{bytes_of, number_of, IsRest};
    ghost use Rattle.lex_file.specs.Shapes.{root_of, is_file_node};
    ghost use Rattle.lex_file.specs.Languages.{file_tail, language_of};
    ghost use Rattle.lex_file.specs.laws.Files.{file_nonempty, file_labels, file_bounded};

    type Node = Node;

    ghost language = { λ file string. language_of file.bytes.now string };

    ghost is_node = { λ file node. IsTrue (is_file_node file.bytes.now node.first) };

    ghost tail = { λ file node string. file_tail file.bytes.now node.first string };

    ghost height = { λ file node. node.first };

    ghost is_rest = { λ file node from rest. IsRest file.bytes.now node.first from rest.first };

    #[tactic(auto, using(crate::proofs::Views::header_words, crate::proofs::Views::root_is_node))]
    fn root(&self) -> Node
        ensures node { IsTrue (is_file_node (bytes_of self.now) (number_of result)) }
        ensures tails { (string : List ℕ) → file_tail (bytes_of self.now) (number_of result) string ≡ language_of (bytes_of self.now) string }
        ensures number { number_of result ≡ root_of (bytes_of self.now) }
    {
        Node {
            first: word_at(self.bytes, 2),
        }
    }

    #[tactic(auto, using(crate::proofs::Walks::step_none, crate::proofs::Walks::arc_label, crate::proofs::Walks::arc_itself))]
    fn step(&self, node: Node, label: u8) -> Option<Step<Node>> {
        let arc = self.arc_with(node, label)?;
        Some(self.step_over(node, arc))
    }

    #[tactic(auto, using(crate::proofs::Walks::branch_none, crate::proofs::Walks::branch_reached, crate::proofs::Walks::first_itself))]
    fn branch_from(&self, node: Node, from: u8) -> Option<Branch<Node>> {
        let Some(arc) = self.arc_from(node, from) else {
            return None;
        };
        Some(Branch {
            label: arc.label,
            step: self.step_over(node, arc),
        })
    }

    #[inline(always)]
    fn branch_on(&self, node: Node, from: u8, rest: Node) -> Option<Onward<Node, Node>> {
        let Some(on) = self.walk_on(node, from, rest.first as usize) else {
            return None;
        };
        Some(Onward {
            branch: on.branch,
            rest: Node {
                first: on.rest as u32,
            },
        })
    }

    ghost nonempty = { λ file node is. file_nonempty file.bytes.now node.first };

    ghost labels = { λ file node string is tail. file_labels file.bytes.now file.shape node.first string is tail };

    ghost bounded = { λ file node string is tail. file_bounded file.bytes.now file.shape node.first string is tail };
}
