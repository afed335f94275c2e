//! The nodes of a GAD2 file: label words, accept words and targets.
ghost use Rattle.std.specs.Prelude.{◌≡◌, ◌<◌, ◌≤◌, ◌*◌, ℕ, true, false, length, slice_index, IfSome, IfNone};
ghost use Rattle.lex_file.specs.FileWords.{words_in};
ghost use Rattle.lex_file.specs.Arcs.{arc_with, arc_from};
ghost use Rattle.lex_file.specs.Formats.{most_body_words};
ghost use Rattle.lex_file.specs.Masks.{has_bit, is_marked, labels_below, label_count, node_size, mask_arc, mask_node, is_mask_node, labels_within, HasRoom, IsInside};

use crate::arcs::Arc;
use crate::lexicons::LABELS;
use crate::reading::{word_at, word_count};

/// Whether a word has a bit.
pub fn has_bit(word: u32, bit: u8) -> bool
    requires { bit < 32 }
    ensures { result ≡ has_bit word bit }
{
    (word >> bit) % 2 == 1
}

/// Whether a word is a label word.
pub fn is_marked(word: u32) -> bool
    ensures { result ≡ is_marked word }
{
    has_bit(word, 31)
}

/// The number of labels of a label word below this one.
#[tactic(auto, using(crate::proofs::MaskRuns::below, crate::proofs::MaskRuns::one_above))]
pub fn labels_below(label: u8, word: u32) -> u32
    requires { label ≤ 27 }
    ensures { result ≡ labels_below label word }
{
    (word & ((1 << label) - 1)).count_ones()
}

/// The number of labels of a label word.
#[tactic(auto, using(crate::proofs::MaskRuns::few_labels))]
pub fn label_count(word: u32) -> usize
    ensures count { result ≡ label_count word }
    ensures few { result ≤ 27 }
{
    labels_below(LABELS, word) as usize
}

/// The first label of a label word that is this one or a higher one.
#[tactic(auto, using(crate::proofs::MaskRuns::has_next, crate::proofs::MaskRuns::lacks_before, crate::proofs::MaskRuns::lacks_all))]
#[inline(always)]
pub fn label_from(word: u32, from: u8) -> Option<u8>
    requires { from ≤ 27 }
    ensures none { IfNone result ((label : ℕ) → from ≤ label → label < 27 → has_bit word label ≡ false) }
    ensures some { IfSome result (λ label. has_bit word label ≡ true) }
    ensures reached { IfSome result (λ label. from ≤ label) }
    ensures limit { IfSome result (λ label. label < 27) }
    ensures passed { IfSome result (λ next. (label : ℕ) → from ≤ label → label < next → has_bit word label ≡ false) }
{
    let label = from + (word >> from).trailing_zeros() as u8;
    if label >= LABELS {
        return None;
    }
    Some(label)
}

/// Whether a number names a node.
pub fn is_mask_node(body: &[u8], number: u32) -> bool
    ensures { result ≡ is_mask_node (words_in body.now) number }
{
    if number == 0 {
        return word_count(body) == 0;
    }
    let place = number as usize - 1;
    place < word_count(body) && is_marked(word_at(body, place))
}

/// The arc with a label of the node at a place.
#[tactic(auto, using(crate::proofs::MaskRuns::place_of_label, crate::proofs::Runs::shorter))]
pub fn mask_arc(body: &[u8], place: usize, label: u8) -> Arc
    requires room { IsInside (words_in body.now) place }
    requires label { label < 27 }
    requires has { has_bit (slice_index (words_in body.now) place) label ≡ true }
    ensures { result ≡ mask_arc (words_in body.now) place label }
{
    let labels = word_at(body, place);
    Arc {
        label,
        accepts: has_bit(word_at(body, place + 1), label),
        target: word_at(body, place + 2 + labels_below(label, labels) as usize),
    }
}

/// The arc of a node with a label.
#[tactic(auto, using(crate::proofs::MaskRuns::room_at, crate::proofs::MaskRuns::found, crate::proofs::MaskRuns::lacking, crate::proofs::MaskRuns::over))]
pub fn arc_with_mask(body: &[u8], node: u32, label: u8) -> Option<Arc>
    requires { HasRoom (words_in body.now) node }
    ensures { result ≡ arc_with label (mask_node (words_in body.now) node) }
{
    if node == 0 || label >= LABELS {
        return None;
    }
    let place = node as usize - 1;
    if !has_bit(word_at(body, place), label) {
        return None;
    }
    Some(mask_arc(body, place, label))
}

/// The first arc of a node whose label is this one or a higher one.
#[tactic(auto, using(crate::proofs::MaskRuns::room_at, crate::proofs::MaskRuns::next_from, crate::proofs::MaskRuns::none_from, crate::proofs::MaskRuns::over_from))]
pub fn arc_from_mask(body: &[u8], node: u32, label: u8) -> Option<Arc>
    requires { HasRoom (words_in body.now) node }
    ensures { result ≡ arc_from label (mask_node (words_in body.now) node) }
{
    if node == 0 || label >= LABELS {
        return None;
    }
    let place = node as usize - 1;
    let Some(next) = label_from(word_at(body, place), label) else {
        return None;
    };
    Some(mask_arc(body, place, next))
}

/// The number of labels of all nodes.
#[tactic(auto, using(crate::proofs::MaskRuns::none_within, crate::proofs::MaskRuns::node_within, crate::proofs::MaskRuns::word_within, crate::proofs::MaskRuns::few_within))]
pub fn count_labels(body: &[u8]) -> usize
    requires { length (words_in body.now) ≤ most_body_words }
    ensures { result ≡ labels_within (words_in body.now) (length (words_in body.now)) }
{
    let mut labels = 0;
    for place in 0..word_count(body) {
        let word = word_at(body, place);
        if is_marked(word) {
            labels += label_count(word);
        }
    }
    labels
}
