//! The checks of the form of a GAD2 file.
ghost use Rattle.std.specs.Prelude.{◌≡◌, ◌≤◌, ◌<◌, true, length, slice_index};
ghost use Rattle.lex_file.specs.FileWords.{words_in};
ghost use Rattle.lex_file.specs.Formats.{header_bytes};
ghost use Rattle.first_faults.specs.Checks.{Refuses};
ghost use Rattle.lex_file.specs.Masks.{has_bit, IsInside};
ghost use Rattle.lex_file.specs.MaskShapes.{is_mask, accepts_labels, points_back, label_fault, labels_fault, node_fault, nodes_fault};
ghost use Rattle.lex_file.specs.Shapes.{mask_header_fault};

use crate::faults::FileFault;
use crate::formats::{HEADER_BYTES, MAX_BODY_WORDS};
use crate::masks::{is_marked, is_mask_node, label_count, label_from, mask_arc};
use crate::reading::{word_at, word_count};

/// Looks for the first fault of a header.
#[tactic(auto, using(crate::proofs::Runs::header_words), unfolding(crate::specs::Shapes::mask_header_fault))]
pub fn check_mask_header(bytes: &[u8]) -> Result<(), FileFault>
    requires { header_bytes ≤ length bytes.now }
    ensures { Refuses result (mask_header_fault bytes.now) }
{
    let count = word_at(bytes, 1);
    if count > MAX_BODY_WORDS || bytes.len() != HEADER_BYTES + 4 * count as usize {
        return Err(FileFault::Length);
    }
    let root = word_at(bytes, 2);
    if !is_mask_node(&bytes[HEADER_BYTES..], root) {
        return Err(FileFault::Root);
    }
    Ok(())
}

/// Looks for the first fault of the nodes, each after the words of the one before.
#[tactic(auto, using(crate::proofs::MaskChecks::nodes_more, crate::proofs::MaskChecks::nodes_end, crate::proofs::MaskChecks::node_inside, crate::proofs::Runs::shorter))]
pub fn check_nodes(body: &[u8]) -> Result<(), FileFault>
    ensures { Refuses result (nodes_fault (words_in body.now) (length (words_in body.now)) 0) }
{
    let count = word_count(body);
    let mut place = 0;
    while place < count {
        check_node(body, place)?;
        place += 2 + label_count(word_at(body, place));
    }
    Ok(())
}

/// Looks for the first fault of the node at a place.
#[tactic(auto, using(crate::proofs::Runs::shorter), unfolding(crate::specs::MaskShapes::node_fault))]
fn check_node(body: &[u8], place: usize) -> Result<(), FileFault>
    requires { place < length (words_in body.now) }
    ensures { Refuses result (node_fault (words_in body.now) place) }
{
    let labels = word_at(body, place);
    if !is_marked(labels) {
        return Err(FileFault::NoMark);
    }
    if !is_mask(labels) {
        return Err(FileFault::Mask);
    }
    if place + 2 + label_count(labels) > word_count(body) {
        return Err(FileFault::OpenRun);
    }
    if !accepts_labels(labels, word_at(body, place + 1)) {
        return Err(FileFault::Accept);
    }
    check_labels(body, place)
}

/// Whether a label word has a label, and none of the bits 27 to 30.
fn is_mask(word: u32) -> bool
    ensures { result ≡ is_mask word }
{
    word / (1 << 27) % 16 == 0 && label_count(word) > 0
}

/// Whether an accept word has no bit that is not a label of its label word.
fn accepts_labels(labels: u32, accepts: u32) -> bool
    ensures { result ≡ accepts_labels labels accepts }
{
    accepts & (labels % (1 << 27)) == accepts
}

/// Looks for the first fault of the labels of the node at a place, in rising order.
#[tactic(auto, using(crate::proofs::MaskChecks::labels_none, crate::proofs::MaskChecks::label_more, crate::proofs::MaskChecks::labels_passed, crate::proofs::MaskChecks::labels_end))]
fn check_labels(body: &[u8], place: usize) -> Result<(), FileFault>
    requires { IsInside (words_in body.now) place }
    ensures { Refuses result (labels_fault (words_in body.now) place 27) }
{
    let labels = word_at(body, place);
    let mut from = 0;
    while let Some(label) = label_from(labels, from) {
        check_label(body, place, label)?;
        from = label + 1;
    }
    Ok(())
}

/// Looks for the first fault of a label of the node at a place.
#[tactic(auto, using(crate::proofs::Runs::shorter), unfolding(crate::specs::MaskShapes::label_fault))]
fn check_label(body: &[u8], place: usize, label: u8) -> Result<(), FileFault>
    requires room { IsInside (words_in body.now) place }
    requires label { label < 27 }
    requires has { has_bit (slice_index (words_in body.now) place) label ≡ true }
    ensures { Refuses result (label_fault (words_in body.now) place label) }
{
    let arc = mask_arc(body, place, label);
    if !points_back(body, place + 1, arc.target) {
        return Err(FileFault::Target);
    }
    if !arc.accepts && arc.target == 0 {
        return Err(FileFault::DeadArc);
    }
    Ok(())
}

/// Whether a target of the node with a number is none, or a node with a smaller number.
fn points_back(body: &[u8], number: usize, target: u32) -> bool
    ensures { result ≡ points_back (words_in body.now) number target }
{
    target == 0 || ((target as usize) < number && is_mask_node(body, target))
}
