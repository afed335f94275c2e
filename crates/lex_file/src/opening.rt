//! The form of a lexicon file, or its first fault.
ghost use Rattle.std.specs.Prelude.{◌≡◌, ◌-◌, ◌≤◌, ◌<◌, Some, None, true, IfOk, length, slice_index};
ghost use Rattle.lex_file.specs.FileWords.{words_in};
ghost use Rattle.lex_file.specs.Formats.{header_bytes};
ghost use Rattle.first_faults.specs.Checks.{Refuses};
ghost use Rattle.lex_file.specs.Nodes.{start_at};
ghost use Rattle.lex_file.specs.Shapes.{leads_back, IsLeast, arc_fault, body_fault, header_fault, form_fault, format_of, fault_of};

use crate::arcs::Arc;
use crate::faults::FileFault;
use crate::formats::{Format, HEADER_BYTES, MAX_ARCS};
use crate::lexicons;
use crate::mask_checks::{check_mask_header, check_nodes};
use crate::reading::{begins, is_first, is_last, is_node, word_at, word_count};

/// The number of labels, as the labels of arcs are counted here.
const LABELS: u32 = lexicons::LABELS as u32;

/// The greatest label, that of Z.
const MAX_LABEL: u32 = LABELS - 1;

/// The format of a file without a fault, or its first fault. The words are read once.
#[tactic(auto, unfolding(crate::specs::Shapes::fault_of, crate::specs::Shapes::form_fault))]
pub fn check_form(bytes: &[u8]) -> Result<Format, FileFault>
    ensures fault { Refuses result (fault_of bytes.now) }
    ensures format { IfOk result (λ format. format_of bytes.now ≡ Some format) }
{
    if bytes.len() < HEADER_BYTES {
        return Err(FileFault::Short);
    }
    let Some(format) = Format::of(bytes) else {
        return Err(FileFault::Magic);
    };
    check_words(bytes, format)?;
    Ok(format)
}

/// Looks for the first fault of a file of a format.
#[tactic(auto, unfolding(crate::specs::Shapes::form_fault))]
fn check_words(bytes: &[u8], format: Format) -> Result<(), FileFault>
    requires { header_bytes ≤ length bytes.now }
    ensures { Refuses result (form_fault (Some format) bytes.now) }
{
    match format {
        Format::Gad1 => {
            check_header(bytes)?;
            check_arcs(&bytes[HEADER_BYTES..])
        }
        Format::Gad2 => {
            check_mask_header(bytes)?;
            check_nodes(&bytes[HEADER_BYTES..])
        }
    }
}

/// Looks for the first fault of a header.
#[tactic(auto, using(crate::proofs::Runs::header_words), unfolding(crate::specs::Shapes::header_fault))]
fn check_header(bytes: &[u8]) -> Result<(), FileFault>
    requires { header_bytes ≤ length bytes.now }
    ensures { Refuses result (header_fault bytes.now) }
{
    let count = word_at(bytes, 1);
    if count > MAX_ARCS || bytes.len() != HEADER_BYTES + 4 * count as usize {
        return Err(FileFault::Length);
    }
    let root = word_at(bytes, 2);
    if !is_node(&bytes[HEADER_BYTES..], root) {
        return Err(FileFault::Root);
    }
    Ok(())
}

/// Looks for the first fault of the arcs.
#[tactic(auto, using(crate::proofs::Checks::fine_none, crate::proofs::Checks::fine_more, crate::proofs::Checks::low_label), unfolding(crate::specs::Shapes::body_fault))]
fn check_arcs(arcs: &[u8]) -> Result<(), FileFault>
    ensures { Refuses result (body_fault (words_in arcs.now)) }
{
    let count = word_count(arcs);
    let mut following = 0;
    let mut room = LABELS;
    for place in 0..count {
        if !is_fine(arcs, place, following, room) {
            check_arc(arcs, place, start_of(arcs, place, following), LABELS - room)?;
        }
        let word = word_at(arcs, place);
        if is_last(word) {
            following = place;
            room = LABELS;
        } else {
            room = MAX_LABEL - Arc::of_word(word).label as u32;
        }
    }
    if !begins(arcs, count) {
        return Err(FileFault::OpenRun);
    }
    Ok(())
}

/// Whether the arc at a place has no fault. The node before its own ends at the place `following`, 0 if there is none, and the `room`
/// greatest labels are in order there. A file may have millions of arcs, so this takes few jumps; [`check_arc`] names the fault if
/// there is one.
#[inline(always)]
fn is_fine(arcs: &[u8], place: usize, following: usize, room: u32) -> bool
    requires inside { place < length (words_in arcs.now) }
    requires node { following ≡ start_at (words_in arcs.now) place - 2 }
    requires order { IsLeast (words_in arcs.now) place (27 - room) }
    requires few { room ≤ 27 }
    ensures { result ≡ true → arc_fault (words_in arcs.now) place ≡ None }
{
    let arc = Arc::of_word(word_at(arcs, place));
    let above = (arc.label as u32 + room).wrapping_sub(LABELS);
    if above >= room {
        return false;
    }
    let end = (arc.target as usize).wrapping_sub(2);
    if end < following {
        return is_last(word_at(arcs, end));
    }
    match arc.target {
        0 => arc.accepts,
        1 => following > 0,
        _ => false,
    }
}

/// The number of the first arc of the node that has the arc at a place. The node before it ends at the place `following`, 0 if there is none.
#[cold]
#[inline(never)]
fn start_of(arcs: &[u8], place: usize, following: usize) -> usize
    requires inside { place < length (words_in arcs.now) }
    requires node { following ≡ start_at (words_in arcs.now) place - 2 }
    ensures { result ≡ start_at (words_in arcs.now) place }
{
    if following > 0 {
        return following + 2;
    }
    if place > 0 && is_last(word_at(arcs, 0)) {
        2
    } else {
        1
    }
}

/// Looks for the first fault of the arc at a place. The first arc of its node has the number `start`, and `least` is the least
/// label that is in order there.
#[tactic(auto, unfolding(crate::specs::Shapes::arc_fault))]
#[cold]
#[inline(never)]
fn check_arc(arcs: &[u8], place: usize, start: usize, least: u32) -> Result<(), FileFault>
    requires inside { place < length (words_in arcs.now) }
    requires node { start ≡ start_at (words_in arcs.now) place }
    requires order { IsLeast (words_in arcs.now) place least }
    ensures { Refuses result (arc_fault (words_in arcs.now) place) }
{
    let arc = Arc::of_word(word_at(arcs, place));
    let label = arc.label as u32;
    if label > MAX_LABEL {
        return Err(FileFault::Label);
    }
    if label < least {
        return Err(FileFault::Order);
    }
    if !leads_back(arcs, start, arc.target) {
        return Err(FileFault::Target);
    }
    if !arc.accepts && arc.target == 0 {
        return Err(FileFault::DeadArc);
    }
    Ok(())
}

/// Whether a target is none, or the first arc of a node that ends before arc `start`.
fn leads_back(arcs: &[u8], start: usize, target: u32) -> bool
    ensures { result ≡ leads_back (words_in arcs.now) start target }
{
    target == 0 || ((target as usize) < start && is_first(arcs, target))
}
