//! The words of 32 bits of a file, and the arcs and masks that they hold.
ghost use Rattle.std.specs.Prelude.{◌≡◌, ◌^◌, ◌<◌, ◌≤◌, ◌+◌, ℕ, None, Some, IfNone, IfSome, length, slice_index};
ghost use Rattle.std.specs.List.{find};
ghost use Rattle.lex_file.specs.FileWords.{words_in};
ghost use Rattle.lex_file.specs.Arcs.{arc_from, is_last, is_sought, PassesBelow};
ghost use Rattle.lex_file.specs.Nodes.{begins, is_first, is_node, node_at};

use crate::arcs::{Arc, ArcOn, Sought};
use byteorder::{ByteOrder, LittleEndian};

/// The number of words of 32 bits in some bytes.
#[tactic(auto, using(crate::proofs::Runs::count))]
#[inline(always)]
pub fn word_count(bytes: &[u8]) -> usize
    ensures count { result ≡ length (words_in bytes.now) }
    ensures small { result < 2 ^ 62 }
{
    bytes.len() / 4
}

/// The word at a place, from 0.
#[inline(always)]
pub fn word_at(bytes: &[u8], place: usize) -> u32
    requires { place < length (words_in bytes.now) }
    ensures { result ≡ slice_index (words_in bytes.now) place }
{
    prove!(place < bytes.len() / 4);
    LittleEndian::read_u32(&bytes[4 * place..])
}

/// Whether a node begins at a place.
pub fn begins(arcs: &[u8], place: usize) -> bool
    requires { place ≤ length (words_in arcs.now) }
    ensures { result ≡ begins (words_in arcs.now) place }
{
    place == 0 || is_last(word_at(arcs, place - 1))
}

/// Whether a word stores the last arc of its node.
#[inline(always)]
pub fn is_last(word: u32) -> bool
    ensures { result ≡ is_last word }
{
    word / 64 % 2 == 1
}

/// Whether a number is that of the first arc of a node.
pub fn is_first(arcs: &[u8], number: u32) -> bool
    ensures { result ≡ is_first (words_in arcs.now) number }
{
    if number == 0 {
        return false;
    }
    let place = number as usize - 1;
    place < word_count(arcs) && begins(arcs, place)
}

/// Whether a number names a node.
pub fn is_node(arcs: &[u8], number: u32) -> bool
    ensures { result ≡ is_node (words_in arcs.now) number }
{
    if number == 0 {
        return word_count(arcs) == 0;
    }
    is_first(arcs, number)
}

/// The first arc that is sought, from an arc on in its node, and where the node continues after it.
#[tactic(auto, using(crate::proofs::Runs::starts_at, crate::proofs::Runs::found_here, crate::proofs::Runs::past_all))]
#[inline(always)]
pub fn find_arc(arcs: &[u8], number: usize, sought: Sought) -> Option<ArcOn>
    ensures none { IfNone result (find (is_sought sought) (node_at (words_in arcs.now) number) ≡ None) }
    ensures arc { IfSome result (λ on. find (is_sought sought) (node_at (words_in arcs.now) number) ≡ Some on.arc) }
    ensures low { IfSome result (λ on. on.rest ≤ length (words_in arcs.now) + 1) }
    ensures rest { IfSome result (λ on. (above : ℕ) → PassesBelow sought above → on.arc.label < above → arc_from above (node_at (words_in arcs.now) number) ≡ arc_from above (node_at (words_in arcs.now) on.rest)) }
{
    if number == 0 {
        return None;
    }
    for place in number - 1..word_count(arcs) {
        let word = word_at(arcs, place);
        let arc = Arc::of_word(word);
        let last = is_last(word);
        if sought.is_met_by(arc) {
            let rest = if last { 0 } else { place + 2 };
            return Some(ArcOn { arc, rest });
        }
        if last {
            return None;
        }
    }
    None
}
