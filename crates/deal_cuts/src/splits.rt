//! Tiles by number: those of the chosen kinds, and the others.
ghost use Rattle.std.specs.Prelude.{◌≡◌, ◌+◌, ◌≤◌, ◌&&◌, not, length};
ghost use Rattle.deal_cuts.specs.Cutting.{where_so, number_in, number_beside};

use ref_tiles::{Counts, KINDS};

/// The number of tiles of the chosen kinds, and the number of others.
#[derive(Clone, Copy)]
pub struct Split {
    /// Those of the chosen kinds.
    pub within: usize,
    /// The others.
    pub beside: usize,
}

/// A number that counts only if a condition holds.
#[tactic(auto, unfolding(crate::specs::Cutting::where_so))]
pub fn where_so(so: bool, number: usize) -> usize
    ensures is { result ≡ where_so so number }
    ensures most { result ≤ number }
{
    if so { number } else { 0 }
}

/// A number that counts only if something was inside and no longer is.
#[tactic(auto, unfolding(crate::specs::Cutting::where_so))]
pub fn where_out(was: bool, stays: bool, number: usize) -> usize
    ensures is { result ≡ where_so (was && not stays) number }
    ensures most { result ≤ number }
{
    if stays { 0 } else { where_so(was, number) }
}

/// The number of some tiles that are of the chosen kinds, and the number that are not.
#[tactic(auto, using(crate::proofs::Parts::none_first, crate::proofs::Parts::none_beside, crate::proofs::Parts::chosen_in, crate::proofs::Parts::chosen_beside, crate::proofs::Parts::other_in, crate::proofs::Parts::other_beside, crate::proofs::Parts::all_in, crate::proofs::Parts::all_beside))]
pub fn split_by(chosen: &[bool; KINDS], tiles: &Counts) -> Split
    ensures within { result.within ≡ number_in chosen.now tiles.now }
    ensures beside { result.beside ≡ number_beside chosen.now tiles.now }
    ensures small { result.within + result.beside ≤ 6885 }
    ensures kinds { length tiles.now ≡ 27 }
{
    let numbers = tiles.numbers();
    let mut within = 0;
    let mut beside = 0;
    for kind in 0..KINDS {
        let number = numbers[kind] as usize;
        if chosen[kind] {
            within += number;
        } else {
            beside += number;
        }
    }
    Split { within, beside }
}
