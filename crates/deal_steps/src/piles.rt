//! Tiles by kind: both piles together, the first without the others, and the greater number of each kind.
ghost use Rattle.std.specs.Prelude.{◌≡◌, ◌+◌, ◌<◌, ℕ, slice_index};
ghost use Rattle.deal_steps.specs.Piles.{joined, without, greater};

use ref_tiles::{Counts, KINDS};

/// Both piles together; each kind must be few enough to be counted.
#[tactic(auto, using(crate::proofs::PileLaws::joined_is))]
pub fn joined(tiles: &Counts, others: &Counts) -> Counts
    requires { (k : ℕ) → k < 27 → slice_index tiles.now k + slice_index others.now k < 256 }
    ensures { result ≡ joined tiles.now others.now }
{
    let mut numbers = tiles.numbers();
    let more = others.numbers();
    for kind in 0..KINDS {
        numbers[kind] += more[kind];
    }
    Counts::of(numbers)
}

/// The first pile without the others; 0 of a kind if there are fewer.
#[tactic(auto, using(crate::proofs::PileLaws::without_is))]
pub fn without(tiles: &Counts, others: &Counts) -> Counts
    ensures { result ≡ without tiles.now others.now }
{
    let mut numbers = tiles.numbers();
    let gone = others.numbers();
    for kind in 0..KINDS {
        numbers[kind] = numbers[kind].saturating_sub(gone[kind]);
    }
    Counts::of(numbers)
}

/// The greater number of each kind.
#[tactic(auto, using(crate::proofs::PileLaws::greater_is))]
pub fn greater(tiles: &Counts, others: &Counts) -> Counts
    ensures { result ≡ greater tiles.now others.now }
{
    let mut numbers = tiles.numbers();
    let other = others.numbers();
    for kind in 0..KINDS {
        numbers[kind] = numbers[kind].max(other[kind]);
    }
    Counts::of(numbers)
}
