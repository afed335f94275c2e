//! Counts of tiles, kind by kind.
ghost use Rattle.std.specs.Prelude.{◌≡◌, ◌+◌, ◌-◌, ◌<◌, ◌↔◌, ℕ, IsTrue, IsSome, OnSome, IfNone, length, sum, slice_index};
ghost use Rattle.ref_tiles.specs.Counting.{no_tiles, count_of, with_count, IsContainedIn};

use crate::kinds::Kind;
use std::marker::Model;

/// The number of kinds of tiles: 26 letters and the blank.
pub const KINDS: usize = 27;

/// The number of tiles of each kind: a rack, a bag or a whole tile set, up to 255 of a kind.
#[derive(Clone, Copy, Debug, PartialEq, Eq)]
pub struct Counts {
    numbers: [u8; KINDS],
}

impl Model for Counts {
    ghost use Rattle.std.specs.Prelude.{◌≡◌, List, ℕ, length};

    ghost Value = { List ℕ };

    ghost view = { λ c. c.numbers };

    ghost invariant = { λ c. length c.numbers ≡ 27 };

    ghost inverse = { λ numbers. record { numbers = numbers } };
}

/// Each of these numbers is below 256.
fn are_bytes(numbers: &[u8])
    ensures { (k : ℕ) → k < length numbers.now → slice_index numbers.now k < 256 }
{
    let _ = numbers;
}

impl Counts {
    /// The tiles of the English game, 100 in all.
    pub const ENGLISH: Counts = Counts {
        numbers: [
            9, 2, 2, 4, 12, 2, 3, 2, 9, 1, 1, 4, 2, 6, 8, 2, 1, 6, 4, 6, 4, 2, 2, 1, 2, 1, 2,
        ],
    };

    /// No tiles.
    #[tactic(auto, unfolding(crate::specs::Counting::no_tiles))]
    pub const fn new() -> Counts
        ensures { result ≡ no_tiles }
    {
        Counts {
            numbers: [0; KINDS],
        }
    }

    /// The given number of tiles of each kind, A to Z and then blanks.
    pub fn of(numbers: [u8; KINDS]) -> Counts
        ensures { result ≡ numbers }
    {
        Counts { numbers }
    }

    /// The number of tiles of each kind, A to Z and then blanks.
    pub fn numbers(&self) -> [u8; KINDS]
        ensures numbers { result ≡ self.now }
        ensures kinds { length self.now ≡ 27 }
        ensures small { (k : ℕ) → k < 27 → slice_index self.now k < 256 }
    {
        are_bytes(&self.numbers);
        let numbers = self.numbers;
        numbers
    }

    /// There is a number for each kind, and each is below 256. The call does nothing: its contract is the law.
    pub fn law_of_numbers(&self)
        ensures kinds { length self.now ≡ 27 }
        ensures small { (k : ℕ) → k < 27 → slice_index self.now k < 256 }
    {
        are_bytes(&self.numbers);
    }

    /// The number of tiles of a kind.
    pub fn count(&self, kind: Kind) -> u8
        ensures { result ≡ count_of self.now kind }
    {
        self.numbers[kind.number()]
    }

    /// The number of tiles of all kinds together.
    pub fn total(&self) -> usize
        ensures total { result ≡ sum self.now }
        ensures kinds { length self.now ≡ 27 }
    {
        let mut total = 0;
        for number in &self.numbers {
            total += *number as usize;
        }
        total
    }

    /// Adds one tile of a kind.
    pub fn add(&mut self, kind: Kind)
        requires { count_of self.old kind < 255 }
        ensures { self.new ≡ with_count self.old kind (count_of self.old kind + 1) }
    {
        self.numbers[kind.number()] += 1;
    }

    /// Takes out one tile of a kind. If there is none, the answer is none and the counts stay as they are.
    pub fn take(&mut self, kind: Kind) -> Option<()>
        ensures there { IsSome result ↔ (0 < count_of self.old kind) }
        ensures taken { OnSome result (self.new ≡ with_count self.old kind (count_of self.old kind - 1)) }
        ensures refused { IfNone result (self.new ≡ self.old) }
    {
        let number = kind.number();
        if self.numbers[number] == 0 {
            return None;
        }
        self.numbers[number] -= 1;
        Some(())
    }

    /// Whether there are no more tiles of each kind than in `other`.
    pub fn fits(&self, other: &Counts) -> bool
        ensures { IsTrue result ↔ IsContainedIn self.now other.now }
    {
        self.numbers
            .iter()
            .zip(&other.numbers)
            .all(|(own, others)| own <= others)
    }
}
