//! Letters, A to Z.
ghost use Rattle.std.specs.Prelude.{◌≡◌, ◌+◌, ◌<◌};

/// One of the 26 letters of the English alphabet.
#[derive(Clone, Copy, Debug, PartialEq, Eq, PartialOrd, Ord, Hash)]
pub struct Letter {
    /// The place in the alphabet: 0 for A to 25 for Z.
    pub index: u8,
    pub ghost in_range: { index < 26 },
}

impl Letter {
    ghost use Rattle.ref_tiles.specs.Letters.{letter_at, letter_from};

    /// The letter at a place of the alphabet, 0 for A to 25 for Z; none past it.
    #[tactic(auto, using(crate::proofs::LetterLemmas::letter_at_past))]
    pub fn new(index: u8) -> Option<Letter>
        ensures { result ≡ letter_at index }
    {
        if index < 26 {
            Some(Letter { index })
        } else {
            None
        }
    }

    /// The letter that a byte writes when `first` writes A; none for any other byte.
    pub fn counted_from(first: u8, byte: u8) -> Option<Letter>
        ensures { result ≡ letter_from first byte }
    {
        Letter::new(byte.checked_sub(first)?)
    }

    /// The byte of the letter as a capital, `A` to `Z`.
    pub fn capital(&self) -> u8
        ensures { result ≡ self.now.index + 65 }
    {
        self.index + b'A'
    }
}
