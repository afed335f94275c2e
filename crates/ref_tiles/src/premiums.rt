//! Premiums of squares.
ghost use Rattle.std.specs.Prelude.{◌≡◌, ◌≤◌};
ghost use Rattle.ref_tiles.specs.Rulebook.{letter_factor, word_factor};
ghost use Rattle.ref_tiles.specs.Codes.{premium_of};

/// The premium of a square. It counts for a tile put there in this turn, and never again.
#[derive(Clone, Copy, Debug, PartialEq, Eq, PartialOrd, Ord, Hash)]
pub enum Premium {
    Plain,
    DoubleLetter,
    TripleLetter,
    DoubleWord,
    TripleWord,
}

impl Premium {
    /// The premium that a byte of a rules text names: `.` for none, `d` and `t` for a double and a triple letter, `D`
    /// and `T` for a double and a triple word; none for any other byte.
    #[tactic(auto, unfolding(crate::specs::Codes::premium_of))]
    pub fn of_code(code: u8) -> Option<Premium>
        ensures { result ≡ premium_of code }
    {
        match code {
            b'.' => Some(Premium::Plain),
            b'd' => Some(Premium::DoubleLetter),
            b't' => Some(Premium::TripleLetter),
            b'D' => Some(Premium::DoubleWord),
            b'T' => Some(Premium::TripleWord),
            _ => None,
        }
    }

    /// The factor for the points of the tile put there.
    pub fn letter_factor(&self) -> u8
        ensures factor { result ≡ letter_factor self.now }
        ensures limit { result ≤ 3 }
    {
        match self {
            Premium::DoubleLetter => 2,
            Premium::TripleLetter => 3,
            _ => 1,
        }
    }

    /// The factor for each word through the tile put there.
    pub fn word_factor(&self) -> u8
        ensures factor { result ≡ word_factor self.now }
        ensures limit { result ≤ 3 }
    {
        match self {
            Premium::DoubleWord => 2,
            Premium::TripleWord => 3,
            _ => 1,
        }
    }
}
