//! The faults of a play.
ghost use Rattle.std.specs.Prelude.{◌≡◌};

/// Why the text of a play does not name a play, or why a play is not legal, in the order in which the faults are checked.
#[derive(Clone, Copy, Debug, PartialEq, Eq, PartialOrd, Ord, Hash)]
pub enum PlayFault {
    /// The text leaves the board.
    OffBoard,
    /// A dot on an empty square, a letter on a tile that shows another, or a tile on an occupied square.
    Mismatch,
    /// Each square of the text has a tile already.
    NoNewTile,
    /// More than seven new tiles.
    TooManyTiles,
    /// A tile directly before or after the text, or an empty square between two new tiles.
    NotWhole,
    /// The first play does not cover the centre.
    MissesCentre,
    /// The play does not form a word of two letters.
    TooShort,
    /// No new tile is orthogonally beside an old one.
    Apart,
}

impl PlayFault {
    ghost use Rattle.ref_play.specs.Faults.{name_of};

    /// The name of the fault, as reports print it.
    pub fn name(&self) -> &'static str
        ensures { result.now ≡ name_of self.now }
    {
        match self {
            PlayFault::OffBoard => "OffBoard",
            PlayFault::Mismatch => "Mismatch",
            PlayFault::NoNewTile => "NoNewTile",
            PlayFault::TooManyTiles => "TooManyTiles",
            PlayFault::NotWhole => "NotWhole",
            PlayFault::MissesCentre => "MissesCentre",
            PlayFault::TooShort => "TooShort",
            PlayFault::Apart => "Apart",
        }
    }
}
