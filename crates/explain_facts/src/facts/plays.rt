//! Facts about the text and the placement of a play.

use ref_board::{Dir, Square};

/// What is wrong with the text or the placement of a play.
#[derive(Drop)]
pub enum PlayFact {
    /// A play leaves the board.
    LeavesBoard {
        /// Its first square.
        at: Square,
        /// Its direction.
        dir: Dir,
        /// The number of squares that it covers.
        squares: usize,
        /// The number of squares from the first one to the end of the line.
        room: usize,
    },
    /// A play has a dot on an empty square.
    DotOnEmpty {
        /// The square.
        square: Square,
    },
    /// A play has another letter than the tile on the square.
    OtherLetter {
        /// The square.
        square: Square,
        /// The letter of the play, as it is written.
        written: u8,
        /// The letter that the tile shows, a capital.
        shown: u8,
    },
    /// Every square of the play already has a tile.
    NoNewTile,
    /// A play puts down more tiles than a rack has.
    ManyTiles {
        /// The number of tiles.
        tiles: usize,
    },
    /// A tile lies directly before a play.
    TileBefore {
        /// Its square.
        square: Square,
        /// The letter that it shows, a capital.
        letter: u8,
    },
    /// A tile lies directly after a play.
    TileAfter {
        /// Its square.
        square: Square,
        /// The letter that it shows, a capital.
        letter: u8,
    },
    /// The line of a play must name the whole word.
    NotWhole,
    /// The first play of a game does not cover 8H.
    MissesCentre,
    /// A play does not make a word of two letters or more.
    TooShort,
    /// No tile of a play touches a tile that is already on the board.
    Apart,
}
