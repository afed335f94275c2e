//! How a play is written, and the order of notations.
use arrayvec::ArrayVec;
use ref_board::{Dir, SIDE, Square};
use ref_tiles::Symbol;

/// The notation of a play, as the GCG specification writes it: the run of the play in its direction, with a dot for each old tile,
/// a capital for each letter and a small letter for each blank.
///
/// The order is across before down, then by the first square, row by row, and then by the bytes of the word.
#[derive(Debug, PartialEq, Eq, PartialOrd, Ord, Drop)]
pub struct Notation {
    /// The direction in which the play is written.
    pub dir: Dir,
    /// The first square of the run.
    pub at: Square,
    /// A symbol for each square of the run.
    pub word: ArrayVec<Symbol, SIDE>,
}
