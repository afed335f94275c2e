//! What may be wrong with a whole sheet, or with a line that no record can have.

use gcg_unread::UnreadLine;
use ref_board::{Dir, Square};

/// Where a square is, seen from the one next to it.
#[derive(Clone, Copy)]
pub enum Way {
    /// In the column to the left.
    Left,
    /// In the column to the right.
    Right,
    /// In the row above.
    Up,
    /// In the row below.
    Down,
}

/// A slip that is on each line of a sheet from one on.
#[derive(Clone, Copy)]
pub enum RunningSlip {
    /// The row and the column of each place are interchanged, such as `8E` for `E8`: each play goes in the other direction.
    Interchanged,
    /// Each place is one square off: the right one is there, seen from the one that is written.
    OneOff(Way),
    /// In the word of each play, capitals are small letters and small letters are capitals.
    OtherCase,
    /// A blank is written as a capital: the rack of its line has no tile for that, but a blank.
    CapitalBlanks,
    /// Each line has the name of the other player.
    OtherPlayer,
}

/// A slip of a whole sheet.
#[derive(Clone, Copy)]
pub enum SheetSlip {
    /// This line is not read, but should be an event.
    Unread(UnreadLine),
    /// No record can have the line with this number: the `>` that it begins with should not be there, or one of two.
    ExtraMark {
        /// Its number, counted from 1.
        number: u32,
    },
    /// No record can have the line with this number: the place of its play is not written.
    NoPlace {
        /// Its number, counted from 1.
        number: u32,
        /// The square on which the play begins.
        at: Square,
        /// Its direction.
        dir: Dir,
    },
    /// The same slip is on each line from one on.
    Running {
        /// The place of the first event with it.
        place: usize,
        /// The slip.
        slip: RunningSlip,
    },
}
