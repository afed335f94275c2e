//! The cells of a line: old tiles, and free ones with what may be laid there.

/// A square of a line without a tile.
#[derive(Clone, Copy)]
pub struct Open {
    /// Which letters, A to Z, make listed words across the line, or no letter.
    pub mask: [bool; 26],
    /// Whether the square is an anchor.
    pub anchor: bool,
}

/// A square of a line.
#[derive(Clone, Copy)]
pub enum Cell {
    /// It has a tile; the label of its letter, 1 for A to 26 for Z.
    Old(u8),
    /// It has none.
    Free(Open),
}
