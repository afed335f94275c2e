//! Plays as records write them, such as `8E WORD`, for the tables of tests.
use ref_board::{Dir, Square};
use text_lines::numeral;

/// A play as a record writes it.
#[derive(Clone, Copy)]
pub struct PlayText<'a> {
    /// The square of its first symbol.
    pub at: Square,
    /// Its direction.
    pub dir: Dir,
    /// Its symbols, one for each square.
    pub symbols: &'a [u8],
}

/// The play of a text: a square with its row first if the play goes across, as in `8E WORD`, and with its column first if it goes
/// down, as in `E8 WORD`. None if the text has no square.
pub fn play_text(text: &str) -> Option<PlayText<'_>> {
    let (place, symbols) = text.split_once(' ')?;
    let (at, dir) = match place.as_bytes() {
        [column @ b'A'..=b'O', row @ ..] => (square_of(row, *column)?, Dir::Down),
        [row @ .., column] => (square_of(row, *column)?, Dir::Across),
        [] => return None,
    };
    Some(PlayText {
        at,
        dir,
        symbols: symbols.as_bytes(),
    })
}

/// The square in the row of this number, from 1, and the column of this letter.
fn square_of(row: &[u8], column: u8) -> Option<Square> {
    let row = numeral(2, row)? as usize;
    let column = usize::from(column.checked_sub(b'A')?);
    Square::new(row.checked_sub(1)?, column)
}
