//! Where a play begins, and its direction.
ghost use Rattle.std.specs.Prelude.{◌≡◌, ◌<◌, IfSome, option_map};
ghost use Rattle.gcg_read.specs.Positions.{column_of, across_of, down_of, position_of};

use ref_board::{Dir, Square};
use ref_tiles::row_of_digits;

/// Where a play begins, and in which direction it goes.
#[derive(Clone, Copy)]
pub struct Position {
    /// The square of its first symbol.
    pub at: Square,
    /// Whether it goes across or down.
    pub dir: Dir,
}

/// The column that a letter of either case writes, A to O, counted from 0.
fn column(byte: u8) -> Option<usize>
    ensures column { result ≡ column_of byte }
    ensures in_range { IfSome result (λ n. n < 15) }
{
    match byte {
        b'A'..=b'O' => Some((byte - b'A') as usize),
        b'a'..=b'o' => Some((byte - b'a') as usize),
        _ => None,
    }
}

/// The position that the bytes write: a row and then a column for a play across, a column and then a row for
/// a play down. None for any other bytes.
pub fn read_position(bytes: &[u8]) -> Option<Position>
    ensures { result ≡ position_of bytes.now }
{
    match bytes {
        [first, digits @ ..] if !first.is_ascii_digit() => down(*first, digits),
        [digits @ .., last] => across(digits, *last),
        [] => None,
    }
}

fn across(digits: &[u8], letter: u8) -> Option<Position>
    ensures { result ≡ across_of digits.now letter }
{
    let row = row_of_digits(digits)?;
    let column = column(letter)?;
    Some(Position {
        at: Square::on_line(Dir::Across, row, column),
        dir: Dir::Across,
    })
}

fn down(letter: u8, digits: &[u8]) -> Option<Position>
    ensures { result ≡ down_of letter digits.now }
{
    let row = row_of_digits(digits)?;
    let column = column(letter)?;
    Some(Position {
        at: Square::on_line(Dir::Down, column, row),
        dir: Dir::Down,
    })
}
