//! Squares, by number or by line and place.
ghost use Rattle.std.specs.Prelude.{◌≡◌, ◌<◌, ◌/◌, ◌%◌, ◌↔◌, IsSome, IfSome};
ghost use Rattle.ref_board.specs.Lines.{square_in, square_at, line_of, place_of};

use crate::directions::Dir;
use ref_tiles::SIDE;
use std::marker::Model;

/// A square of the board. Contracts see its number, 15 times the row and the column, both from 0.
#[derive(Clone, Copy, Debug, PartialEq, Eq, PartialOrd, Ord, Hash)]
pub struct Square {
    number: u8,
}

impl Model for Square {
    ghost use Rattle.std.specs.Prelude.{ℕ, ◌<◌};

    ghost Value = { ℕ };

    ghost view = { λ s. s.number };

    ghost invariant = { λ s. s.number < 225 };

    ghost inverse = { λ n. record { number = n } };
}

impl Square {
    /// The square in a row and a column, both from 0 to 14: row 7 and column 7 are the centre, 8H.
    pub fn new(row: usize, column: usize) -> Option<Square>
        ensures there { IsSome result ↔ (row < 15) × (column < 15) }
        ensures number { IfSome result (λ s. s ≡ square_in row column) }
    {
        if row < SIDE && column < SIDE {
            Some(Square {
                number: (SIDE * row + column) as u8,
            })
        } else {
            None
        }
    }

    /// The square at a place of a line: of a row if the line goes across, of a column if it goes down.
    pub fn on_line(dir: Dir, line: usize, place: usize) -> Square
        requires line { line < 15 }
        requires place { place < 15 }
        ensures { result ≡ square_at dir line place }
    {
        let number = match dir {
            Dir::Across => SIDE * line + place,
            Dir::Down => SIDE * place + line,
        };
        Square {
            number: number as u8,
        }
    }

    /// The number of the square, 15 times the row and the column, both from 0.
    pub fn number(&self) -> usize
        ensures number { result ≡ self.now }
        ensures in_range { self.now < 225 }
    {
        self.number as usize
    }

    /// The number of a square is below 225. The call does nothing: its contract is the law.
    pub fn law_of_number(&self)
        ensures { self.now < 225 }
    {
        let _ = &self.number;
    }

    /// The row, from 0 at the top.
    pub fn row(&self) -> usize
        ensures row { result ≡ self.now / 15 }
        ensures in_range { result < 15 }
        ensures on_board { self.now < 225 }
    {
        self.number as usize / SIDE
    }

    /// The column, from 0 for A.
    pub fn column(&self) -> usize
        ensures column { result ≡ self.now % 15 }
        ensures in_range { result < 15 }
        ensures on_board { self.now < 225 }
    {
        self.number as usize % SIDE
    }

    /// The line of a direction through the square: its row across, its column down.
    pub fn line(&self, dir: Dir) -> usize
        ensures line { result ≡ line_of dir self.now }
        ensures in_range { result < 15 }
    {
        match dir {
            Dir::Across => self.row(),
            Dir::Down => self.column(),
        }
    }

    /// The place of the square on its line of a direction.
    pub fn place(&self, dir: Dir) -> usize
        ensures place { result ≡ place_of dir self.now }
        ensures in_range { result < 15 }
        ensures on_board { self.now < 225 }
    {
        match dir {
            Dir::Across => self.column(),
            Dir::Down => self.row(),
        }
    }
}

/// 1A.
impl Default for Square {
    ghost is_default = { λ s. s ≡ 0 };

    fn default() -> Square {
        Square { number: 0 }
    }
}
