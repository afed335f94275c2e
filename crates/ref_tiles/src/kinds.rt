//! Kinds of tiles: letters and the blank.
ghost use Rattle.std.specs.Prelude.{◌≡◌, ◌<◌};
ghost use Rattle.ref_tiles.specs.Kinds.{number_of, kind_at, kind_of, kind_byte};

use crate::letters::Letter;

/// A kind of tile: a letter, or a blank.
#[derive(Clone, Copy, Debug, PartialEq, Eq, PartialOrd, Ord, Hash)]
pub enum Kind {
    /// A tile that bears this letter.
    Letter(Letter),
    /// A blank tile, which stands for any letter when it is played.
    Blank,
}

impl Kind {
    /// The kind that a byte writes, `A` to `Z` or `?` for a blank; none for any other byte.
    pub fn of_byte(byte: u8) -> Option<Kind>
        ensures { result ≡ kind_of byte }
    {
        if byte == b'?' {
            Some(Kind::Blank)
        } else {
            Letter::counted_from(b'A', byte).map(Kind::Letter)
        }
    }

    /// The byte that writes the kind: a capital, or `?` for a blank.
    pub fn byte(&self) -> u8
        ensures { result ≡ kind_byte self.now }
    {
        match self {
            Kind::Letter(letter) => letter.capital(),
            Kind::Blank => b'?',
        }
    }

    /// The kind with a number: 0 to 25 for A to Z, otherwise a blank.
    pub fn at(number: usize) -> Kind
        requires { number < 27 }
        ensures { result ≡ kind_at number }
    {
        match Letter::new(number as u8) {
            Some(letter) => Kind::Letter(letter),
            None => Kind::Blank,
        }
    }

    /// The number of the kind: 0 to 25 for A to Z, 26 for a blank.
    pub fn number(&self) -> usize
        ensures { result ≡ number_of self.now }
    {
        match self {
            Kind::Letter(letter) => letter.index as usize,
            Kind::Blank => 26,
        }
    }
}
