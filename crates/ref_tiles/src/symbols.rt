//! The symbols of a play's text.
ghost use Rattle.std.specs.Prelude.{◌≡◌};
ghost use Rattle.ref_tiles.specs.Symbols.{symbol_of, byte_of};

use crate::letters::Letter;

/// One symbol of the text of a play. The order is that of the bytes that write them.
#[derive(Clone, Copy, Debug, PartialEq, Eq, PartialOrd, Ord, Hash)]
pub enum Symbol {
    /// A tile that is on the board already, written `.`.
    Dot,
    /// A letter tile, written as a capital.
    Letter(Letter),
    /// A blank that stands for a letter, written as that letter in lower case.
    Blank(Letter),
}

/// A dot, which puts no tile down.
impl Default for Symbol {
    ghost use Rattle.ref_tiles.specs.declared.symbols.Symbol.TheVariants as symbol;

    ghost is_default = { λ value. value ≡ symbol.Dot };

    fn default() -> Symbol {
        Symbol::Dot
    }
}

impl Symbol {
    /// The symbol that a byte writes; none for a byte that is neither a dot nor a letter.
    pub fn of_byte(byte: u8) -> Option<Symbol>
        ensures { result ≡ symbol_of byte }
    {
        if byte == b'.' {
            Some(Symbol::Dot)
        } else if byte < b'a' {
            Letter::counted_from(b'A', byte).map(Symbol::Letter)
        } else {
            Letter::counted_from(b'a', byte).map(Symbol::Blank)
        }
    }

    /// The byte that writes the symbol.
    pub fn byte(&self) -> u8
        ensures { result ≡ byte_of self.now }
    {
        match self {
            Symbol::Dot => b'.',
            Symbol::Letter(letter) => b'A' + letter.index,
            Symbol::Blank(letter) => b'a' + letter.index,
        }
    }
}
