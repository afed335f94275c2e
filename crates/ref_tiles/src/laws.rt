//! Laws of kinds and of the symbols of a play's text, stated as the contracts of calls that do nothing.

ghost use Rattle.std.specs.Prelude.{◌≡◌, ℕ, Some, IfSome};
ghost use Rattle.ref_tiles.specs.Kinds.{kind_of, kind_byte};
ghost use Rattle.ref_tiles.specs.Symbols.{symbol_of, byte_of};
ghost use Rattle.ref_tiles.specs.declared.kinds.Kind.{Kind};
ghost use Rattle.ref_tiles.specs.declared.symbols.Symbol.{Symbol};

/// Each kind is written by one byte, and each byte that writes a kind writes only that one.
pub fn law_of_kinds()
    ensures read_again { (kind : Kind) → kind_of (kind_byte kind) ≡ Some kind }
    ensures written_again { (byte : ℕ) → IfSome (kind_of byte) (λ kind. kind_byte kind ≡ byte) }
{}

/// Each symbol is written by one byte, and each byte that writes a symbol writes only that one.
pub fn law_of_symbols()
    ensures read_again { (symbol : Symbol) → symbol_of (byte_of symbol) ≡ Some symbol }
    ensures written_again { (byte : ℕ) → IfSome (symbol_of byte) (λ symbol. byte_of symbol ≡ byte) }
{}
