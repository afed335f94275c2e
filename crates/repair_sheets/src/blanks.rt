//! Capitals that are blanks, by the rack that their line states.
ghost use Rattle.std.specs.Prelude.{◌≡◌, ◌≤◌, length};
ghost use Rattle.repair_sheets.specs.Blanks.{as_laid, less, remaining_after, laid_from, laid_by, is_blank, count_blanks, has_capital, has_blank};

use arrayvec::ArrayVec;
use gcg_read::{EventKind, Text};
use ref_board::SIDE;
use ref_tiles::{Counts, Kind, Symbol};

/// A symbol as it was laid: a capital of which no tile is left is a blank, if one is left.
fn as_laid(remaining: &Counts, symbol: &Symbol) -> Symbol
    ensures { result ≡ as_laid remaining.now symbol.now }
{
    match symbol {
        Symbol::Letter(letter) => {
            if remaining.count(Kind::Letter(*letter)) == 0 && remaining.count(Kind::Blank) > 0 {
                return Symbol::Blank(*letter);
            }
            Symbol::Letter(*letter)
        }
        Symbol::Dot => Symbol::Dot,
        Symbol::Blank(letter) => Symbol::Blank(*letter),
    }
}

/// Takes out one tile of a kind, if there is one.
fn use_one(remaining: &mut Counts, kind: Kind)
    ensures { remaining.new ≡ less remaining.old kind }
{
    remaining.take(kind);
}

/// Takes out the tile of a symbol.
fn use_up(remaining: &mut Counts, symbol: &Symbol)
    ensures { remaining.new ≡ remaining_after remaining.old symbol.now }
{
    match symbol {
        Symbol::Dot => {}
        Symbol::Letter(letter) => use_one(remaining, Kind::Letter(*letter)),
        Symbol::Blank(_) => use_one(remaining, Kind::Blank),
    }
}

/// The symbols of a word as they were laid with some tiles.
#[tactic(auto, using(crate::proofs::Laid::one_more))]
fn laid_from(tiles: &Counts, word: &[Symbol]) -> ArrayVec<Symbol, SIDE>
    requires { length word.now ≤ 15 }
    ensures symbols { result.items ≡ laid_from tiles.now word.now }
    ensures same_length { length result.items ≡ length word.now }
{
    let mut remaining = *tiles;
    let mut symbols = ArrayVec::new();
    for symbol in word {
        let laid = as_laid(&remaining, symbol);
        symbols.push(laid);
        use_up(&mut remaining, &laid);
    }
    symbols
}

/// The word as it was laid with some tiles.
fn laid_with(tiles: &Counts, word: &Text) -> Text
    ensures { result ≡ laid_from tiles.now word.now }
{
    let symbols = laid_from(tiles, word.as_slice());
    Text::new(&symbols).unwrap()
}

/// The word with a small letter for each capital that is a blank by the rack that its line states.
pub(crate) fn laid_by(rack: &Option<Counts>, word: &Text) -> Text
    ensures { result ≡ laid_by rack.now word.now }
{
    match rack {
        Some(tiles) => laid_with(tiles, word),
        None => word.copy(),
    }
}

/// Whether a symbol is a blank.
fn is_blank(symbol: &Symbol) -> bool
    ensures { result ≡ is_blank symbol.now }
{
    matches!(symbol, Symbol::Blank(_))
}

/// How many blanks a word has.
fn count_blanks(word: &Text) -> usize
    ensures { result ≡ count_blanks word.now }
{
    word.as_slice()
        .iter()
        .filter(|symbol| is_blank(symbol))
        .count()
}

/// Whether an event is a play in whose word a capital is a blank, by the rack that its line states.
pub(crate) fn has_capital(rack: &Option<Counts>, kind: &EventKind) -> bool
    ensures { result ≡ has_capital rack.now kind.now }
{
    match kind {
        EventKind::Play { word, .. } => count_blanks(word) < count_blanks(&laid_by(rack, word)),
        _ => false,
    }
}

/// Whether an event is a play in whose word there is a blank.
pub(crate) fn has_blank(kind: &EventKind) -> bool
    ensures { result ≡ has_blank kind.now }
{
    match kind {
        EventKind::Play { word, .. } => count_blanks(word) > 0,
        _ => false,
    }
}
