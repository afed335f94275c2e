//! The text of a play without a slip.
ghost use Rattle.std.specs.Prelude.{◌≡◌, ◌+◌, ◌≤◌, ◌++◌, length, take, drop, reverse, [], ◌∷◌};
ghost use Rattle.repair_changes.specs.Splices.{spliced};
ghost use Rattle.repair_changes.specs.Applied.{wrong_place, wrong_symbols, right_symbols, text_or, right_word};

use crate::slips::SpellingSlip;
use arrayvec::ArrayVec;
use gcg_read::Text;
use ref_tiles::{SIDE, Symbol};

/// Room for a text and the symbols that one slip may add.
const ROOM: usize = SIDE + 2;

/// The place of a text at which it begins to be wrong.
fn wrong_place(slip: &SpellingSlip) -> usize
    ensures { result ≡ wrong_place slip.now }
{
    match slip {
        SpellingSlip::OtherTile { place, .. } => *place,
        SpellingSlip::Dot { place } => *place,
        SpellingSlip::Letter { place, .. } => *place,
        SpellingSlip::OtherLetter { place, .. } => *place,
        SpellingSlip::Extra { place } => *place,
        SpellingSlip::MissingDot { place } => *place,
        SpellingSlip::MissingLetter { place, .. } => *place,
        SpellingSlip::Twisted { place } => *place,
        SpellingSlip::Laid(_) => 0,
    }
}

/// The number of wrong symbols, from there on.
fn wrong_symbols(slip: &SpellingSlip) -> usize
    ensures number { result ≡ wrong_symbols slip.now }
    ensures few { result ≤ 2 }
{
    match slip {
        SpellingSlip::MissingDot { .. }
        | SpellingSlip::MissingLetter { .. }
        | SpellingSlip::Laid(_) => 0,
        SpellingSlip::Twisted { .. } => 2,
        SpellingSlip::OtherTile { .. }
        | SpellingSlip::Dot { .. }
        | SpellingSlip::Letter { .. }
        | SpellingSlip::OtherLetter { .. }
        | SpellingSlip::Extra { .. } => 1,
    }
}

/// One symbol.
fn single(symbol: Symbol) -> ArrayVec<Symbol, 2>
    ensures { result.items ≡ symbol ∷ [] }
{
    let mut symbols = ArrayVec::new();
    symbols.push(symbol);
    symbols
}

/// Two symbols.
fn pair(first: Symbol, second: Symbol) -> ArrayVec<Symbol, 2>
    ensures { result.items ≡ first ∷ second ∷ [] }
{
    let mut symbols = ArrayVec::new();
    symbols.push(first);
    symbols.push(second);
    symbols
}

/// At most two symbols, in reverse order.
fn reversed(there: &[Symbol]) -> ArrayVec<Symbol, 2>
    requires { length there.now ≤ 2 }
    ensures { result.items ≡ reverse there.now }
{
    match there {
        [first, second] => pair(*second, *first),
        [only] => single(*only),
        _ => ArrayVec::new(),
    }
}

/// What should be in place of these symbols.
fn right_symbols(slip: &SpellingSlip, there: &[Symbol]) -> ArrayVec<Symbol, 2>
    requires { length there.now ≤ 2 }
    ensures { result.items ≡ right_symbols slip.now there.now }
{
    match slip {
        SpellingSlip::OtherTile { right, .. } => single(*right),
        SpellingSlip::Dot { .. } => single(Symbol::Dot),
        SpellingSlip::Letter { right, .. } => single(Symbol::Letter(*right)),
        SpellingSlip::OtherLetter { right, .. } => single(*right),
        SpellingSlip::Extra { .. } => ArrayVec::new(),
        SpellingSlip::MissingDot { .. } => single(Symbol::Dot),
        SpellingSlip::MissingLetter { right, .. } => single(Symbol::Letter(*right)),
        SpellingSlip::Twisted { .. } => reversed(there),
        SpellingSlip::Laid(_) => ArrayVec::new(),
    }
}

/// Appends symbols.
fn push_all(symbols: &mut ArrayVec<Symbol, ROOM>, more: &[Symbol])
    requires { length symbols.old.items + length more.now ≤ 17 }
    ensures { symbols.new.items ≡ symbols.old.items ++ more.now }
{
    for symbol in more {
        symbols.push(*symbol);
    }
}

/// A text in which the given number of symbols, from a place on, are replaced.
fn spliced(word: &[Symbol], place: usize, many: usize, right: &[Symbol]) -> ArrayVec<Symbol, ROOM>
    requires within { place + many ≤ length word.now }
    requires word { length word.now ≤ 15 }
    requires few { length right.now ≤ 2 }
    ensures { result.items ≡ take place word.now ++ right.now ++ drop (place + many) word.now }
{
    let mut symbols = ArrayVec::new();
    push_all(&mut symbols, &word[..place]);
    push_all(&mut symbols, right);
    push_all(&mut symbols, &word[place + many..]);
    symbols
}

/// The text of these symbols if they make one, otherwise the given one.
fn text_or(right: &[Symbol], word: &Text) -> Text
    ensures { result ≡ text_or right.now word.now }
{
    match Text::new(right) {
        Some(text) => text,
        None => word.copy(),
    }
}

/// The text with other symbols in place of the wrong ones.
#[tactic(auto, unfolding(crate::specs::Splices::spliced))]
fn respelled(slip: &SpellingSlip, word: &Text) -> Text
    ensures { result ≡ text_or (spliced (wrong_place slip.now) (wrong_symbols slip.now) (right_symbols slip.now) word.now) word.now }
{
    let place = wrong_place(slip);
    let many = wrong_symbols(slip);
    let all = word.as_slice();
    if place > all.len() || many > all.len() - place {
        return word.copy();
    }
    let right = right_symbols(slip, &all[place..place + many]);
    text_or(&spliced(all, place, many, &right), word)
}

/// The right text.
pub(crate) fn right_word(slip: &SpellingSlip, word: &Text) -> Text
    ensures { result ≡ right_word slip.now word.now }
{
    match slip {
        SpellingSlip::Laid(laid) => laid.copy(),
        _ => respelled(slip, word),
    }
}
