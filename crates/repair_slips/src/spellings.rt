//! What may be wrong with the text of a play.
ghost use Rattle.std.specs.Prelude.{◌≡◌, ◌++◌, ◌<◌, length, OnOk};
ghost use Rattle.repair_slips.specs.Each.{lists_below, for_letter, for_letters};
ghost use Rattle.repair_slips.specs.Spellings.{letter_for_dot, relettered, other_letter, slips_of_tile, symbol_slips, slips_at_symbol, other_symbols, extra_symbol, extra_symbols, missing_letter, missing_symbol, missing_symbols, twisted_pair, twisted_at, twisted_symbols, spelling_slips};

use crate::adding::add;
use ref_tiles::{Letter, SIDE, Symbol};
use repair_changes::{Slip, SpellingSlip};
use std::alloc::AllocError;

/// Adds the letter with a number in place of a dot.
fn push_letter_for_dot(slips: &mut Vec<Slip>, place: usize, number: u8) -> Result<(), AllocError>
    ensures { OnOk result (slips.new.items ≡ slips.old.items ++ for_letter (letter_for_dot place) number) }
{
    match Letter::new(number) {
        Some(right) => add(slips, Slip::Spelling(SpellingSlip::Letter { place, right })),
        None => Ok(()),
    }
}

/// Adds each letter in place of a dot.
fn push_letters_for_dot(slips: &mut Vec<Slip>, place: usize) -> Result<(), AllocError>
    ensures { OnOk result (slips.new.items ≡ slips.old.items ++ for_letters (letter_for_dot place)) }
{
    for number in 0..26 {
        push_letter_for_dot(slips, place, number)?;
    }
    Ok(())
}

/// A tile of the same kind that shows another letter.
fn relettered(written: Symbol, right: Letter) -> Symbol
    ensures { result ≡ relettered written right }
{
    match written {
        Symbol::Dot => Symbol::Dot,
        Symbol::Letter(_) => Symbol::Letter(right),
        Symbol::Blank(_) => Symbol::Blank(right),
    }
}

/// Adds a letter in place of another one.
fn push_relettered(
    slips: &mut Vec<Slip>,
    place: usize,
    written: Symbol,
    right: Letter,
) -> Result<(), AllocError>
    ensures { OnOk result (slips.new.items ≡ slips.old.items ++ other_letter place written right) }
{
    let right = relettered(written, right);
    if right.byte() == written.byte() {
        return Ok(());
    }
    add(
        slips,
        Slip::Spelling(SpellingSlip::OtherLetter { place, right }),
    )
}

/// Adds the letter with a number in place of another one.
fn push_other_letter(
    slips: &mut Vec<Slip>,
    place: usize,
    written: Symbol,
    number: u8,
) -> Result<(), AllocError>
    ensures { OnOk result (slips.new.items ≡ slips.old.items ++ for_letter (other_letter place written) number) }
{
    match Letter::new(number) {
        Some(right) => push_relettered(slips, place, written, right),
        None => Ok(()),
    }
}

/// Adds each other letter in place of one.
fn push_other_letters(
    slips: &mut Vec<Slip>,
    place: usize,
    written: Symbol,
) -> Result<(), AllocError>
    ensures { OnOk result (slips.new.items ≡ slips.old.items ++ for_letters (other_letter place written)) }
{
    for number in 0..26 {
        push_other_letter(slips, place, written, number)?;
    }
    Ok(())
}

/// Adds what a tile may have been: this one with the same letter, a dot, or one with another letter.
fn push_tile(
    slips: &mut Vec<Slip>,
    place: usize,
    written: Symbol,
    same: Symbol,
) -> Result<(), AllocError>
    ensures { OnOk result (slips.new.items ≡ slips.old.items ++ slips_of_tile place written same) }
{
    add(
        slips,
        Slip::Spelling(SpellingSlip::OtherTile { place, right: same }),
    )?;
    add(slips, Slip::Spelling(SpellingSlip::Dot { place }))?;
    push_other_letters(slips, place, written)
}

/// Adds what a symbol may have been.
#[tactic(auto, unfolding(crate::specs::Spellings::symbol_slips))]
fn push_symbol(slips: &mut Vec<Slip>, place: usize, written: Symbol) -> Result<(), AllocError>
    ensures { OnOk result (slips.new.items ≡ slips.old.items ++ symbol_slips place written) }
{
    match written {
        Symbol::Dot => push_letters_for_dot(slips, place),
        Symbol::Letter(letter) => push_tile(slips, place, written, Symbol::Blank(letter)),
        Symbol::Blank(letter) => push_tile(slips, place, written, Symbol::Letter(letter)),
    }
}

/// Adds what the symbol at a place may have been.
#[tactic(auto, using(crate::proofs::Places::of_symbol))]
fn push_symbol_at(slips: &mut Vec<Slip>, word: &[Symbol], place: usize) -> Result<(), AllocError>
    requires { place < length word.now }
    ensures { OnOk result (slips.new.items ≡ slips.old.items ++ slips_at_symbol word.now place) }
{
    push_symbol(slips, place, word[place])
}

/// Adds what each symbol may have been.
#[tactic(auto, unfolding(crate::specs::Spellings::other_symbols))]
fn push_other_symbols(slips: &mut Vec<Slip>, word: &[Symbol]) -> Result<(), AllocError>
    ensures { OnOk result (slips.new.items ≡ slips.old.items ++ other_symbols word.now) }
{
    for place in 0..word.len() {
        push_symbol_at(slips, word, place)?;
    }
    Ok(())
}

/// Adds that a symbol should not be there, for each of the first `many` symbols.
fn push_each_extra(slips: &mut Vec<Slip>, many: usize) -> Result<(), AllocError>
    ensures { OnOk result (slips.new.items ≡ slips.old.items ++ lists_below extra_symbol many) }
{
    for place in 0..many {
        add(slips, Slip::Spelling(SpellingSlip::Extra { place }))?;
    }
    Ok(())
}

/// Adds that a symbol should not be there, for each symbol unless it is the only one.
#[tactic(auto, unfolding(crate::specs::Spellings::extra_symbols))]
fn push_extra_symbols(slips: &mut Vec<Slip>, word: &[Symbol]) -> Result<(), AllocError>
    ensures { OnOk result (slips.new.items ≡ slips.old.items ++ extra_symbols word.now) }
{
    if word.len() > 1 {
        push_each_extra(slips, word.len())
    } else {
        Ok(())
    }
}

/// Adds that the letter with a number is missing before a place.
fn push_missing_letter(slips: &mut Vec<Slip>, place: usize, number: u8) -> Result<(), AllocError>
    ensures { OnOk result (slips.new.items ≡ slips.old.items ++ for_letter (missing_letter place) number) }
{
    match Letter::new(number) {
        Some(right) => add(
            slips,
            Slip::Spelling(SpellingSlip::MissingLetter { place, right }),
        ),
        None => Ok(()),
    }
}

/// Adds that a letter is missing before a place, for each letter.
fn push_missing_letters(slips: &mut Vec<Slip>, place: usize) -> Result<(), AllocError>
    ensures { OnOk result (slips.new.items ≡ slips.old.items ++ for_letters (missing_letter place)) }
{
    for number in 0..26 {
        push_missing_letter(slips, place, number)?;
    }
    Ok(())
}

/// Adds that a dot or a letter is missing before a place.
fn push_missing_symbol(slips: &mut Vec<Slip>, place: usize) -> Result<(), AllocError>
    ensures { OnOk result (slips.new.items ≡ slips.old.items ++ missing_symbol place) }
{
    add(slips, Slip::Spelling(SpellingSlip::MissingDot { place }))?;
    push_missing_letters(slips, place)
}

/// Adds the same for each place below an end.
fn push_each_missing(slips: &mut Vec<Slip>, end: usize) -> Result<(), AllocError>
    ensures { OnOk result (slips.new.items ≡ slips.old.items ++ lists_below missing_symbol end) }
{
    for place in 0..end {
        push_missing_symbol(slips, place)?;
    }
    Ok(())
}

/// Adds that a symbol is missing, for each place of a text that may have one more.
#[tactic(auto, unfolding(crate::specs::Spellings::missing_symbols))]
fn push_missing_symbols(slips: &mut Vec<Slip>, word: &[Symbol]) -> Result<(), AllocError>
    ensures { OnOk result (slips.new.items ≡ slips.old.items ++ missing_symbols word.now) }
{
    if word.len() < SIDE {
        push_each_missing(slips, word.len() + 1)
    } else {
        Ok(())
    }
}

/// Adds that a symbol and the next one are in each other's place, if they differ.
#[tactic(auto, unfolding(crate::specs::Spellings::twisted_pair))]
fn push_two(
    slips: &mut Vec<Slip>,
    place: usize,
    first: Symbol,
    second: Symbol,
) -> Result<(), AllocError>
    ensures { OnOk result (slips.new.items ≡ slips.old.items ++ twisted_pair place first second) }
{
    if first.byte() == second.byte() {
        return Ok(());
    }
    add(slips, Slip::Spelling(SpellingSlip::Twisted { place }))
}

/// Adds that the symbol at a place and the next one are in each other's place.
#[tactic(auto, using(crate::proofs::Places::of_two, crate::proofs::Places::of_last))]
fn push_twisted_at(slips: &mut Vec<Slip>, word: &[Symbol], place: usize) -> Result<(), AllocError>
    requires { place < length word.now }
    ensures { OnOk result (slips.new.items ≡ slips.old.items ++ twisted_at word.now place) }
{
    if word.len() - place > 1 {
        push_two(slips, place, word[place], word[place + 1])
    } else {
        Ok(())
    }
}

/// Adds that two neighbours are in each other's place, for each pair.
#[tactic(auto, unfolding(crate::specs::Spellings::twisted_symbols))]
fn push_twisted(slips: &mut Vec<Slip>, word: &[Symbol]) -> Result<(), AllocError>
    ensures { OnOk result (slips.new.items ≡ slips.old.items ++ twisted_symbols word.now) }
{
    for place in 0..word.len() {
        push_twisted_at(slips, word, place)?;
    }
    Ok(())
}

/// Adds all that may be wrong with the text of a play, whatever lies on the board.
#[tactic(auto, unfolding(crate::specs::Spellings::spelling_slips))]
pub(crate) fn push_spellings(slips: &mut Vec<Slip>, word: &[Symbol]) -> Result<(), AllocError>
    ensures { OnOk result (slips.new.items ≡ slips.old.items ++ spelling_slips word.now) }
{
    push_other_symbols(slips, word)?;
    push_extra_symbols(slips, word)?;
    push_missing_symbols(slips, word)?;
    push_twisted(slips, word)
}
