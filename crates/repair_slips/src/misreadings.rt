//! One tile that is misread twice on a line: on the stated rack, and in the word of the play or among the exchanged tiles.
ghost use Rattle.std.specs.Prelude.{◌≡◌, ◌++◌, ◌<◌, length, Some, OnOk};
ghost use Rattle.repair_slips.specs.Each.{for_letter, for_letters, for_kind, for_kinds};
ghost use Rattle.repair_slips.specs.Misreadings.{misread_letter, misread_letters, misread_symbol, misread_at, misread_word, misread_tile, misread_tiles, misread_exchange, misread_with, misread_slips};

use crate::adding::add;
use crate::tiles::has;
use gcg_read::{Event, EventKind};
use ref_tiles::{Counts, KINDS, Kind, Letter, Symbol};
use repair_changes::{Misread, Slip};
use std::alloc::AllocError;

/// Adds another letter in place of one, on the rack and at a place of the word.
fn push_letter(
    slips: &mut Vec<Slip>,
    place: usize,
    tile: Letter,
    right: Letter,
) -> Result<(), AllocError>
    ensures { OnOk result (slips.new.items ≡ slips.old.items ++ misread_letter place tile right) }
{
    if right.index == tile.index {
        return Ok(());
    }
    add(slips, Slip::Misread(Misread::Played { place, tile, right }))
}

/// Adds the letter with a number in place of another one.
fn push_letter_at(
    slips: &mut Vec<Slip>,
    place: usize,
    tile: Letter,
    number: u8,
) -> Result<(), AllocError>
    ensures { OnOk result (slips.new.items ≡ slips.old.items ++ for_letter (misread_letter place tile) number) }
{
    match Letter::new(number) {
        Some(right) => push_letter(slips, place, tile, right),
        None => Ok(()),
    }
}

/// Adds each other letter in place of one.
fn push_each_letter(slips: &mut Vec<Slip>, place: usize, tile: Letter) -> Result<(), AllocError>
    ensures { OnOk result (slips.new.items ≡ slips.old.items ++ for_letters (misread_letter place tile)) }
{
    for number in 0..26 {
        push_letter_at(slips, place, tile, number)?;
    }
    Ok(())
}

/// Adds each other letter in place of one, if the rack has that.
fn push_letters(
    slips: &mut Vec<Slip>,
    rack: &Counts,
    place: usize,
    tile: Letter,
) -> Result<(), AllocError>
    ensures { OnOk result (slips.new.items ≡ slips.old.items ++ misread_letters rack.now place tile) }
{
    if has(rack, Kind::Letter(tile)) {
        push_each_letter(slips, place, tile)
    } else {
        Ok(())
    }
}

/// Adds what a symbol may have been, if it is a letter.
fn push_symbol(
    slips: &mut Vec<Slip>,
    rack: &Counts,
    place: usize,
    symbol: Symbol,
) -> Result<(), AllocError>
    ensures { OnOk result (slips.new.items ≡ slips.old.items ++ misread_symbol rack.now place (Some symbol)) }
{
    match symbol {
        Symbol::Letter(tile) => push_letters(slips, rack, place, tile),
        Symbol::Dot | Symbol::Blank(_) => Ok(()),
    }
}

/// Adds what the letter at a place of the word may have been.
#[tactic(auto, using(crate::proofs::Places::of_misread))]
fn push_at(
    slips: &mut Vec<Slip>,
    rack: &Counts,
    word: &[Symbol],
    place: usize,
) -> Result<(), AllocError>
    requires { place < length word.now }
    ensures { OnOk result (slips.new.items ≡ slips.old.items ++ misread_at rack.now word.now place) }
{
    push_symbol(slips, rack, place, word[place])
}

/// Adds what each letter of the word may have been.
#[tactic(auto, unfolding(crate::specs::Misreadings::misread_word))]
fn push_word(slips: &mut Vec<Slip>, rack: &Counts, word: &[Symbol]) -> Result<(), AllocError>
    ensures { OnOk result (slips.new.items ≡ slips.old.items ++ misread_word rack.now word.now) }
{
    for place in 0..word.len() {
        push_at(slips, rack, word, place)?;
    }
    Ok(())
}

/// Adds the tile with a number in place of another one.
fn push_tile(slips: &mut Vec<Slip>, tile: Kind, number: usize) -> Result<(), AllocError>
    requires { number < 27 }
    ensures { OnOk result (slips.new.items ≡ slips.old.items ++ for_kind (misread_tile tile) number) }
{
    let right = Kind::at(number);
    if right.number() == tile.number() {
        return Ok(());
    }
    add(slips, Slip::Misread(Misread::Exchanged { tile, right }))
}

/// Adds each other tile in place of one.
fn push_each_tile(slips: &mut Vec<Slip>, tile: Kind) -> Result<(), AllocError>
    ensures { OnOk result (slips.new.items ≡ slips.old.items ++ for_kinds (misread_tile tile)) }
{
    for number in 0..KINDS {
        push_tile(slips, tile, number)?;
    }
    Ok(())
}

/// Adds each other tile in place of the one with a number, if that is on the rack and is exchanged.
fn push_tiles(
    slips: &mut Vec<Slip>,
    rack: &Counts,
    exchanged: &Counts,
    number: usize,
) -> Result<(), AllocError>
    requires { number < 27 }
    ensures { OnOk result (slips.new.items ≡ slips.old.items ++ for_kind (misread_tiles rack.now exchanged.now) number) }
{
    let tile = Kind::at(number);
    if has(rack, tile) && has(exchanged, tile) {
        push_each_tile(slips, tile)
    } else {
        Ok(())
    }
}

/// Adds what each exchanged tile may have been.
#[tactic(auto, unfolding(crate::specs::Misreadings::misread_exchange))]
fn push_exchange(slips: &mut Vec<Slip>, rack: &Counts, exchanged: &Counts) -> Result<(), AllocError>
    ensures { OnOk result (slips.new.items ≡ slips.old.items ++ misread_exchange rack.now exchanged.now) }
{
    for number in 0..KINDS {
        push_tiles(slips, rack, exchanged, number)?;
    }
    Ok(())
}

/// Adds what may be misread on a rack and in what was done with it.
fn push_with(slips: &mut Vec<Slip>, rack: &Counts, kind: &EventKind) -> Result<(), AllocError>
    ensures { OnOk result (slips.new.items ≡ slips.old.items ++ misread_with rack.now kind.now) }
{
    match kind {
        EventKind::Play { word, .. } => push_word(slips, rack, word.as_slice()),
        EventKind::Exchange(exchanged) => push_exchange(slips, rack, exchanged),
        _ => Ok(()),
    }
}

/// Adds what may be misread twice on the line of an event, if it states the rack of a play or of an exchange.
pub(crate) fn push_misreadings(slips: &mut Vec<Slip>, event: &Event) -> Result<(), AllocError>
    ensures { OnOk result (slips.new.items ≡ slips.old.items ++ misread_slips event.now) }
{
    match &event.rack {
        Some(rack) => push_with(slips, rack, &event.kind),
        None => Ok(()),
    }
}
