//! The fields of an event line: tiles, positions, words, points.
ghost use Rattle.std.specs.Prelude.{◌≡◌, ◌++◌, ◌∷◌, OnOk, replicate};
ghost use Rattle.std.specs.Fmt.{signed_decimal};
ghost use Rattle.gcg_write.specs.Fields.{letters_text, tiles_text, position_text, word_text, play_text, score_text, points_text};
ghost use Rattle.text_lines.specs.Fronts.{IsFront};

use gcg_read::Points;
use ref_board::{Dir, Square};
use ref_tiles::{Counts, Kind, Letter, Symbol};
use std::alloc::AllocError;
use text_decimals::push_number;

/// Appends a byte the given number of times.
fn push_times(byte: u8, times: u8, out: &mut Vec<u8>) -> Result<(), AllocError>
    ensures done { OnOk result (out.new.items ≡ out.old.items ++ replicate times byte) }
    ensures kept { IsFront out.old.items out.new.items }
{
    for _ in 0..times {
        out.push(byte)?;
    }
    Ok(())
}

/// Appends the letter tiles, A to Z.
fn push_letters(tiles: &Counts, out: &mut Vec<u8>) -> Result<(), AllocError>
    ensures done { OnOk result (out.new.items ≡ out.old.items ++ letters_text tiles.now) }
    ensures kept { IsFront out.old.items out.new.items }
{
    for index in 0..26 {
        let letter = Letter { index };
        push_times(letter.capital(), tiles.count(Kind::Letter(letter)), out)?;
    }
    Ok(())
}

/// Appends tiles, A to Z and then `?` for each blank.
pub fn push_tiles(tiles: &Counts, out: &mut Vec<u8>) -> Result<(), AllocError>
    ensures done { OnOk result (out.new.items ≡ out.old.items ++ tiles_text tiles.now) }
    ensures kept { IsFront out.old.items out.new.items }
{
    push_letters(tiles, out)?;
    push_times(Kind::Blank.byte(), tiles.count(Kind::Blank), out)
}

/// Appends the position at which a play begins: row and column for one across, column and row for one down.
fn push_position(at: Square, dir: Dir, out: &mut Vec<u8>) -> Result<(), AllocError>
    ensures done { OnOk result (out.new.items ≡ out.old.items ++ position_text at dir) }
    ensures kept { IsFront out.old.items out.new.items }
{
    let row = at.row() + 1;
    let column = b'A' + at.column() as u8;
    match dir {
        Dir::Across => {
            push_number(out, row)?;
            out.push(column)?;
        }
        Dir::Down => {
            out.push(column)?;
            push_number(out, row)?;
        }
    }
    Ok(())
}

/// Appends the text of a play.
fn push_word(word: &[Symbol], out: &mut Vec<u8>) -> Result<(), AllocError>
    ensures done { OnOk result (out.new.items ≡ out.old.items ++ word_text word.now) }
    ensures kept { IsFront out.old.items out.new.items }
{
    for symbol in word {
        out.push(symbol.byte())?;
    }
    Ok(())
}

/// Appends the position at which a play begins, and its text.
pub fn push_play(at: Square, dir: Dir, word: &[Symbol], out: &mut Vec<u8>) -> Result<(), AllocError>
    ensures done { OnOk result (out.new.items ≡ out.old.items ++ play_text at dir word.now) }
    ensures kept { IsFront out.old.items out.new.items }
{
    push_position(at, dir, out)?;
    out.push(b' ')?;
    push_word(word, out)
}

/// Appends a number with its sign, even if it is 0 or above.
pub fn push_signed(points: Points, out: &mut Vec<u8>) -> Result<(), AllocError>
    ensures done { OnOk result (out.new.items ≡ out.old.items ++ score_text points) }
    ensures kept { IsFront out.old.items out.new.items }
{
    let value = points.value();
    if value >= 0 {
        out.push(b'+')?;
    }
    push_number(out, value)
}

/// Appends a score and a total.
pub fn push_points(score: Points, total: Points, out: &mut Vec<u8>) -> Result<(), AllocError>
    ensures done { OnOk result (out.new.items ≡ out.old.items ++ points_text score total) }
    ensures kept { IsFront out.old.items out.new.items }
{
    push_signed(score, out)?;
    out.push(b' ')?;
    push_number(out, total.value())
}
