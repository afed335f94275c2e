//! What may be wrong with the line for which a text is not a record.
ghost use Rattle.std.specs.Prelude.{◌≡◌, ◌++◌, ◌<◌, not, IfOk, OnOk};
ghost use Rattle.std.specs.List.{list_all, slice_split};
ghost use Rattle.text_lines.specs.Lines.{is_feed};
ghost use Rattle.repair_sheets.specs.BadListing.{is_of_event, may_be_note, note_slips, place_slips, line_slips, line_at, bad_slips};

use crate::slips::SheetSlip;
use gcg_numbers::{cut_raw_line, is_event_line};
use ref_board::{Dir, SIDE, Square};
use ref_tiles::SQUARES;
use std::alloc::{AllocError, Global};
use text_lines::without_mark;

/// The most bytes of a text of which slips are tried.
const MOST_TRIED: usize = 262_144;

/// Whether a byte is a digit, `-` or `(`.
fn is_of_event(byte: u8) -> bool
    ensures { result ≡ is_of_event byte }
{
    byte.is_ascii_digit() || byte == b'-' || byte == b'('
}

/// Whether a line has no such byte.
fn is_plain(line: &[u8]) -> bool
    ensures { result ≡ list_all (λ byte. not (is_of_event byte)) line.now }
{
    line.iter().all(|byte| !is_of_event(*byte))
}

/// Whether a line that begins with `>` may be a note, or begins with two.
fn may_be_note(line: &[u8]) -> bool
    ensures { result ≡ may_be_note line.now }
{
    is_plain(line) || line.starts_with(b">>")
}

/// Adds that a line begins with a `>` that should not be there, if that may be so.
fn push_note(slips: &mut Vec<SheetSlip>, number: u32, line: &[u8]) -> Result<(), AllocError>
    ensures { OnOk result (slips.new.items ≡ slips.old.items ++ note_slips number line.now) }
{
    if may_be_note(line) {
        slips.push(SheetSlip::ExtraMark { number })?;
    }
    Ok(())
}

/// The square with this number.
fn square_with(square: usize) -> Square
    requires { square < 225 }
    ensures { result ≡ square }
{
    Square::on_line(Dir::Across, square / SIDE, square % SIDE)
}

/// Adds that the place of the play of a line is not written, for each square as its place in a direction.
#[tactic(auto, using(crate::proofs::Listed::square_more), unfolding(crate::specs::BadListing::place_slips))]
fn push_places(slips: &mut Vec<SheetSlip>, number: u32, dir: Dir) -> Result<(), AllocError>
    ensures { OnOk result (slips.new.items ≡ slips.old.items ++ place_slips number dir) }
{
    for square in 0..SQUARES {
        let at = square_with(square);
        slips.push(SheetSlip::NoPlace { number, at, dir })?;
    }
    Ok(())
}

/// The slips of a line.
fn line_slips(alloc: Global, number: u32, line: &[u8]) -> Result<Vec<SheetSlip>, AllocError>
    ensures { IfOk result (λ slips. slips.items ≡ line_slips number line.now) }
{
    let mut slips = Vec::new(alloc);
    if is_event_line(line) {
        push_note(&mut slips, number, line)?;
        push_places(&mut slips, number, Dir::Across)?;
        push_places(&mut slips, number, Dir::Down)?;
    }
    Ok(slips)
}

/// The line of a text with a number, counted from 1; nothing if there is none.
fn line_at(number: u32, text: &[u8]) -> &[u8]
    ensures { result.now ≡ line_at number (slice_split is_feed text.now) }
{
    let mut number = number;
    let mut cut = cut_raw_line(text);
    while number != 1 {
        let Some(after) = cut.after else {
            return &[];
        };
        number = number.saturating_sub(1);
        cut = cut_raw_line(after);
    }
    cut.line
}

/// What may be wrong with the line of a text that has this number, and for which it is not a record: its first `>` should not be there, or the place of
/// its play is not written, which is each square, across or down. Nothing is tried of a text of more than 256 KiB.
///
/// It fails only if memory runs out.
#[tactic(auto, unfolding(crate::specs::BadListing::bad_slips))]
pub fn bad_slips(alloc: Global, text: &[u8], number: u32) -> Result<Vec<SheetSlip>, AllocError>
    ensures { IfOk result (λ slips. slips.items ≡ bad_slips text.now number) }
{
    if text.len() > MOST_TRIED {
        return Ok(Vec::new(alloc));
    }
    line_slips(alloc, number, line_at(number, without_mark(text)))
}
