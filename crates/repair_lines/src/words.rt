//! The words for what should be on a line, and for what is there.

use explain_parts::{Part, say};
use gcg_read::EventKind;
use ref_board::{Dir, Square};
use ref_tiles::Symbol;
use std::alloc::AllocError;

/// Appends the position of a play as records write it: row and column if it goes across, column and row if it goes down.
pub(crate) fn push_position(text: &mut Vec<u8>, at: Square, dir: Dir) -> Result<(), AllocError> {
    match dir {
        Dir::Across => say(text, &[Part::At(at)]),
        Dir::Down => say(
            text,
            &[
                Part::Letter(b'A' + at.column() as u8),
                Part::Many(at.row() + 1),
            ],
        ),
    }
}

/// Appends the text of a play.
pub(crate) fn push_word(text: &mut Vec<u8>, word: &[Symbol]) -> Result<(), AllocError> {
    for symbol in word {
        text.push(symbol.byte())?;
    }
    Ok(())
}

/// Appends what happened.
pub(crate) fn push_kind(text: &mut Vec<u8>, kind: &EventKind) -> Result<(), AllocError> {
    match kind {
        EventKind::Play { at, dir, word } => push_play(text, *at, *dir, word.as_slice()),
        EventKind::Pass => say(text, &[Part::Say("a pass")]),
        EventKind::Exchange(tiles) => {
            say(text, &[Part::Say("an exchange of "), Part::Tiles(tiles)])
        }
        EventKind::ExchangeUnknown(number) => {
            let many = *number as usize;
            say(
                text,
                &[Part::Say("an exchange of "), Part::Things(many, "tile")],
            )
        }
        EventKind::Withdraw => say(text, &[Part::Say("a play that is taken back")]),
        EventKind::Challenge => say(text, &[Part::Say("a bonus for a challenge")]),
        EventKind::Time => say(text, &[Part::Say("a penalty for time")]),
        EventKind::LastRack(tiles) => {
            say(text, &[Part::Say("the last rack "), Part::Tiles(tiles)])
        }
    }
}

/// Appends a play: its text and where it begins.
pub(crate) fn push_play(
    text: &mut Vec<u8>,
    at: Square,
    dir: Dir,
    word: &[Symbol],
) -> Result<(), AllocError> {
    push_word(text, word)?;
    text.extend_from_slice(b" at ")?;
    push_position(text, at, dir)
}
