//! The words of a slip: what should be on a line, and what is there.

use crate::missing::push_missing;
use crate::names::nick;
use crate::plays::{have_one_position, have_one_word};
use crate::words::{push_kind, push_position, push_word};
use explain_parts::{Part, say};
use gcg_read::{Event, EventKind, Players};
use ref_board::{Dir, Square};
use ref_tiles::{Kind, Symbol};
use repair_changes::{Misread, Slip, SpellingSlip, TilesOf};
use std::alloc::AllocError;

/// Appends the words between what should be there and what is.
fn push_not(text: &mut Vec<u8>) -> Result<(), AllocError> {
    text.extend_from_slice(b", not ")
}

/// Appends that a play has another position.
fn push_moved(text: &mut Vec<u8>, right: &Event, written: &Event) -> Result<(), AllocError> {
    push_kind(text, &right.kind)?;
    text.extend_from_slice(b", not at ")?;
    match &written.kind {
        EventKind::Play { at, dir, .. } => push_position(text, *at, *dir),
        _ => Ok(()),
    }
}

/// Appends that a play has another text.
fn push_spelled(text: &mut Vec<u8>, right: &Event, written: &Event) -> Result<(), AllocError> {
    push_kind(text, &right.kind)?;
    push_not(text)?;
    match &written.kind {
        EventKind::Play { word, .. } => push_word(text, word.as_slice()),
        _ => Ok(()),
    }
}

/// The square of the symbol at a place of a play.
fn square_of(at: Square, dir: Dir, place: usize) -> Option<Square> {
    match dir {
        Dir::Across => Square::new(at.row(), at.column().saturating_add(place)),
        Dir::Down => Square::new(at.row().saturating_add(place), at.column()),
    }
}

/// Appends which tile of a play is a blank, or is none.
fn push_blank(
    text: &mut Vec<u8>,
    right: &Event,
    place: usize,
    symbol: Symbol,
) -> Result<(), AllocError> {
    let EventKind::Play { at, dir, .. } = &right.kind else {
        return Ok(());
    };
    let Some(square) = square_of(*at, *dir, place) else {
        return Ok(());
    };
    let byte = symbol.byte();
    let is_blank = byte.is_ascii_lowercase();
    say(
        text,
        &[
            Part::Say(": the "),
            Part::Letter(byte.to_ascii_uppercase()),
            Part::Say(" on "),
            Part::At(square),
            Part::Say(if is_blank {
                " is a blank"
            } else {
                " is not a blank"
            }),
        ],
    )
}

/// Appends that a play has another text, and if a blank is a letter there, or a letter a blank, which one.
fn push_text(
    text: &mut Vec<u8>,
    slip: &SpellingSlip,
    right: &Event,
    written: &Event,
) -> Result<(), AllocError> {
    push_spelled(text, right, written)?;
    match slip {
        SpellingSlip::OtherTile {
            place,
            right: symbol,
        } => push_blank(text, right, *place, *symbol),
        _ => Ok(()),
    }
}

/// Appends what is written in place of what should have happened: only the tiles, or how many they are, if the same was done with other ones.
fn push_instead(
    text: &mut Vec<u8>,
    right: &EventKind,
    written: &EventKind,
) -> Result<(), AllocError> {
    match (right, written) {
        (EventKind::Exchange(_), EventKind::Exchange(tiles)) => say(text, &[Part::Tiles(tiles)]),
        (EventKind::LastRack(_), EventKind::LastRack(tiles)) => say(text, &[Part::Tiles(tiles)]),
        (EventKind::ExchangeUnknown(_), EventKind::ExchangeUnknown(number)) => {
            say(text, &[Part::Many(*number as usize)])
        }
        _ => push_kind(text, written),
    }
}

/// Appends that something else happened.
fn push_other(text: &mut Vec<u8>, right: &Event, written: &Event) -> Result<(), AllocError> {
    push_kind(text, &right.kind)?;
    push_not(text)?;
    push_instead(text, &right.kind, &written.kind)
}

/// Appends that a play is another one: its position, its text or both.
fn push_replayed(text: &mut Vec<u8>, right: &Event, written: &Event) -> Result<(), AllocError> {
    if have_one_position(&right.kind, &written.kind) {
        return push_spelled(text, right, written);
    }
    if have_one_word(&right.kind, &written.kind) {
        return push_moved(text, right, written);
    }
    push_other(text, right, written)
}

/// Appends the rack of an event.
fn push_rack(text: &mut Vec<u8>, event: &Event) -> Result<(), AllocError> {
    match &event.rack {
        Some(tiles) => say(text, &[Part::Tiles(tiles)]),
        None => text.extend_from_slice(b"another one"),
    }
}

/// Appends that the rack is another one.
fn push_racks(text: &mut Vec<u8>, right: &Event, written: &Event) -> Result<(), AllocError> {
    text.extend_from_slice(b"the rack is ")?;
    push_rack(text, right)?;
    push_not(text)?;
    push_rack(text, written)
}

/// Appends that tiles are others.
fn push_tiles(
    text: &mut Vec<u8>,
    of: TilesOf,
    right: &Event,
    written: &Event,
) -> Result<(), AllocError> {
    match of {
        TilesOf::Rack => push_racks(text, right, written),
        TilesOf::Exchange | TilesOf::LastRack => push_other(text, right, written),
    }
}

/// Appends that a tile on the rack is another one too.
fn push_on_rack(text: &mut Vec<u8>, written: u8, right: u8) -> Result<(), AllocError> {
    say(
        text,
        &[
            Part::Say(": the "),
            Part::Letter(written),
            Part::Say(" on the rack is "),
            Part::Letter(right),
            Part::Say(" too"),
        ],
    )
}

/// Appends that a tile is misread twice: what was played or exchanged, and the tile on the rack.
fn push_misread(
    text: &mut Vec<u8>,
    slip: &Misread,
    right: &Event,
    written: &Event,
) -> Result<(), AllocError> {
    match slip {
        Misread::Played {
            tile,
            right: one,
            ..
        } => {
            push_spelled(text, right, written)?;
            push_on_rack(text, Kind::Letter(*tile).byte(), Kind::Letter(*one).byte())
        }
        Misread::Exchanged { tile, right: one } => {
            push_other(text, right, written)?;
            push_on_rack(text, tile.byte(), one.byte())
        }
    }
}

/// Appends that a bonus or a penalty is another one.
fn push_amount(text: &mut Vec<u8>, right: &Event, written: &Event) -> Result<(), AllocError> {
    push_kind(text, &right.kind)?;
    say(
        text,
        &[
            Part::Say(", "),
            Part::Points(right.score.value()),
            Part::Say(", not "),
            Part::Points(written.score.value()),
        ],
    )
}

/// Appends whose line it should be, and whose it is.
fn push_player(
    text: &mut Vec<u8>,
    players: &Players,
    right: &Event,
    written: &Event,
) -> Result<(), AllocError> {
    say(
        text,
        &[
            Part::Raw(nick(players, right.player)),
            Part::Say("'s line, not "),
            Part::Raw(nick(players, written.player)),
            Part::Say("'s"),
        ],
    )
}

/// Appends the words of a slip that changes one line.
fn push_changed(
    text: &mut Vec<u8>,
    players: &Players,
    slip: &Slip,
    right: &Event,
    written: &Event,
) -> Result<(), AllocError> {
    match slip {
        Slip::Position(_) => push_moved(text, right, written),
        Slip::Spelling(slip) => push_text(text, slip, right, written),
        Slip::Replayed(_) => push_replayed(text, right, written),
        Slip::Tile { of, .. } => push_tiles(text, *of, right, written),
        Slip::Misread(slip) => push_misread(text, slip, right, written),
        Slip::NoRack => push_racks(text, right, written),
        Slip::Number(_) | Slip::Code(_) | Slip::Rest(_) => push_other(text, right, written),
        Slip::Amount(_) => push_amount(text, right, written),
        Slip::OtherPlayer => push_player(text, players, right, written),
        _ => Ok(()),
    }
}

/// Appends the words of a slip, given the event as it should be and the event as it is written.
pub(crate) fn push_slip(
    text: &mut Vec<u8>,
    players: &Players,
    slip: &Slip,
    right: Option<&Event>,
    written: Option<&Event>,
) -> Result<(), AllocError> {
    match slip {
        Slip::Repeated => {
            text.extend_from_slice(b"it repeats the line before it and should not be there")
        }
        Slip::ExtraPass | Slip::Extra => text.extend_from_slice(b"it should not be there"),
        Slip::Swapped => text.extend_from_slice(b"it belongs after the next line"),
        Slip::SwappedOver => {
            text.extend_from_slice(b"it should change places with the line after the next one")
        }
        Slip::Missing(line) => push_missing(text, players, line),
        _ => match (right, written) {
            (Some(right), Some(written)) => push_changed(text, players, slip, right, written),
            _ => Ok(()),
        },
    }
}
