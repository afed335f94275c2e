//! Lines as they are written on a sheet.

use compare_alignments::{Pair, Side};
use compare_choices::Sheets;
use draft_numbers::push_event_text;
use explain_parts::say;
use gcg_drafts::Missing;
use gcg_read::{Event, Record, same_seat};
use std::alloc::AllocError;

/// The event at a place, if there is a place.
pub(crate) fn event_at(record: &Record, place: Option<usize>) -> Option<&Event> {
    match place {
        Some(place) => record.events.as_slice().get(place),
        None => None,
    }
}

/// Appends the number of a line, if there is a line.
fn push_line_number(text: &mut Vec<u8>, event: Option<&Event>) -> Result<(), AllocError> {
    match event {
        Some(event) => say!(text; "line ", event.line),
        None => say!(text; "no line"),
    }
}

/// Appends the numbers of the lines of a pair.
pub(crate) fn push_numbers(
    text: &mut Vec<u8>,
    sheets: &Sheets,
    pair: &Pair,
) -> Result<(), AllocError> {
    push_line_number(text, event_at(&sheets.first, pair.first))?;
    say!(text; " | ")?;
    push_line_number(text, event_at(&sheets.second, pair.second))
}

/// Appends what a line says after its rack, without the numbers that it lacks, and with its player if `named` says so.
fn push_after_rack(
    text: &mut Vec<u8>,
    record: &Record,
    place: Option<usize>,
    missing: Missing,
    named: bool,
) -> Result<(), AllocError> {
    let Some(place) = place else {
        return say!(text; "nothing");
    };
    if place >= record.events.len() {
        return Ok(());
    }
    if named {
        let player = record.events.as_slice()[place].player;
        say!(text; record.players.of(player).nick.as_bytes(), ": ")?;
    }
    push_event_text(text, record, place, missing)
}

/// Whether the lines of a pair are of different players.
fn differ_in_player(sheets: &Sheets, pair: &Pair) -> bool {
    let first = event_at(&sheets.first, pair.first);
    let second = event_at(&sheets.second, pair.second);
    match (first, second) {
        (Some(event), Some(other)) => !same_seat(event.player, other.player),
        _ => true,
    }
}

/// Appends the lines of a pair.
pub(crate) fn push_pair(
    text: &mut Vec<u8>,
    sheets: &Sheets,
    pair: &Pair,
) -> Result<(), AllocError> {
    let named = differ_in_player(sheets, pair);
    push_numbers(text, sheets, pair)?;
    say!(text; ": ")?;
    let missing = sheets.lack_on(pair, Side::First);
    push_after_rack(text, &sheets.first, pair.first, missing, named)?;
    say!(text; " | ")?;
    let missing = sheets.lack_on(pair, Side::Second);
    push_after_rack(text, &sheets.second, pair.second, missing, named)
}
