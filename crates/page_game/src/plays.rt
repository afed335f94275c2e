//! Events in words.

use game_board::tile_mark;
use gcg_read::{Event, EventKind};
use page_pieces::{PageText, Piece};
use ref_play::Notation;
use ref_tiles::{Symbol, Tile};
use sheet_scores::{LaidPlay, PlayedTile};
use std::alloc::AllocError;

/// What an event other than a play is called, before its tiles if it has any.
fn words_of(kind: &EventKind) -> &'static str {
    match kind {
        EventKind::Play { .. } => "",
        EventKind::Pass => "pass",
        EventKind::Exchange(_) => "exchange ",
        EventKind::ExchangeUnknown(_) => "exchange of ",
        EventKind::Withdraw => "play taken back",
        EventKind::Challenge => "challenge bonus",
        EventKind::Time => "time penalty",
        EventKind::LastRack(_) => "last rack ",
    }
}

/// The bracket before a tile of a play: tiles that were on the board already are in brackets.
fn bracket(was_new: bool, is_new: bool) -> &'static str {
    match (was_new, is_new) {
        (true, false) => "(",
        (false, true) => ")",
        (true, true) | (false, false) => "",
    }
}

/// Appends a tile of a play by its letter, after a bracket if there is one.
fn push_tile(page: &mut PageText, was_new: bool, tile: &PlayedTile) -> Result<(), AllocError> {
    let Some(cell) = tile.cell else {
        return Ok(());
    };
    let letter = [tile_mark(&cell)];
    page.push(&[
        Piece::Markup(bracket(was_new, tile.is_new)),
        Piece::Text(&letter),
    ])
}

/// Appends the word of a play. Tiles that were on the board already are in brackets.
fn push_word(page: &mut PageText, play: &LaidPlay) -> Result<(), AllocError> {
    let mut was_new = true;
    for tile in play.tiles.iter() {
        push_tile(page, was_new, tile)?;
        was_new = tile.is_new;
    }
    page.push(&[Piece::Markup(bracket(was_new, true))])
}

/// Appends a play: where it begins, and its word as it lies on the board or, if it does not, as it is written.
fn push_play(
    page: &mut PageText,
    event: &Event,
    laid: Option<&LaidPlay>,
) -> Result<(), AllocError> {
    let EventKind::Play { at, dir, word } = &event.kind else {
        return Ok(());
    };
    match laid {
        None => page.push(&[Piece::Play(*at, *dir, word.as_slice())]),
        Some(play) => {
            page.push(&[Piece::Play(*at, *dir, &[])])?;
            push_word(page, play)
        }
    }
}

/// Appends a square of a play that is not laid, after a bracket if there is one: the letter of the tile that lies `under` the play there, or the
/// symbol that the play puts there.
fn push_symbol(
    page: &mut PageText,
    was_new: bool,
    symbol: Symbol,
    under: Option<Tile>,
) -> Result<(), AllocError> {
    let letter = match under {
        Some(tile) => tile_mark(&tile),
        None => symbol.byte(),
    };
    let text = [letter];
    page.push(&[
        Piece::Markup(bracket(was_new, under.is_none())),
        Piece::Text(&text),
    ])
}

/// What lies under a play at a place of its word.
fn cell_at(under: &[Option<Tile>], place: usize) -> Option<Tile> {
    match under.get(place) {
        Some(cell) => *cell,
        None => None,
    }
}

/// Appends the word of a play that is not laid, with what lies under it. Tiles that are on the board are in brackets.
fn push_unlaid(
    page: &mut PageText,
    word: &[Symbol],
    under: &[Option<Tile>],
) -> Result<(), AllocError> {
    let mut was_new = true;
    for (place, symbol) in word.iter().enumerate() {
        let cell = cell_at(under, place);
        push_symbol(page, was_new, *symbol, cell)?;
        was_new = cell.is_none();
    }
    page.push(&[Piece::Markup(bracket(was_new, true))])
}

/// Appends a play that is not laid, with what lies under it: where it begins, and its word.
pub fn push_notation(
    page: &mut PageText,
    written: &Notation,
    under: &[Option<Tile>],
) -> Result<(), AllocError> {
    page.push(&[Piece::Play(written.at, written.dir, &[])])?;
    push_unlaid(page, written.word.as_slice(), under)
}

/// Appends what happened in an event. `laid` is its play as it lies on the board, if it does.
pub fn push_event(
    page: &mut PageText,
    event: &Event,
    laid: Option<&LaidPlay>,
) -> Result<(), AllocError> {
    page.push(&[Piece::Markup(words_of(&event.kind))])?;
    match &event.kind {
        EventKind::Play { .. } => push_play(page, event, laid),
        EventKind::Exchange(tiles) | EventKind::LastRack(tiles) => {
            page.push(&[Piece::Tiles(tiles)])
        }
        EventKind::ExchangeUnknown(number) => page.push(&[Piece::Number(i64::from(*number))]),
        EventKind::Pass | EventKind::Withdraw | EventKind::Challenge | EventKind::Time => Ok(()),
    }
}
