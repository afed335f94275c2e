//! The head of a page: its title and its style.

use crate::showing::Shown;
use crate::styles::STYLE;
use gcg_read::Player;
use page_pieces::{PageText, Piece};
use std::alloc::AllocError;

/// Whether a player has a name.
pub fn is_named(player: &Player) -> bool {
    !player.full.as_bytes().is_empty() || !player.nick.as_bytes().is_empty()
}

/// A player's name: the full name, or the nickname if there is none.
pub fn name_of<'a>(shown: &Shown<'_>, player: &'a Player) -> Piece<'a> {
    let full = player.full.as_bytes();
    let name = if full.is_empty() {
        player.nick.as_bytes()
    } else {
        full
    };
    Piece::Recorded(name, shown.encoding())
}

/// Appends the names of those players who have one.
fn push_names(page: &mut PageText, shown: &Shown<'_>) -> Result<(), AllocError> {
    let players = &shown.game.players;
    let (first, second) = (&players.first, &players.second);
    if !is_named(second) {
        return page.push(&[name_of(shown, first)]);
    }
    if !is_named(first) {
        return page.push(&[name_of(shown, second)]);
    }
    page.push(&[
        name_of(shown, first),
        Piece::Markup(" and "),
        name_of(shown, second),
    ])
}

/// Appends the beginning of a page, up to its title.
pub fn push_start(page: &mut PageText) -> Result<(), AllocError> {
    page.push(&[Piece::Markup(
        "<!DOCTYPE html>\n<html lang=\"en\">\n<head>\n<meta charset=\"utf-8\">\n<meta name=\"viewport\" content=\"width=device-width, initial-scale=1\">\n<title>",
    )])
}

/// Appends what is between the title of a page and its body.
pub fn push_style(page: &mut PageText) -> Result<(), AllocError> {
    page.push(&[
        Piece::Markup("</title>\n<style>\n"),
        Piece::Markup(STYLE),
        Piece::Markup("</style>\n</head>\n"),
    ])
}

/// Appends the head of the page of a game.
pub fn push_head(page: &mut PageText, shown: &Shown<'_>) -> Result<(), AllocError> {
    push_start(page)?;
    push_names(page, shown)?;
    push_style(page)?;
    page.push(&[Piece::Markup("<body class=\"game\">\n")])
}
