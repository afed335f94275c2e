//! The position after an event: its board, and what is not on it.

use crate::boards::push_board;
use crate::lines::Line;
use crate::plays::push_event;
use crate::showing::Shown;
use gcg_read::Event;
use page_pieces::{PageText, Piece};
use ref_tiles::{Counts, KINDS, Kind};
use sheet_scores::{Picture, Position};
use std::alloc::AllocError;

/// Appends a link to the row of an event, or only its words if there is no event.
fn push_turn(
    page: &mut PageText,
    event: Option<&Event>,
    words: &'static str,
) -> Result<(), AllocError> {
    match event {
        Some(event) => page.push(&[
            Piece::Markup("<a href=\"#l"),
            Piece::Number(i64::from(event.line)),
            Piece::Markup("\">"),
            Piece::Markup(words),
            Piece::Markup("</a>"),
        ]),
        None => page.push(&[
            Piece::Markup("<span>"),
            Piece::Markup(words),
            Piece::Markup("</span>"),
        ]),
    }
}

/// The event before a place, if there is one.
fn event_before<'a>(shown: &Shown<'a>, place: usize) -> Option<&'a Event> {
    if place == 0 {
        return None;
    }
    shown.event_at(place - 1)
}

/// The event after a place, if there is one with a board.
fn event_after<'a>(shown: &Shown<'a>, place: usize) -> Option<&'a Event> {
    let next = place.checked_add(1)?;
    if next < shown.sheet().boards.len() {
        shown.event_at(next)
    } else {
        None
    }
}

/// Appends the links to the positions before and after the event at a place.
fn push_turns(
    page: &mut PageText,
    shown: &Shown<'_>,
    line: &Line<'_>,
    place: usize,
) -> Result<(), AllocError> {
    page.push(&[Piece::Markup("<p class=\"nav\">")])?;
    push_turn(page, event_before(shown, place), "&lsaquo; previous")?;
    page.push(&[
        Piece::Markup(" <b>Line "),
        Piece::Number(i64::from(line.event.line)),
        Piece::Markup("</b> <a href=\"#end\">close</a> "),
    ])?;
    push_turn(page, event_after(shown, place), "next &rsaquo;")?;
    page.push(&[Piece::Markup("</p>")])
}

/// The plus sign before a number of points that is not below 0.
pub fn plus(points: i32) -> &'static str {
    if points < 0 { "" } else { "+" }
}

/// Appends whose event it is.
fn push_who(page: &mut PageText, line: &Line<'_>) -> Result<(), AllocError> {
    page.push(&[
        Piece::Markup("<p class=\"now\"><bdi>"),
        Piece::Recorded(line.player.nick.as_bytes(), line.encoding),
        Piece::Markup("</bdi> <b>"),
    ])
}

/// Appends what happened, and what it scored.
fn push_now(page: &mut PageText, line: &Line<'_>) -> Result<(), AllocError> {
    push_who(page, line)?;
    push_event(page, line.event, line.laid())?;
    let score = line.event.score.value();
    page.push(&[
        Piece::Markup("</b> "),
        Piece::Markup(plus(score)),
        Piece::Number(i64::from(score)),
        Piece::Markup("</p>"),
    ])
}

/// Appends `many` tiles of a kind, each in its own element.
fn push_rack_tiles(page: &mut PageText, kind: Kind, many: u8) -> Result<(), AllocError> {
    let letter = [kind.byte()];
    for _ in 0..many {
        page.push(&[
            Piece::Markup("<i>"),
            Piece::Text(&letter),
            Piece::Markup("</i>"),
        ])?;
    }
    Ok(())
}

/// Appends the tiles of a rack.
fn push_tiles(page: &mut PageText, rack: &Counts) -> Result<(), AllocError> {
    for number in 0..KINDS {
        let kind = Kind::at(number);
        push_rack_tiles(page, kind, rack.count(kind))?;
    }
    page.push(&[Piece::Markup("</p>")])
}

/// Appends the rack of the event after a place, if its line shows one.
fn push_next_rack(page: &mut PageText, shown: &Shown<'_>, place: usize) -> Result<(), AllocError> {
    let Some(event) = event_after(shown, place) else {
        return Ok(());
    };
    let Some(rack) = &event.rack else {
        return Ok(());
    };
    let nick = shown.player(event.player).nick.as_bytes();
    page.push(&[
        Piece::Markup("<p class=\"rack\"><span><bdi>"),
        Piece::Recorded(nick, shown.encoding()),
        Piece::Markup("</bdi> to go:</span> "),
    ])?;
    push_tiles(page, rack)
}

/// Appends `many` tiles of a kind, one after the other, and a space if there are any.
fn push_kind(page: &mut PageText, kind: Kind, many: usize) -> Result<(), AllocError> {
    if many == 0 {
        return Ok(());
    }
    let letter = [kind.byte()];
    for _ in 0..many {
        page.push(&[Piece::Text(&letter)])?;
    }
    page.push(&[Piece::Markup(" ")])
}

/// Appends the tiles that are not on the board.
pub fn push_bag(page: &mut PageText, position: &Position) -> Result<(), AllocError> {
    page.push(&[
        Piece::Markup("<p class=\"bag\"><span>Not on the board: "),
        Piece::Many(position.off_in_all),
        Piece::Markup("</span> "),
    ])?;
    for (number, many) in position.off.iter().enumerate() {
        if number < KINDS {
            push_kind(page, Kind::at(number), *many)?;
        }
    }
    page.push(&[Piece::Markup("</p>")])
}

/// Appends the position after the event at a place.
fn push_position(
    page: &mut PageText,
    shown: &Shown<'_>,
    line: &Line<'_>,
    place: usize,
    picture: &Picture,
) -> Result<(), AllocError> {
    page.push(&[Piece::Markup("<td class=\"pos\">")])?;
    push_turns(page, shown, line, place)?;
    push_now(page, line)?;
    push_board(page, shown.rules, picture)?;
    push_next_rack(page, shown, place)?;
    if let Some(position) = line.position {
        push_bag(page, position)?;
    }
    page.push(&[Piece::Markup("</td>")])
}

/// Appends the link to the first position, if there is one.
pub fn push_first(page: &mut PageText, shown: &Shown<'_>) -> Result<(), AllocError> {
    if shown.sheet().boards.is_empty() {
        return Ok(());
    }
    let Some(event) = shown.event_at(0) else {
        return Ok(());
    };
    page.push(&[
        Piece::Markup("<p class=\"nav\"><a href=\"#l"),
        Piece::Number(i64::from(event.line)),
        Piece::Markup("\">Go through the game &rsaquo;</a></p>\n"),
    ])
}

/// Appends the position after the event at a place, if the plays up to it can be laid.
pub fn push_panel(
    page: &mut PageText,
    shown: &Shown<'_>,
    line: &Line<'_>,
    place: usize,
) -> Result<(), AllocError> {
    match line.picture {
        Some(picture) => push_position(page, shown, line, place, picture),
        None => page.push(&[Piece::Markup("<td class=\"pos\"></td>")]),
    }
}
