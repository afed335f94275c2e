//! The rows of a sheet.

use crate::heads::{is_named, name_of};
use crate::lines::Line;
use crate::panels::{plus, push_panel};
use crate::plays::{push_event, push_notation};
use crate::showing::Shown;
use game_bests::{BestPlay, TurnBest};
use game_turns::SpelledWord;
use gcg_about::Note;
use gcg_read::{Points, Seat};
use page_pieces::{PageText, Piece};
use ref_tiles::Tile;
use sheet_scores::SheetRow;
use std::alloc::AllocError;

/// Which columns a sheet has in addition to those that every sheet has: those that are not empty.
#[derive(Clone, Copy)]
struct Columns {
    /// Words that are not in the list.
    unlisted: bool,
    /// What numbers should be.
    right: bool,
}

/// Whether a number of a row is wrong.
fn has_right(row: &SheetRow) -> bool {
    row.score.is_some() || row.total.is_some()
}

/// The columns of a sheet with these rows.
fn columns_of(rows: &[SheetRow]) -> Columns {
    Columns {
        unlisted: rows.iter().any(|row| !row.unlisted.is_empty()),
        right: rows.iter().any(|row| has_right(row)),
    }
}

/// Appends the head of the table.
fn push_heading(page: &mut PageText, columns: Columns) -> Result<(), AllocError> {
    page.push(&[Piece::Markup(
        "<table class=\"sheet\">\n<thead>\n<tr><th>Line</th><th>Player</th><th>Play</th><th class=\"num\">Score</th><th class=\"num\">Total</th><th>Rack</th><th>Best play</th><th class=\"num\">More</th>",
    )])?;
    page.push(&[
        Piece::Markup(if columns.unlisted {
            "<th>Not in the list</th>"
        } else {
            ""
        }),
        Piece::Markup(if columns.right {
            "<th>Should be</th>"
        } else {
            ""
        }),
        Piece::Markup("<th class=\"pos\">Board</th></tr>\n</thead>\n<tbody>\n"),
    ])
}

/// The class of a row: whether it is the faulty one, a play that is taken back, or not a play.
fn class_of(line: &Line<'_>) -> &'static str {
    match (line.is_faulty, line.row.taken_back, line.is_play()) {
        (true, true, _) => "\" class=\"fault back\">",
        (true, false, true) => "\" class=\"fault\">",
        (true, false, false) => "\" class=\"fault other\">",
        (false, true, _) => "\" class=\"back\">",
        (false, false, true) => "\">",
        (false, false, false) => "\" class=\"other\">",
    }
}

/// Appends the start of a row: its line and its player.
fn push_start(page: &mut PageText, line: &Line<'_>) -> Result<(), AllocError> {
    page.push(&[
        Piece::Markup("<tr id=\"l"),
        Piece::Number(i64::from(line.event.line)),
        Piece::Markup(class_of(line)),
        Piece::Markup("<td class=\"no\">"),
        Piece::Number(i64::from(line.event.line)),
        Piece::Markup("</td><td class=\"who\"><bdi>"),
        Piece::Recorded(line.player.nick.as_bytes(), line.encoding),
        Piece::Markup("</bdi></td>"),
    ])
}

/// The marks after a play.
fn tags_of(line: &Line<'_>) -> [Piece<'static>; 3] {
    [
        Piece::Markup(if line.is_full() {
            " <b class=\"tag bingo\">bingo</b>"
        } else {
            ""
        }),
        Piece::Markup(if line.row.taken_back {
            " <b class=\"tag phony\">taken back</b>"
        } else {
            ""
        }),
        Piece::Markup(if line.is_faulty {
            " <b class=\"tag wrong\">fault</b></td>"
        } else {
            "</td>"
        }),
    ]
}

/// Appends what happened, as a link to the position after it if there is one.
fn push_play(page: &mut PageText, line: &Line<'_>) -> Result<(), AllocError> {
    page.push(&[Piece::Markup("<td class=\"play\">")])?;
    if line.picture.is_none() {
        push_event(page, line.event, line.laid())?;
        return page.push(&tags_of(line));
    }
    page.push(&[
        Piece::Markup("<a href=\"#l"),
        Piece::Number(i64::from(line.event.line)),
        Piece::Markup("\">"),
    ])?;
    push_event(page, line.event, line.laid())?;
    page.push(&[Piece::Markup("</a>")])?;
    page.push(&tags_of(line))
}

/// Appends the score, the total and the rack of a line.
fn push_written(page: &mut PageText, line: &Line<'_>) -> Result<(), AllocError> {
    let event = line.event;
    let score = event.score.value();
    page.push(&[
        Piece::Markup("<td class=\"num sc\">"),
        Piece::Markup(plus(score)),
        Piece::Number(i64::from(score)),
        Piece::Markup("</td><td class=\"num to\">"),
        Piece::Number(i64::from(event.total.value())),
        Piece::Markup("</td><td class=\"rk\">"),
    ])?;
    match &event.rack {
        Some(rack) => page.push(&[Piece::Tiles(rack), Piece::Markup("</td>")]),
        None => page.push(&[Piece::Markup("</td>")]),
    }
}

/// Appends a best play and its score. What is on its squares before it is laid is `under` it.
fn push_best_play(
    page: &mut PageText,
    best: &BestPlay,
    under: &[Option<Tile>],
) -> Result<(), AllocError> {
    push_notation(page, &best.written, under)?;
    page.push(&[Piece::Markup(" "), Piece::Number(i64::from(best.score))])
}

/// Appends what is said of the best play of an event.
fn push_best(
    page: &mut PageText,
    best: &TurnBest,
    under: &[Option<Tile>],
) -> Result<(), AllocError> {
    match best {
        TurnBest::NoTurn => Ok(()),
        TurnBest::NotShown => page.push(&[Piece::Markup("rack not shown")]),
        TurnBest::NoPlay => page.push(&[Piece::Markup("none")]),
        TurnBest::Best(best) => push_best_play(page, best, under),
    }
}

/// Appends how many points more the best play of an event would have given, or that it would have given as many; nothing if it would have given
/// fewer.
fn push_more(page: &mut PageText, line: &Line<'_>) -> Result<(), AllocError> {
    match line.best() {
        Some(best) if best.more > 0 => {
            page.push(&[Piece::Markup("+"), Piece::Number(best.more)])
        }
        Some(best) if best.more == 0 => page.push(&[Piece::Markup("equal")]),
        _ => Ok(()),
    }
}

/// Appends the best play of a turn and how much more it would have given.
fn push_best_cells(page: &mut PageText, line: &Line<'_>) -> Result<(), AllocError> {
    page.push(&[Piece::Markup("<td class=\"bp\">")])?;
    if let Some(best) = &line.row.best {
        push_best(page, best, line.row.under.as_slice())?;
    }
    page.push(&[Piece::Markup("</td><td class=\"num mo\">")])?;
    push_more(page, line)?;
    page.push(&[Piece::Markup("</td>")])
}

/// Appends words, each with a space after it.
fn push_words(page: &mut PageText, words: &[SpelledWord]) -> Result<(), AllocError> {
    page.push(&[Piece::Markup("<td class=\"un\">")])?;
    for word in words {
        page.push(&[Piece::Text(word.letters.as_slice()), Piece::Markup(" ")])?;
    }
    page.push(&[Piece::Markup("</td>")])
}

/// Appends what a number should be, if it is wrong.
fn push_should_be(
    page: &mut PageText,
    name: &'static str,
    right: Option<i32>,
) -> Result<(), AllocError> {
    match right {
        Some(right) => page.push(&[
            Piece::Markup(name),
            Piece::Number(i64::from(right)),
            Piece::Markup(" "),
        ]),
        None => Ok(()),
    }
}

/// The value of a number of points, if there is one.
fn value_of(points: Option<Points>) -> Option<i32> {
    match points {
        Some(points) => Some(points.value()),
        None => None,
    }
}

/// Appends what the score and the total of an event should be, if they are wrong.
fn push_right(page: &mut PageText, row: &SheetRow) -> Result<(), AllocError> {
    page.push(&[Piece::Markup("<td class=\"sb\">")])?;
    push_should_be(page, "score ", value_of(row.score))?;
    push_should_be(page, "total ", row.total)?;
    page.push(&[Piece::Markup("</td>")])
}

/// Appends the row of the event at a place.
fn push_row(
    page: &mut PageText,
    shown: &Shown<'_>,
    columns: Columns,
    line: &Line<'_>,
    place: usize,
) -> Result<(), AllocError> {
    push_start(page, line)?;
    push_play(page, line)?;
    push_written(page, line)?;
    push_best_cells(page, line)?;
    if columns.unlisted {
        push_words(page, line.unlisted())?;
    }
    if columns.right {
        push_right(page, line.row)?;
    }
    push_panel(page, shown, line, place)?;
    page.push(&[Piece::Markup("</tr>\n")])
}

/// Appends a note.
fn push_note(page: &mut PageText, shown: &Shown<'_>, note: &Note) -> Result<(), AllocError> {
    page.push(&[
        Piece::Markup("<tr class=\"note\"><td colspan=\"8\"><bdi>"),
        Piece::Recorded(note.text.as_slice(), shown.encoding()),
        Piece::Markup("</bdi></td></tr>\n"),
    ])
}

/// Appends the notes from place `from` on that come no later than after `events` events, and returns the place after them.
fn push_notes(
    page: &mut PageText,
    shown: &Shown<'_>,
    notes: &[Note],
    from: usize,
    events: usize,
) -> Result<usize, AllocError> {
    let mut next = from;
    for note in notes.get(from..).unwrap_or(&[]) {
        if note.after > events {
            break;
        }
        push_note(page, shown, note)?;
        next = next.saturating_add(1);
    }
    Ok(next)
}

/// Appends the name of a player, before how much more the best plays would have given.
fn push_gainer(page: &mut PageText, shown: &Shown<'_>, seat: Seat) -> Result<(), AllocError> {
    let name = name_of(shown, shown.player(seat));
    page.push(&[Piece::Markup("<bdi>"), name, Piece::Markup("</bdi> <b>")])
}

/// Appends how much more the best plays of a player would have given together.
fn push_gains(
    page: &mut PageText,
    shown: &Shown<'_>,
    seat: Seat,
    gains: Option<u64>,
) -> Result<(), AllocError> {
    let Some(gains) = gains else {
        return Ok(());
    };
    push_gainer(page, shown, seat)?;
    page.push(&[Piece::Many(gains as usize), Piece::Markup("</b>")])
}

/// Appends how much more the best plays would have given, by player.
fn push_sums(page: &mut PageText, shown: &Shown<'_>) -> Result<(), AllocError> {
    let sheet = shown.sheet();
    page.push(&[Piece::Markup(
        "</tbody>\n</table>\n<p class=\"sums\">The best plays would have given more: ",
    )])?;
    push_gains(page, shown, Seat::First, sheet.first_gains)?;
    if is_named(shown.player(Seat::Second)) {
        page.push(&[Piece::Markup(", ")])?;
        push_gains(page, shown, Seat::Second, sheet.second_gains)?;
    }
    page.push(&[Piece::Markup("</p>\n")])
}

/// Appends the row of the event at a place and, of the notes from place `from` on, those of the event; returns the place after them.
fn push_place(
    page: &mut PageText,
    shown: &Shown<'_>,
    columns: Columns,
    notes: &[Note],
    from: usize,
    place: usize,
) -> Result<usize, AllocError> {
    let Some(line) = shown.line_at(place) else {
        return Ok(from);
    };
    push_row(page, shown, columns, &line, place)?;
    push_notes(page, shown, notes, from, place.saturating_add(1))
}

/// Appends the sheet: a row for each event with the position after it, and the notes of the event.
pub fn push_rows(page: &mut PageText, shown: &Shown<'_>, notes: &[Note]) -> Result<(), AllocError> {
    let columns = columns_of(shown.sheet().rows.as_slice());
    push_heading(page, columns)?;
    let mut next = 0;
    for place in 0..shown.game.events.len() {
        next = push_place(page, shown, columns, notes, next, place)?;
    }
    push_sums(page, shown)
}
