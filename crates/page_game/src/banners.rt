//! The top of a page: names, result, the record's own words, and the verdict.

use crate::heads::{is_named, name_of};
use crate::likely::push_likely_words;
use crate::lines::Line;
use crate::panels::plus;
use crate::plays::push_event;
use crate::showing::Shown;
use crate::sums::push_sum;
use explain_answers::Picture;
use game_case::Finding;
use game_corrections::Standing;
use gcg_about::{Encoding, Note};
use gcg_read::{Event, Points, Seat};
use page_pieces::{PageText, Piece};
use std::alloc::AllocError;

/// Appends a last written total.
fn push_total(page: &mut PageText, total: Option<Points>) -> Result<(), AllocError> {
    let total = match total {
        Some(total) => i64::from(total.value()),
        None => 0,
    };
    page.push(&[
        Piece::Markup("<b>"),
        Piece::Number(total),
        Piece::Markup("</b>"),
    ])
}

/// Appends the name of a player, between two pieces of markup.
fn push_name(
    page: &mut PageText,
    shown: &Shown<'_>,
    seat: Seat,
    before: &'static str,
    after: &'static str,
) -> Result<(), AllocError> {
    let name = name_of(shown, shown.player(seat));
    page.push(&[
        Piece::Markup(before),
        Piece::Markup("<bdi>"),
        name,
        Piece::Markup("</bdi>"),
        Piece::Markup(after),
    ])
}

/// Appends the first player's name and total, if the record names that player.
fn push_first(page: &mut PageText, shown: &Shown<'_>) -> Result<(), AllocError> {
    if !is_named(shown.player(Seat::First)) {
        return Ok(());
    }
    push_name(page, shown, Seat::First, "", " ")?;
    push_total(page, shown.sheet().first_total)
}

/// Appends the second player's total and name, if the record names that player.
fn push_second(page: &mut PageText, shown: &Shown<'_>) -> Result<(), AllocError> {
    if !is_named(shown.player(Seat::Second)) {
        return Ok(());
    }
    page.push(&[Piece::Markup(" <span>&ndash;</span> ")])?;
    push_total(page, shown.sheet().second_total)?;
    push_name(page, shown, Seat::Second, " ", "")
}

/// Appends the names, each with its total.
fn push_names(page: &mut PageText, shown: &Shown<'_>) -> Result<(), AllocError> {
    page.push(&[Piece::Markup("<h1>")])?;
    push_first(page, shown)?;
    push_second(page, shown)?;
    page.push(&[Piece::Markup("</h1>\n")])
}

/// The words before the name of the player who is ahead, between the name and the lead, and after the lead; and those for a tie.
fn result_words(finding: &Finding) -> [&'static str; 4] {
    match finding {
        Finding::Legal { complete: true } => ["", " won by ", ".", "A tie."],
        Finding::NoGame | Finding::Legal { complete: false } => {
            ["Unfinished. ", " is ahead by ", ".", "Unfinished."]
        }
        Finding::Illegal { .. } | Finding::Unsettled => [
            "As it is written, ",
            " is ahead by ",
            ".",
            "As it is written, both have the same.",
        ],
    }
}

/// Appends who is ahead by the right numbers, in the words that are given, or if there are none, what the totals say as they are written.
fn push_result(page: &mut PageText, shown: &Shown<'_>, lead: &[u8]) -> Result<(), AllocError> {
    if lead.is_empty() {
        return push_written_result(page, shown);
    }
    page.push(&[
        Piece::Markup("<p class=\"result\">"),
        Piece::Recorded(lead.trim_ascii_end(), shown.encoding()),
        Piece::Markup(".</p>\n"),
    ])
}

/// Appends who won, and by how many points; or that the game is unfinished.
fn push_written_result(page: &mut PageText, shown: &Shown<'_>) -> Result<(), AllocError> {
    let words = result_words(&shown.finding);
    page.push(&[Piece::Markup("<p class=\"result\">")])?;
    match shown.sheet().standing {
        Standing::Even => page.push(&[Piece::Markup(words[3])])?,
        Standing::Ahead(seat, by) => page.push(&[
            Piece::Markup(words[0]),
            Piece::Markup("<bdi>"),
            name_of(shown, shown.player(seat)),
            Piece::Markup("</bdi>"),
            Piece::Markup(words[1]),
            Piece::Number(i64::from(by)),
            Piece::Markup(words[2]),
        ])?,
    }
    page.push(&[Piece::Markup("</p>\n")])
}

/// Appends what the record says under a name.
fn push_own(
    page: &mut PageText,
    shown: &Shown<'_>,
    name: &'static str,
    said: &[u8],
) -> Result<(), AllocError> {
    page.push(&[
        Piece::Markup("<p class=\"own\">"),
        Piece::Markup(name),
        Piece::Markup(" by the record: <q><bdi>"),
        Piece::Recorded(said, shown.encoding()),
        Piece::Markup("</bdi></q></p>\n"),
    ])
}

/// Appends what the record says under a name, if it says something.
fn push_said(
    page: &mut PageText,
    shown: &Shown<'_>,
    name: &'static str,
    said: &Option<Vec<u8>>,
) -> Result<(), AllocError> {
    match said {
        Some(said) => push_own(page, shown, name, said.as_slice()),
        None => Ok(()),
    }
}

/// Appends the notes before the first event, and returns those after them.
fn push_notes<'a>(
    page: &mut PageText,
    shown: &Shown<'_>,
    notes: &'a [Note],
) -> Result<&'a [Note], AllocError> {
    let mut remaining = notes;
    for note in notes {
        if note.after > 0 {
            break;
        }
        push_own(page, shown, "Note", note.text.as_slice())?;
        remaining = match remaining {
            [_, rest @ ..] => rest,
            [] => remaining,
        };
    }
    Ok(remaining)
}

/// Appends what the record says of the game as a whole, and returns the notes of its events.
fn push_words<'a>(page: &mut PageText, shown: &Shown<'a>) -> Result<&'a [Note], AllocError> {
    let words = &shown.contents.words;
    push_said(page, shown, "Title", &words.title)?;
    push_said(page, shown, "Event", &words.event)?;
    push_said(page, shown, "Description", &words.description)?;
    push_said(page, shown, "Lexicon", &words.lexicon)?;
    push_notes(page, shown, words.notes.as_slice())
}

/// The beginning of the box of a verdict.
fn box_of(finding: &Finding) -> &'static str {
    match finding {
        Finding::NoGame | Finding::Legal { .. } => "<section class=\"verdict legal\">\n<h2>",
        Finding::Illegal { .. } => "<section class=\"verdict illegal\">\n<h2>",
        Finding::Unsettled => "<section class=\"verdict unsettled\">\n<h2>",
    }
}

/// Appends the line of the faulty event as a link to its row, and its player.
fn push_link(page: &mut PageText, line: &Line<'_>) -> Result<(), AllocError> {
    page.push(&[
        Piece::Markup("<p class=\"at\"><a href=\"#l"),
        Piece::Number(i64::from(line.event.line)),
        Piece::Markup("\">Line "),
        Piece::Number(i64::from(line.event.line)),
        Piece::Markup("</a>: <bdi>"),
        Piece::Recorded(line.player.nick.as_bytes(), line.encoding),
        Piece::Markup("</bdi> <b>"),
    ])
}

/// Appends the score and the total of the faulty event.
fn push_numbers(page: &mut PageText, event: &Event) -> Result<(), AllocError> {
    let score = event.score.value();
    page.push(&[
        Piece::Markup("</b> "),
        Piece::Markup(plus(score)),
        Piece::Number(i64::from(score)),
        Piece::Markup(" "),
        Piece::Number(i64::from(event.total.value())),
        Piece::Markup("</p>\n"),
    ])
}

/// Appends the faulty event, with a link to its row.
fn push_faulty(page: &mut PageText, shown: &Shown<'_>) -> Result<(), AllocError> {
    let Some(line) = shown.contents.faulty.and_then(|place| shown.line_at(place)) else {
        return Ok(());
    };
    push_link(page, &line)?;
    push_event(page, line.event, line.laid())?;
    push_numbers(page, line.event)
}

/// Appends the sum of the play that the verdict is about, if it is about one.
fn push_fault_sum(page: &mut PageText, shown: &Shown<'_>) -> Result<(), AllocError> {
    let Some(explanation) = &shown.contents.explanation else {
        return Ok(());
    };
    let Some(Picture::Shown(picture)) = &explanation.picture else {
        return Ok(());
    };
    match &picture.play {
        Some(play) => push_sum(page, play),
        None => Ok(()),
    }
}

/// Appends the verdict.
fn push_verdict_line(page: &mut PageText, shown: &Shown<'_>) -> Result<(), AllocError> {
    page.push(&[
        Piece::Markup(box_of(&shown.finding)),
        Piece::Text(shown.contents.verdict.as_slice().trim_ascii_end()),
        Piece::Markup("</h2>\n"),
    ])
}

/// Appends what explains the verdict.
fn push_why(page: &mut PageText, reason: &[u8], encoding: Encoding) -> Result<(), AllocError> {
    page.push(&[
        Piece::Markup("<p class=\"why\">"),
        Piece::Recorded(reason.trim_ascii_end(), encoding),
        Piece::Markup("</p>\n"),
    ])
}

/// Appends the verdict, the event that it is about, what explains it, and the likely repair.
fn push_verdict(
    page: &mut PageText,
    shown: &Shown<'_>,
    reason: &[u8],
    likely: &[u8],
) -> Result<(), AllocError> {
    push_verdict_line(page, shown)?;
    push_faulty(page, shown)?;
    push_why(page, reason, shown.encoding())?;
    push_fault_sum(page, shown)?;
    push_likely_words(page, shown, likely)?;
    page.push(&[Piece::Markup("</section>\n")])
}

/// Appends `up` steps to the folder above.
fn push_steps(page: &mut PageText, up: usize) -> Result<(), AllocError> {
    for _ in 0..up {
        page.push(&[Piece::Markup("../")])?;
    }
    Ok(())
}

/// Appends the link to the index, if there is one.
fn push_back(page: &mut PageText, up: Option<usize>) -> Result<(), AllocError> {
    let Some(up) = up else {
        return Ok(());
    };
    page.push(&[Piece::Markup("<p class=\"up\"><a href=\"")])?;
    push_steps(page, up)?;
    page.push(&[Piece::Markup("index.html\">&lsaquo; All games</a></p>\n")])
}

/// Appends names, totals and result, what the record says of the game, the verdict and what explains it. Returns the notes of the events.
pub fn push_banner<'a>(
    page: &mut PageText,
    shown: &Shown<'a>,
    reason: &[u8],
    likely: &[u8],
    lead: &[u8],
) -> Result<&'a [Note], AllocError> {
    page.push(&[Piece::Markup("<header>\n")])?;
    push_back(page, shown.up)?;
    push_names(page, shown)?;
    push_result(page, shown, lead)?;
    let notes = push_words(page, shown)?;
    push_verdict(page, shown, reason, likely)?;
    page.push(&[Piece::Markup("</header>\n")])?;
    Ok(notes)
}
