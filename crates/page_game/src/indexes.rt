//! The index of the pages of many games.
ghost use Rattle.std.specs.Prelude.{◌≡◌, ◌<◌, ◌-◌, ◌^◌, ◌++◌, ◌∷◌, [], List, OnOk};
ghost use Rattle.archive_lines.specs.declared.answers.Answer.{Answer};
ghost use Rattle.page_game.specs.Counts.{AreCountsOf, count_of};

use crate::counts::{AnswerCounts, count_more, count_of, no_counts};
use crate::faults::fault_words;
use crate::heads::{push_start, push_style};
use crate::orders::order_key;
use archive_lines::{Answer, Ending, Lead};
use page_pieces::{PageText, Piece};
use percent_encoding::{AsciiSet, NON_ALPHANUMERIC, ascii_set, utf8_percent_encode};
use std::alloc::{AllocError, Global};
use std::collections::BTreeMap;

/// The characters that are percent-encoded in the address of a page: all except letters, digits and the slashes between its folders.
const IN_ADDRESS: AsciiSet = ascii_set!(NON_ALPHANUMERIC.remove(b'/'));

/// The answers, in the order in which they are counted.
const ANSWERS: [Answer; 6] = [
    Answer::Legal,
    Answer::Illegal,
    Answer::Unsettled,
    Answer::BadRecord,
    Answer::NoGame,
    Answer::Unread,
];

/// A player in the index.
#[derive(Clone, Copy)]
pub struct IndexPlayer<'a> {
    /// The name, if there is one: the full name if it is known, and otherwise the nickname.
    pub name: Option<&'a str>,
    /// The last total, if there is one.
    pub total: Option<i32>,
}

/// What the index says of a game.
#[derive(Clone, Copy)]
pub struct IndexRow<'a> {
    /// The name of the game, as it was given.
    pub game: &'a str,
    /// The path of its page from the folder of the index, if it has a page.
    pub page: Option<&'a str>,
    /// What the record says as its title, if that is known.
    pub title: Option<&'a str>,
    /// The answer on it.
    pub answer: Answer,
    /// The line of the fault, if there is one.
    pub line: Option<u32>,
    /// What is said about the answer: the fault, or whether the game has ended.
    pub why: Option<&'a str>,
    /// The player who began.
    pub first: IndexPlayer<'a>,
    /// The other one.
    pub second: IndexPlayer<'a>,
    /// Who is ahead by the last totals.
    pub lead: Lead,
    /// How many plays stand with a word that is not listed, if that is known.
    pub unlisted: Option<usize>,
    /// The likely repair of the game in words, if it is known.
    pub likely: Option<&'a str>,
    /// What a file without a game seems to be, if that is known.
    pub seems: Option<&'static str>,
}

impl IndexRow<'_> {
    /// Whether the game is legal and has ended.
    fn is_complete(&self) -> bool {
        match self.why {
            Some(why) => self.answer == Answer::Legal && why == Ending::Complete.name(),
            None => false,
        }
    }
}

/// The index of many games, in the order of their names. It grows by a row for each.
#[derive(Drop)]
pub struct Index {
    /// The rows, by what puts them in order.
    rows: BTreeMap<String, PageText>,
    /// How many games had each answer.
    counts: AnswerCounts,
}

impl Index {
    /// An index without games.
    pub fn new(alloc: Global) -> Index
        ensures { AreCountsOf [] result.counts }
    {
        Index {
            rows: BTreeMap::new(alloc),
            counts: no_counts(),
        }
    }

    /// Adds the row of a game. If memory runs out, the index stays as it was.
    pub fn add(&mut self, alloc: Global, row: &IndexRow<'_>) -> Result<(), AllocError>
        ensures { OnOk result ((answers : List Answer) → AreCountsOf answers self.old.counts → count_of self.old.counts row.now.answer < 2 ^ 64 - 1
            → AreCountsOf (answers ++ row.now.answer ∷ []) self.new.counts) }
    {
        let mut text = PageText::new(alloc);
        push_row(alloc, &mut text, row)?;
        let key = order_key(alloc, row.game, self.rows.len())?;
        if self.rows.insert(key, text).is_err() {
            return Err(AllocError);
        }
        self.counts = count_more(&self.counts, row.answer);
        Ok(())
    }

    /// The bytes of the index.
    ///
    /// It fails only if memory runs out.
    pub fn to_bytes(&self, alloc: Global) -> Result<Vec<u8>, AllocError> {
        let mut head = PageText::new(alloc);
        push_head(&mut head, &self.counts)?;
        let mut whole = Vec::from_slice(alloc, head.as_slice())?;
        for row in self.rows.values() {
            whole.extend_from_slice(row.as_slice())?;
        }
        whole.extend_from_slice(b"</tbody>\n</table>\n</main>\n</body>\n</html>\n")?;
        Ok(whole)
    }
}

/// The sign of an answer.
fn sign_of(answer: Answer) -> &'static str {
    match answer {
        Answer::Legal => "&#10003; ",
        Answer::Illegal => "&#10007; ",
        Answer::Unsettled => "? ",
        Answer::BadRecord | Answer::NoGame | Answer::Unread => "&ndash; ",
    }
}

/// The class of an answer, as an attribute up to the end of its tag.
fn class_of(answer: Answer) -> &'static str {
    match answer {
        Answer::Legal => " class=\"is-legal\">",
        Answer::Illegal => " class=\"is-illegal\">",
        Answer::Unsettled => " class=\"is-unsettled\">",
        Answer::BadRecord | Answer::NoGame | Answer::Unread => " class=\"is-none\">",
    }
}

/// Appends how many games had an answer, if any had.
fn push_count(page: &mut PageText, answer: Answer, many: usize) -> Result<(), AllocError> {
    if many == 0 {
        return Ok(());
    }
    page.push(&[
        Piece::Markup("<li"),
        Piece::Markup(class_of(answer)),
        Piece::Markup(sign_of(answer)),
        Piece::Many(many),
        Piece::Markup(" "),
        Piece::Markup(answer.name()),
        Piece::Markup("</li>\n"),
    ])
}

/// Appends the index up to its first row.
fn push_head(page: &mut PageText, counts: &AnswerCounts) -> Result<(), AllocError> {
    push_start(page)?;
    page.push(&[Piece::Markup("Games")])?;
    push_style(page)?;
    page.push(&[Piece::Markup(
        "<body class=\"index\">\n<header>\n<h1>Games</h1>\n<ul class=\"counts\">\n",
    )])?;
    for answer in &ANSWERS {
        push_count(page, *answer, count_of(counts, *answer))?;
    }
    page.push(&[Piece::Markup(
        "</ul>\n</header>\n<main>\n<table class=\"sheet\">\n<thead>\n<tr><th>Game</th><th>Verdict</th><th>Player 1</th><th class=\"num\">Total</th><th>Player 2</th><th class=\"num\">Total</th><th>Result</th></tr>\n</thead>\n<tbody>\n",
    )])
}

/// Appends the row of a game.
fn push_row(alloc: Global, page: &mut PageText, row: &IndexRow<'_>) -> Result<(), AllocError> {
    page.push(&[
        Piece::Markup("<tr"),
        Piece::Markup(class_of(row.answer)),
        Piece::Markup("<td class=\"gm\">"),
    ])?;
    push_link(alloc, page, row)?;
    push_said(page, "<p class=\"ti\"><bdi>", row.title, "</bdi></p>")?;
    push_answer(page, row)?;
    push_player(page, &row.first)?;
    push_player(page, &row.second)?;
    push_result(page, row)?;
    page.push(&[Piece::Markup("</tr>\n")])
}

/// Appends the beginning of a link to an address.
fn push_address(page: &mut PageText, address: &[u8]) -> Result<(), AllocError> {
    page.push(&[
        Piece::Markup("<a href=\""),
        Piece::Text(address),
        Piece::Markup("\">"),
    ])
}

/// Appends the name of a game, as a link if it has a page.
fn push_link(alloc: Global, page: &mut PageText, row: &IndexRow<'_>) -> Result<(), AllocError> {
    let Some(name) = row.page else {
        return page.push(&[Piece::Text(row.game.as_bytes())]);
    };
    let mut address = String::new(alloc);
    utf8_percent_encode(name, IN_ADDRESS).append_to(&mut address)?;
    push_address(page, address.as_bytes())?;
    page.push(&[Piece::Text(row.game.as_bytes()), Piece::Markup("</a>")])
}

/// Appends a text between two pieces of markup, if there is one.
fn push_said(
    page: &mut PageText,
    before: &'static str,
    said: Option<&str>,
    after: &'static str,
) -> Result<(), AllocError> {
    match said {
        Some(said) => page.push(&[
            Piece::Markup(before),
            Piece::Text(said.as_bytes()),
            Piece::Markup(after),
        ]),
        None => Ok(()),
    }
}

/// Appends the answer on a game, and its likely repair.
fn push_answer(page: &mut PageText, row: &IndexRow<'_>) -> Result<(), AllocError> {
    page.push(&[
        Piece::Markup("</td><td class=\"vd\"><b>"),
        Piece::Markup(sign_of(row.answer)),
        Piece::Markup(row.answer.name()),
        Piece::Markup("</b>"),
    ])?;
    if let Some(line) = row.line {
        page.push(&[Piece::Markup(" line "), Piece::Number(i64::from(line))])?;
    }
    if let Some(why) = row.why {
        push_why(page, why)?;
    }
    push_said(page, ": ", row.seems, "")?;
    push_unlisted(page, row.unlisted.unwrap_or(0))?;
    push_said(page, "<p class=\"lk\">likely: ", row.likely, "</p>")?;
    page.push(&[Piece::Markup("</td>")])
}

/// Appends how many plays stand with a word that is not listed, if any do.
fn push_unlisted(page: &mut PageText, plays: usize) -> Result<(), AllocError> {
    match plays {
        0 => Ok(()),
        1 => page.push(&[Piece::Markup(", 1 play with an unlisted word")]),
        _ => page.push(&[
            Piece::Markup(", "),
            Piece::Many(plays),
            Piece::Markup(" plays with unlisted words"),
        ]),
    }
}

/// Appends what is said about an answer: a fault in words, with its name.
fn push_why(page: &mut PageText, why: &str) -> Result<(), AllocError> {
    match fault_words(why) {
        Some(words) => page.push(&[
            Piece::Markup(": "),
            Piece::Markup(words),
            Piece::Markup(" <small>"),
            Piece::Text(why.as_bytes()),
            Piece::Markup("</small>"),
        ]),
        None => page.push(&[Piece::Markup(": "), Piece::Text(why.as_bytes())]),
    }
}

/// Appends a player and the last total.
fn push_player(page: &mut PageText, player: &IndexPlayer<'_>) -> Result<(), AllocError> {
    page.push(&[Piece::Markup("<td class=\"pl\">")])?;
    push_said(page, "<bdi>", player.name, "</bdi>")?;
    page.push(&[Piece::Markup("</td><td class=\"num\">")])?;
    match player.total {
        Some(total) => page.push(&[Piece::Number(i64::from(total)), Piece::Markup("</td>")]),
        None => page.push(&[Piece::Markup("</td>")]),
    }
}

/// Appends who won or is ahead, and by how many points. A player without a name is called `unnamed`.
fn push_lead(
    page: &mut PageText,
    row: &IndexRow<'_>,
    player: &IndexPlayer<'_>,
    unnamed: &'static str,
    by: i64,
) -> Result<(), AllocError> {
    match player.name {
        Some(_) => push_said(page, "<bdi>", player.name, "</bdi>")?,
        None => page.push(&[Piece::Markup(unnamed)])?,
    }
    page.push(&[
        Piece::Markup(if row.is_complete() {
            " won by "
        } else {
            " is ahead by "
        }),
        Piece::Number(by),
    ])
}

/// Appends the result of a game: who won or is ahead, and by how many points.
fn push_result(page: &mut PageText, row: &IndexRow<'_>) -> Result<(), AllocError> {
    page.push(&[Piece::Markup("<td class=\"ld\">")])?;
    match row.lead {
        Lead::First(by) => push_lead(page, row, &row.first, "player 1", by)?,
        Lead::Second(by) => push_lead(page, row, &row.second, "player 2", by)?,
        Lead::Even if row.is_complete() => page.push(&[Piece::Markup("a tie")])?,
        Lead::Even => {}
    }
    page.push(&[Piece::Markup("</td>")])
}
