//! What the index of the pages shows of a game.
ghost use Rattle.std.specs.Prelude.{◌≡◌, option_map};
ghost use Rattle.std.specs.String.{string_bytes};
ghost use Rattle.std.specs.Cow.{cow_str_bytes};
ghost use Rattle.archive_answers.specs.Rows.{shown, page_name, name_of, change_of, IsPlayerOf, IsRowOf};

use crate::games::ArchivedGame;
use archive_lines::{Answer, Ending, Lead, LikelyFields, PageField, lead_of};
use io_kinds::FileKind;
use std::alloc::Global;
use std::borrow::CowStr;

/// A player in the index of the pages.
#[derive(Clone, Copy)]
pub struct RowPlayer<'g> {
    /// The name, if there is one: the full name if the record gives it, and otherwise the nickname.
    pub name: Option<&'g str>,
    /// The last total, if there is one.
    pub total: Option<i32>,
}

/// What the index of the pages shows of a game.
#[derive(Clone, Copy)]
pub struct GameRow<'g> {
    /// The name of the game, as it was given.
    pub game: &'g str,
    /// The path of its page from the folder of the index, if its page is written.
    pub page: Option<&'g str>,
    /// The title of the record, if it says one.
    pub title: Option<&'g str>,
    /// The verdict.
    pub answer: Answer,
    /// The line of the fault, if there is one.
    pub line: Option<u32>,
    /// Whether a legal game has ended.
    pub ending: Option<Ending>,
    /// The fault, or why the game is unread.
    pub fault: Option<&'g str>,
    /// The player who began.
    pub first: RowPlayer<'g>,
    /// The other one.
    pub second: RowPlayer<'g>,
    /// Who is ahead by the last totals.
    pub lead: Lead,
    /// How many plays stand with a word that is not listed.
    pub unlisted: Option<usize>,
    /// The likely repair in words, if it is asked for and there is one.
    pub likely: Option<&'g str>,
    /// What the file of a record without an event seems to be.
    pub seems: Option<FileKind>,
}

/// The text, if there is one.
fn text_of(text: &Option<String>) -> Option<&str>
    ensures { shown result ≡ option_map string_bytes text.now }
{
    match text {
        Some(text) => Some(text.as_str()),
        None => None,
    }
}

/// The fault, if there is one.
fn fault_of<'f>(fault: &'f Option<CowStr<'_, Global>>) -> Option<&'f str>
    ensures { shown result ≡ option_map cow_str_bytes fault.now }
{
    match fault {
        Some(fault) => Some(fault.as_str()),
        None => None,
    }
}

/// The name of a page that is written.
fn page_name(page: &Option<PageField>) -> Option<&str>
    ensures { shown result ≡ page_name page.now }
{
    match page {
        Some(PageField::Written(name)) => Some(name.as_str()),
        Some(PageField::Missing) => None,
        Some(PageField::CannotWrite) => None,
        Some(PageField::NoMemory) => None,
        None => None,
    }
}

/// The change of a likely repair, if there is one.
fn change_of(likely: &Option<LikelyFields>) -> Option<&str>
    ensures { shown result ≡ change_of likely.now }
{
    match likely {
        Some(said) => text_of(&said.change),
        None => None,
    }
}

/// The full name of a player, or the nickname if there is none.
fn name_of<'g>(full: &'g Option<String>, nick: &'g Option<String>) -> Option<&'g str>
    ensures { shown result ≡ name_of (option_map string_bytes full.now) (option_map string_bytes nick.now) }
{
    match full {
        Some(full) => Some(full.as_str()),
        None => text_of(nick),
    }
}

/// A player by the full name, the nickname and the last total.
fn player_of<'g>(
    full: &'g Option<String>,
    nick: &'g Option<String>,
    total: Option<i32>,
) -> RowPlayer<'g>
    ensures { IsPlayerOf (option_map string_bytes full.now) (option_map string_bytes nick.now) total result }
{
    RowPlayer {
        name: name_of(full, nick),
        total,
    }
}

/// What the index of the pages shows of a game, as its line has it, with the words that are said in addition.
pub fn row_of<'g>(game: &'g ArchivedGame<'_>) -> GameRow<'g>
    ensures { IsRowOf game.now result }
{
    let ArchivedGame { fields, words, .. } = game;
    GameRow {
        game: fields.name,
        page: page_name(&fields.page),
        title: text_of(&words.title),
        answer: fields.verdict,
        line: fields.line,
        ending: fields.ending,
        fault: fault_of(&fields.fault),
        first: player_of(&words.first, &fields.player1, fields.total1),
        second: player_of(&words.second, &fields.player2, fields.total2),
        lead: lead_of(fields.total1, fields.total2),
        unlisted: fields.unlisted,
        likely: change_of(&fields.likely),
        seems: words.seems,
    }
}
