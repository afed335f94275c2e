//! What is kept of the sheet of a game.
ghost use Rattle.std.specs.Prelude.{◌≡◌, ℕ, Bool, List};
ghost use Rattle.lex_check.specs.Pairs.{list_in};
ghost use Rattle.game_case.specs.Explaining.{IsCaseOf, HasItsWalk};
ghost use Rattle.page_answers.specs.Pages.{IsLikelyAsked};
ghost use Rattle.archive_answers.specs.Sheets.{has_page, page_before, IsKept, IsSheetOf};

use crate::asked::Asked;
use archive_lines::{PageField, Unread};
use game_case::{Case, Entry, Finding};
use gcg_read::ReadFault;
use lex_check::Checked;
use page_answers::{Maker, PagedCase, paged_case};
use ref_tiles::Rules;
use repair_answers::Likely;
use std::alloc::Global;

/// A case without what a page shows of it.
#[derive(Drop)]
pub struct PlainGame {
    /// The case.
    pub case: Case,
    /// Its likely repair, if that is asked for and there is one.
    pub likely: Option<Likely>,
}

/// What is kept of the sheet of a game.
#[derive(Drop)]
pub enum GameSheet {
    /// The file could not be read.
    Unread(Unread),
    /// The case of its text, of which no page is asked for, or which has none.
    Plain(PlainGame),
    /// The case of its text, with what its page shows.
    Paged(PagedCase),
    /// Memory was refused for its page.
    NoMemory,
}

/// Whether what was read of a text has a page: it is a record with an event.
fn has_page(read: &Result<Entry, ReadFault>) -> bool
    ensures { result ≡ has_page read.now }
{
    match read {
        Ok(entry) => match entry.finding {
            Finding::NoGame => false,
            Finding::Legal { .. } => true,
            Finding::Illegal { .. } => true,
            Finding::Unsettled => true,
        },
        Err(_) => false,
    }
}

/// What is kept of a case if pages are asked for.
fn kept(
    alloc: Global,
    rules: &Rules,
    pair: &Checked<'_>,
    maker: &Maker,
    case: Case,
    likely: Option<Likely>,
) -> GameSheet
    requires { HasItsWalk rules.now (list_in pair.now) case }
    ensures { (text : List ℕ) (asked : Bool) → IsCaseOf rules.now (list_in pair.now) text case
        → IsLikelyAsked asked rules.now (list_in pair.now) text case.read likely
        → IsKept (has_page case.read) asked maker.now rules.now (list_in pair.now) text case likely result }
{
    if !has_page(&case.read) {
        return GameSheet::Plain(PlainGame { case, likely });
    }
    match paged_case(alloc, rules, pair, case, likely, maker) {
        Ok(paged) => GameSheet::Paged(paged),
        Err(_) => GameSheet::NoMemory,
    }
}

/// What is kept of a case: what its page shows, if pages are asked for and it has one, and otherwise the case itself.
pub(crate) fn sheet_of(
    alloc: Global,
    rules: &Rules,
    pair: &Checked<'_>,
    asked: &Asked<'_>,
    case: Case,
    likely: Option<Likely>,
) -> GameSheet
    requires { HasItsWalk rules.now (list_in pair.now) case }
    ensures { (text : List ℕ) → IsCaseOf rules.now (list_in pair.now) text case
        → IsLikelyAsked asked.now.likely rules.now (list_in pair.now) text case.read likely
        → IsSheetOf asked.now.likely asked.now.page rules.now (list_in pair.now) text case likely result }
{
    match asked.page {
        Some(maker) => kept(alloc, rules, pair, maker, case, likely),
        None => GameSheet::Plain(PlainGame { case, likely }),
    }
}

/// What a line says of the page of a game before one is written, if pages are asked for: that there is none, that it is not written, or that there was
/// no memory for it.
pub(crate) fn page_before(asked: bool, sheet: &GameSheet) -> Option<PageField>
    ensures { result ≡ page_before asked sheet.now }
{
    if !asked {
        return None;
    }
    match sheet {
        GameSheet::Unread(_) => Some(PageField::Missing),
        GameSheet::Plain(_) => Some(PageField::Missing),
        GameSheet::Paged(_) => Some(PageField::CannotWrite),
        GameSheet::NoMemory => Some(PageField::NoMemory),
    }
}
