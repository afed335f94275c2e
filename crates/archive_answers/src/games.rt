//! What is told of one game of an archive.
ghost use Rattle.std.specs.Prelude.{◌≡◌, ℕ, List, IfOk};
ghost use Rattle.io_devices.specs.Devices.{HasRoom};
ghost use Rattle.gcg_read.specs.Records.{most_bytes};
ghost use Rattle.lex_check.specs.Pairs.{list_in};
ghost use Rattle.engine_stages.specs.Stages.{IsRead};
ghost use Rattle.game_case.specs.Explaining.{IsCaseOf, HasItsWalk};
ghost use Rattle.archive_answers.specs.Games.{ReportsCase, IsReportedGame, IsUnreadGame, with_page};
ghost use Rattle.archive_answers.specs.Runs.{IsLostGame};

use crate::asked::Asked;
use crate::likely::{likely_said, none_said};
use crate::lines::{case_fields, with_asked};
use crate::sheets::{GameSheet, page_before, sheet_of};
use crate::words::{RowWords, no_words, words_asked};
use archive_lines::{Fields, PageField, Unread};
use engine_stages::RunFault;
use game_case::{Case, open_case};
use io_devices::Input;
use lex_check::Checked;
use page_answers::likely_asked;
use ref_tiles::Rules;
use std::alloc::{AllocError, Global};

/// What is told of one game of an archive.
#[derive(Drop)]
pub struct ArchivedGame<'n> {
    /// What its line says.
    pub fields: Fields<'n>,
    /// What the index of the pages says in addition.
    pub words: RowWords,
    /// What is kept of its sheet.
    pub sheet: GameSheet,
}

impl ArchivedGame<'_> {
    /// Has the line say this of the page.
    pub fn report_page(&mut self, page: PageField)
        ensures { self.new ≡ with_page self.old page }
    {
        self.fields.page = Some(page);
    }
}

/// What is told of the case of a game of this name.
fn report_case<'n>(
    alloc: Global,
    rules: &Rules,
    pair: &Checked<'_>,
    asked: &Asked<'_>,
    name: &'n str,
    case: Case,
) -> Result<ArchivedGame<'n>, AllocError>
    requires { HasItsWalk rules.now (list_in pair.now) case }
    ensures { IfOk result (λ game. (text : List ℕ) → IsCaseOf rules.now (list_in pair.now) text case
        → ReportsCase asked.now rules.now (list_in pair.now) name.entry text case game) }
{
    let mut case = case;
    let paged = asked.page.is_some();
    let likely = likely_asked(alloc, rules, pair, &mut case, asked.likely)?;
    let plain = case_fields(alloc, name, &case)?;
    let said = likely_said(alloc, asked.likely, &case, &likely)?;
    let words = words_asked(alloc, paged, &case)?;
    let sheet = sheet_of(alloc, rules, pair, asked, case, likely);
    let page = page_before(paged, &sheet);
    Ok(ArchivedGame {
        fields: with_asked(plain, page, said),
        words,
        sheet,
    })
}

/// Reads the record of the game of this name, and tells what is asked of it, by rules, a word list and its lexicon that were read before.
///
/// The input is read to its end, or to one byte past 1 MiB and no further.
///
/// The fields, the likely repair, the page and what the index says are of the bytes that the input gave.
///
/// # Errors
///
/// `ReadFailed` comes only if the input failed; `NoMemory` if memory was refused.
pub fn report_game<'n, G: Input>(
    alloc: Global,
    rules: &Rules,
    pair: &Checked<'_>,
    asked: &Asked<'_>,
    name: &'n str,
    game: &mut G,
) -> Result<ArchivedGame<'n>, RunFault>
    requires { HasRoom (G.device game.old) }
    ensures { IsRead most_bytes (G.device game.old) (G.device game.new) (IsReportedGame asked.now rules.now (list_in pair.now) name.entry) result }
{
    let case = open_case(alloc, rules, pair, game)?;
    Ok(report_case(alloc, rules, pair, asked, name, case)?)
}

/// What is told of the game of this name if its file could not be read.
pub fn unread_game<'n>(asked: &Asked<'_>, name: &'n str, why: Unread) -> ArchivedGame<'n>
    ensures { IsUnreadGame asked.now name.entry why result }
{
    let sheet = GameSheet::Unread(why);
    let page = page_before(asked.page.is_some(), &sheet);
    ArchivedGame {
        fields: with_asked(Fields::unread(name, why), page, none_said(asked.likely)),
        words: no_words(),
        sheet,
    }
}

/// What is told of the game of this name if there was no memory for its line.
pub(crate) fn lost_game<'n>(asked: &Asked<'_>, name: &'n str) -> ArchivedGame<'n>
    ensures { IsLostGame asked.now name.entry result }
{
    let mut game = unread_game(asked, name, Unread::NoMemory);
    if asked.page.is_some() {
        game.report_page(PageField::NoMemory);
    }
    game
}
