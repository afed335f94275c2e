//! What is found of a record, with its lines that are not read.
ghost use Rattle.std.specs.Prelude.{◌≡◌, IfOk};
ghost use Rattle.lex_check.specs.Pairs.{list_in};
ghost use Rattle.game_known.specs.Known.{AreKnown};
ghost use Rattle.reply_answers.specs.Given.{FailsForMemoryAlone, judging_by};
ghost use Rattle.reply_answers.specs.ReadSheets.{IsJudgedSheet, IsShownSheet};

use crate::games::{board_in, judged};
use engine::Judging;
use engine_stages::{Decision, RunFault};
use game_answers::{JudgedGame, ShownBoard};
use game_known::KnownBests;
use gcg_unread::{UnreadLine, unread_lines};
use lex_check::Checked;
use ref_tiles::Rules;
use std::alloc::Global;

/// A judged game of a record, and which lines of the record are not read although they look like events.
#[derive(Drop)]
pub struct JudgedSheet {
    /// The judged game, or that the text is not a record.
    pub found: Result<JudgedGame, Decision>,
    /// The lines that are not read.
    pub unread: Vec<UnreadLine>,
}

/// The board of a record, and which lines of the record are not read although they look like events.
#[derive(Drop)]
pub struct ShownSheet {
    /// The board, if there is an event on the line or after it; or that the text is not a record.
    pub found: Result<Option<ShownBoard>, Decision>,
    /// The lines that are not read.
    pub unread: Vec<UnreadLine>,
}

/// How a game is judged, with a search for a deal or without.
fn judging_by(settle: bool) -> Judging
    ensures { result ≡ judging_by settle }
{
    if settle {
        Judging::BySearch
    } else {
        Judging::ByRule
    }
}

/// The judged game of a record: what `judge --json` finds, with answers on its events if `best` is true. Best plays that are known are not looked for
/// again.
pub fn judged_sheet(
    alloc: Global,
    rules: &Rules,
    pair: &Checked<'_>,
    game: &[u8],
    settle: bool,
    best: bool,
    known: &mut KnownBests,
) -> Result<JudgedSheet, RunFault>
    requires { AreKnown rules.now (list_in pair.now) known.old }
    ensures known { AreKnown rules.now (list_in pair.now) known.new }
    ensures judged { IfOk result (IsJudgedSheet best settle rules.now (list_in pair.now) game.now) }
    ensures memory { FailsForMemoryAlone result }
{
    let question = judging_by(settle);
    let found = judged(alloc, rules, pair, game, question, best, known)?;
    let unread = unread_lines(alloc, game)?;
    Ok(JudgedSheet { found, unread })
}

/// The board of a record, before a line if one is named: what `board --json` shows.
pub fn shown_sheet(
    alloc: Global,
    rules: &Rules,
    game: &[u8],
    line: Option<u32>,
) -> Result<ShownSheet, RunFault>
    ensures shown { IfOk result (IsShownSheet rules.now line game.now) }
    ensures memory { FailsForMemoryAlone result }
{
    let found = board_in(alloc, rules, game, line)?;
    let unread = unread_lines(alloc, game)?;
    Ok(ShownSheet { found, unread })
}
