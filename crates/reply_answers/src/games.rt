//! What is found of a game whose record is given as a text.
ghost use Rattle.std.specs.Prelude.{◌≡◌, IfOk};
ghost use Rattle.lex_check.specs.Pairs.{list_in};
ghost use Rattle.sheet_audit.specs.Answers.{IsAuditAnswerOf};
ghost use Rattle.game_case.specs.Explaining.{IsCaseOf};
ghost use Rattle.game_answers.specs.Boards.{IsBoardOf};
ghost use Rattle.game_answers.specs.Games.{IsJudgedGameOf};
ghost use Rattle.game_known.specs.Known.{AreKnown};
ghost use Rattle.gcg_unread.specs.Lines.{unread_of};
ghost use Rattle.reply_answers.specs.Given.{FailsForMemoryAlone, read_of};

use crate::records::GivenRecord;
use engine::Judging;
use engine_stages::{Decision, RunFault};
use game_answers::{JudgedGame, ShownBoard, judge_game_with, shown_board};
use game_case::{Case, open_case};
use game_known::KnownBests;
use gcg_unread::{UnreadLine, unread_lines};
use lex_check::Checked;
use ref_tiles::Rules;
use sheet_audit::{AuditAnswer, answer_audit};
use std::alloc::{AllocError, Global};

/// The judged game of a record: what `judge --json` finds, with the best plays that are known; with answers on its events only if `best` is true.
#[tactic(auto, using(crate::proofs::Reading::means_read))]
pub fn judged(
    alloc: Global,
    rules: &Rules,
    pair: &Checked<'_>,
    game: &[u8],
    question: Judging,
    best: bool,
    known: &mut KnownBests,
) -> Result<Result<JudgedGame, Decision>, RunFault>
    requires { AreKnown rules.now (list_in pair.now) known.old }
    ensures known { AreKnown rules.now (list_in pair.now) known.new }
    ensures judged { IfOk result (IsJudgedGameOf best question rules.now (list_in pair.now) (read_of game.now)) }
    ensures memory { FailsForMemoryAlone result }
{
    let mut input = GivenRecord::new(game);
    judge_game_with(alloc, rules, pair, &mut input, question, best, known)
}

/// The audit of a sheet: what `audit --json` finds.
#[tactic(auto, using(crate::proofs::Reading::means_read))]
pub fn audited(
    alloc: Global,
    rules: &Rules,
    pair: &Checked<'_>,
    game: &[u8],
) -> Result<Result<AuditAnswer, Decision>, RunFault>
    ensures found { IfOk result (IsAuditAnswerOf rules.now (list_in pair.now) (read_of game.now)) }
    ensures memory { FailsForMemoryAlone result }
{
    let mut input = GivenRecord::new(game);
    answer_audit(alloc, rules, pair, &mut input)
}

/// The case of a record, which `explain` and `page` are about.
#[tactic(auto, using(crate::proofs::Reading::means_read))]
pub fn case_in(
    alloc: Global,
    rules: &Rules,
    pair: &Checked<'_>,
    game: &[u8],
) -> Result<Case, RunFault>
    ensures found { IfOk result (IsCaseOf rules.now (list_in pair.now) (read_of game.now)) }
    ensures memory { FailsForMemoryAlone result }
{
    let mut input = GivenRecord::new(game);
    open_case(alloc, rules, pair, &mut input)
}

/// The board of a record, before a line if one is named: what `board --json` shows.
#[tactic(auto, using(crate::proofs::Reading::means_read))]
pub fn board_in(
    alloc: Global,
    rules: &Rules,
    game: &[u8],
    line: Option<u32>,
) -> Result<Result<Option<ShownBoard>, Decision>, RunFault>
    ensures found { IfOk result (IsBoardOf rules.now line (read_of game.now)) }
    ensures memory { FailsForMemoryAlone result }
{
    let mut input = GivenRecord::new(game);
    shown_board(alloc, rules, &mut input, line)
}

/// The lines of a case that are not read although they look like events.
pub fn unread_in(alloc: Global, case: &Case) -> Result<Vec<UnreadLine>, AllocError>
    ensures { IfOk result (λ lines. lines.items ≡ unread_of case.now.text.items) }
{
    let lines = unread_lines(alloc, case.text.as_slice())?;
    Ok(lines)
}
