//! The judged game of a record, by the bytes of its input.
ghost use Rattle.std.specs.Prelude.{IfOk};
ghost use Rattle.io_devices.specs.Devices.{HasRoom};
ghost use Rattle.gcg_read.specs.Records.{most_bytes};
ghost use Rattle.lex_check.specs.Pairs.{list_in};
ghost use Rattle.engine_stages.specs.Stages.{IsRead};
ghost use Rattle.game_known.specs.Known.{AreKnown};
ghost use Rattle.game_answers.specs.Games.{IsJudgedGame, IsJudgedGameOf};

use crate::judging::judge_record;
use crate::leaving::GameAnswers;
use engine::Judging;
use engine_stages::{Decision, RunFault, Verdict, read_text, record_from};
use game_known::KnownBests;
use gcg_read::{Events, MAX_BYTES, Players, Record};
use io_devices::Input;
use lex_check::Checked;
use ref_tiles::Rules;
use std::alloc::{AllocError, Global};

/// A judged game.
#[derive(Drop)]
pub struct JudgedGame {
    /// The players.
    pub players: Players,
    /// The events, as they are written.
    pub events: Events,
    /// Whether the game is legal, and what is wrong with it.
    pub verdict: Verdict,
    /// What is answered for the events, if that is asked for and the rules allow every one.
    pub answers: Option<GameAnswers>,
}

/// The judged game of a record.
fn judged_game(
    alloc: Global,
    rules: &Rules,
    pair: &Checked<'_>,
    game: Record,
    question: Judging,
    best: bool,
    known: &mut KnownBests,
) -> Result<JudgedGame, AllocError>
    requires { AreKnown rules.now (list_in pair.now) known.old }
    ensures known { AreKnown rules.now (list_in pair.now) known.new }
    ensures judged { IfOk result (IsJudgedGame best question rules.now (list_in pair.now) game) }
{
    let found = judge_record(alloc, rules, pair, &game, question, best, known)?;
    Ok(JudgedGame {
        players: game.players,
        events: game.events,
        verdict: found.verdict,
        answers: found.answers,
    })
}

/// The judged game of the record of a text, or the verdict that it is not a record.
fn judged_from(
    alloc: Global,
    rules: &Rules,
    pair: &Checked<'_>,
    text: &[u8],
    question: Judging,
    best: bool,
    known: &mut KnownBests,
) -> Result<Result<JudgedGame, Decision>, AllocError>
    requires { AreKnown rules.now (list_in pair.now) known.old }
    ensures known { AreKnown rules.now (list_in pair.now) known.new }
    ensures judged { IfOk result (IsJudgedGameOf best question rules.now (list_in pair.now) text.now) }
{
    let written = match record_from(alloc, text)? {
        Ok(record) => record,
        Err(decision) => return Ok(Err(decision)),
    };
    let judged = judged_game(alloc, rules, pair, written, question, best, known)?;
    Ok(Ok(judged))
}

/// Reads the record of a game and judges it, only by the deal of the rule of completion or by a search: what [`run`](engine::run) or
/// [`run_settled`](engine::run_settled) finds, as a value. Or the verdict that names the first fault of the record. Only if `best` is true are there answers
/// on the events, and are best plays looked for; the verdict is the same. Best plays that are known are not searched for, and those that are found are
/// known from then on; what is found of the game does not depend on them.
///
/// The input is read to its end, or to one byte past 1 MiB and no further.
///
/// The report that is written only from it is one that `run`, or `run_settled`, gives of the record with this verdict. The points that a player left
/// are the sum of what best plays would have given more; there is none exactly if it is 2^64 or more.
///
/// # Errors
///
/// `ReadFailed` comes only if the input failed; `NoMemory` if memory was refused.
pub fn judge_game_with<G: Input>(
    alloc: Global,
    rules: &Rules,
    pair: &Checked<'_>,
    game: &mut G,
    question: Judging,
    best: bool,
    known: &mut KnownBests,
) -> Result<Result<JudgedGame, Decision>, RunFault>
    requires room { HasRoom (G.device game.old) }
    requires known { AreKnown rules.now (list_in pair.now) known.old }
    ensures read { IsRead most_bytes (G.device game.old) (G.device game.new) (IsJudgedGameOf best question rules.now (list_in pair.now)) result }
    ensures known { AreKnown rules.now (list_in pair.now) known.new }
{
    let text = read_text(alloc, game, MAX_BYTES)?;
    Ok(judged_from(alloc, rules, pair, &text, question, best, known)?)
}
