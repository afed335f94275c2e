//! The verdict on a record, with what is answered for its events.
ghost use Rattle.std.specs.Prelude.{◌≡◌, IfOk, None};
ghost use Rattle.game_turns.specs.{Passing.{rules_in, record_in}, Places.{AreAllowed}};
ghost use Rattle.lex_check.specs.Pairs.{list_in};
ghost use Rattle.game_known.specs.Known.{AreKnown};
ghost use Rattle.game_answers.specs.Bounds.{refused_verdict};
ghost use Rattle.game_answers.specs.Games.{AreAnswered, IsJudged};

use crate::answers::answers_with;
use crate::leaving::{GameAnswers, with_remaining};
use crate::verdicts::verdict_on;
use engine::Judging;
use engine_stages::{GameFault, Verdict};
use game_known::KnownBests;
use game_turns::{Passed, RuleFault, play_through};
use gcg_read::Record;
use lex_check::Checked;
use ref_tiles::Rules;
use std::alloc::{AllocError, Global};

/// A verdict on a record, with what is answered for its events.
#[derive(Drop)]
pub(crate) struct Judged {
    pub verdict: Verdict,
    pub answers: Option<GameAnswers>,
}

/// The verdict that an event is not allowed.
fn refused(line: u32, fault: RuleFault) -> Judged
    ensures verdict { result.verdict ≡ refused_verdict line fault }
    ensures answers { result.answers ≡ None }
{
    Judged {
        verdict: Verdict::Illegal {
            line,
            fault: GameFault::Rule(fault),
        },
        answers: None,
    }
}

/// What is answered for each event of a record that passed, if that is asked for.
#[tactic(auto, using(crate::proofs::VerdictLaws::answered_all))]
fn answers_asked(
    alloc: Global,
    passed: &Passed<'_>,
    pair: &Checked<'_>,
    best: bool,
    known: &mut KnownBests,
) -> Result<Option<GameAnswers>, AllocError>
    requires allowed { AreAllowed (rules_in passed.now) (list_in pair.now) (record_in passed.now).events }
    requires known { AreKnown (rules_in passed.now) (list_in pair.now) known.old }
    ensures known { AreKnown (rules_in passed.now) (list_in pair.now) known.new }
    ensures answered { IfOk result (AreAnswered best (rules_in passed.now) (list_in pair.now) (record_in passed.now).events) }
{
    if !best {
        return Ok(None);
    }
    let answers = answers_with(alloc, passed, pair, known)?;
    Ok(Some(with_remaining(passed.record().events.as_slice(), answers)))
}

/// The verdict on a record that passed, and what is answered for its events.
#[tactic(auto, using(crate::proofs::VerdictLaws::judged_with))]
fn judged_passed(
    alloc: Global,
    passed: &Passed<'_>,
    pair: &Checked<'_>,
    question: Judging,
    best: bool,
    known: &mut KnownBests,
) -> Result<Judged, AllocError>
    requires allowed { AreAllowed (rules_in passed.now) (list_in pair.now) (record_in passed.now).events }
    requires known { AreKnown (rules_in passed.now) (list_in pair.now) known.old }
    ensures known { AreKnown (rules_in passed.now) (list_in pair.now) known.new }
    ensures judged { IfOk result (λ j. IsJudged best question (rules_in passed.now) (list_in pair.now) (record_in passed.now) j.verdict j.answers) }
{
    let verdict = verdict_on(alloc, passed, pair, question)?;
    let answers = answers_asked(alloc, passed, pair, best, known)?;
    Ok(Judged { verdict, answers })
}

/// The verdict on a record, and if that is asked for and the rules allow every event, what is answered for each.
#[tactic(auto, using(crate::proofs::VerdictLaws::judged_refused))]
pub(crate) fn judge_record(
    alloc: Global,
    rules: &Rules,
    pair: &Checked<'_>,
    game: &Record,
    question: Judging,
    best: bool,
    known: &mut KnownBests,
) -> Result<Judged, AllocError>
    requires { AreKnown rules.now (list_in pair.now) known.old }
    ensures known { AreKnown rules.now (list_in pair.now) known.new }
    ensures judged { IfOk result (λ j. IsJudged best question rules.now (list_in pair.now) game.now j.verdict j.answers) }
{
    match play_through(rules, game, pair.list()) {
        Ok(passed) => judged_passed(alloc, &passed, pair, question, best, known),
        Err((line, fault)) => Ok(refused(line, fault)),
    }
}
