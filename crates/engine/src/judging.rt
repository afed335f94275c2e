//! Whether the game of a record is legal, with its report.
ghost use Rattle.std.specs.Prelude.{ℕ, List, IfOk};
ghost use Rattle.game_turns.specs.{Passing.{rules_in, record_in}, Places.{AreAllowed}};
ghost use Rattle.lex_check.specs.Pairs as pairs;
ghost use Rattle.engine_stages.specs.declared.verdicts.Verdict.TheVariants as verdict;
ghost use Rattle.engine.specs.{Judging.{IsReportedLegal}, Settling.{IsFoundBy, IsJudgedBy}};
ghost use Rattle.engine_stages.specs.Reporting.{IsReported};
ghost use Rattle.engine_stages.specs.Reports as reports;

use crate::legal_reports::legal_report;
use engine_stages::{
    AskedGame, Decision, GameFault, GameQuestion, Verdict, illegal_line, unsettled_line,
};
use game_case::{Finding, settle_passed, try_passed};
use game_turns::{Passed, play_through};
use lex_check::Checked;
use std::alloc::{AllocError, Global};

/// The verdict that a game is illegal.
pub fn illegal(alloc: Global, line: u32, fault: GameFault) -> Result<Decision, AllocError>
    ensures { IfOk result (λ d. IsReported (verdict.Illegal line fault) (reports.illegal_line line fault) d.verdict d.report.items) }
{
    let report = illegal_line(alloc, line, &fault)?;
    Ok(Decision {
        verdict: Verdict::Illegal { line, fault },
        report,
        fault: None,
    })
}

/// The verdict that a game is legal.
fn legal(alloc: Global, passed: &Passed<'_>, pair: &Checked<'_>) -> Result<Decision, AllocError>
    ensures { IfOk result (λ d. IsReportedLegal (rules_in passed.now) (pairs.list_in pair.now) (record_in passed.now) d.verdict d.report.items) }
{
    let complete = passed.complete();
    let report = legal_report(alloc, passed, pair)?;
    Ok(Decision {
        verdict: Verdict::Legal { complete },
        report,
        fault: None,
    })
}

/// The verdict that no deal was found, and that none is ruled out.
fn unsettled(alloc: Global) -> Result<Decision, AllocError>
    ensures { IfOk result (λ d. IsReported verdict.Unsettled reports.unsettled_line d.verdict d.report.items) }
{
    let report = unsettled_line(alloc)?;
    Ok(Decision {
        verdict: Verdict::Unsettled,
        report,
        fault: None,
    })
}

/// What is found of a record in which every event is allowed, only by the deal of the rule of completion or by a search.
///
/// It fails only if memory runs out.
pub fn found_by(
    alloc: Global,
    passed: &Passed<'_>,
    question: Judging,
) -> Result<Finding, AllocError>
    ensures { IfOk result (λ f. (words : List (List ℕ)) → AreAllowed (rules_in passed.now) words (record_in passed.now).events
        → IsFoundBy question (rules_in passed.now) words (record_in passed.now).events f) }
{
    match question {
        Judging::ByRule => try_passed(alloc, passed),
        Judging::BySearch => settle_passed(alloc, passed),
    }
}

/// The verdict on a record in which every event is allowed, by what is found of it.
#[tactic(auto, using(crate::proofs::Settled::none_found, crate::proofs::Settled::judged_legal, crate::proofs::Settled::judged_illegal, crate::proofs::Settled::judged_open))]
fn judge_passed(
    alloc: Global,
    passed: &Passed<'_>,
    pair: &Checked<'_>,
    question: Judging,
) -> Result<Decision, AllocError>
    requires { AreAllowed (rules_in passed.now) (pairs.list_in pair.now) (record_in passed.now).events }
    ensures { IfOk result (λ d. IsJudgedBy question (rules_in passed.now) (pairs.list_in pair.now) (record_in passed.now) d.verdict d.report.items) }
{
    match found_by(alloc, passed, question)? {
        Finding::NoGame => unreachable!(),
        Finding::Legal { .. } => legal(alloc, passed, pair),
        Finding::Illegal { line, fault } => illegal(alloc, line, fault),
        Finding::Unsettled => unsettled(alloc),
    }
}

/// The verdict on a record, by the list of a pair.
#[tactic(auto, using(crate::proofs::Settled::judged_refused))]
fn judge_record(
    alloc: Global,
    asked: &AskedGame<'_>,
    question: Judging,
) -> Result<Decision, AllocError>
    ensures { IfOk result (λ d. IsJudgedBy question asked.now.rules.now (pairs.list_in asked.now.pair.now) asked.now.record.now d.verdict d.report.items) }
{
    match play_through(asked.rules, asked.record, asked.pair.list()) {
        Ok(passed) => judge_passed(alloc, &passed, asked.pair, question),
        Err((line, fault)) => illegal(alloc, line, GameFault::Rule(fault)),
    }
}

/// Whether the game is legal, and if so the best play of each turn.
#[derive(Clone, Copy, Debug)]
pub enum Judging {
    /// Only by the deal of the rule of completion.
    ByRule,
    /// By any deal that a search finds, or by a proof that there is none.
    BySearch,
}

impl GameQuestion for Judging {
    ghost use Rattle.engine.specs.Settling.{IsJudgedBy};
    ghost use Rattle.engine.specs.laws.Judging.{judged_by_own};

    ghost is_decided = { λ question rules words game v report. IsJudgedBy question rules words game v report };

    fn decide(&self, alloc: Global, asked: &AskedGame<'_>) -> Result<Decision, AllocError> {
        judge_record(alloc, asked, *self)
    }

    ghost own = { λ question rules words game v report is. judged_by_own question rules words game v report is };
}
