//! The best plays by a rack on the board after a record.
ghost use Rattle.std.specs.Prelude.{IfOk};
ghost use Rattle.game_turns.specs.Passing.{rules_in, record_in};
ghost use Rattle.game_turns.specs.Places.{AreAllowed};
ghost use Rattle.lex_check.specs.Pairs.{list_in};
ghost use Rattle.engine.specs.Topping.{IsToppedOn};

use crate::judging::illegal;
use engine_stages::{AskedGame, Decision, GameFault, GameQuestion, Verdict};
use game_report::top_report;
use game_turns::{Passed, play_through};
use lex_check::Checked;
use ref_tiles::Counts;
use std::alloc::{AllocError, Global};

/// The best plays by a rack on the board after a record in which every event is allowed.
#[tactic(auto, using(crate::proofs::Toppings::topped))]
fn report_top(
    alloc: Global,
    passed: &Passed<'_>,
    pair: &Checked<'_>,
    rack: &Counts,
) -> Result<Decision, AllocError>
    requires { AreAllowed (rules_in passed.now) (list_in pair.now) (record_in passed.now).events }
    ensures { IfOk result (λ d. IsToppedOn (rules_in passed.now) (list_in pair.now) rack.now (record_in passed.now) d.verdict d.report.items) }
{
    let report = top_report(alloc, passed, pair, rack)?;
    Ok(Decision {
        verdict: Verdict::Done,
        report,
        fault: None,
    })
}

/// The best plays by a rack on the board after a record, or the verdict that an event of it is not allowed.
#[tactic(auto, using(crate::proofs::Toppings::topped_refused))]
fn top_record(alloc: Global, asked: &AskedGame<'_>, rack: &Counts) -> Result<Decision, AllocError>
    ensures { IfOk result (λ d. IsToppedOn asked.now.rules.now (list_in asked.now.pair.now) rack.now asked.now.record.now d.verdict d.report.items) }
{
    match play_through(asked.rules, asked.record, asked.pair.list()) {
        Ok(passed) => report_top(alloc, &passed, asked.pair, rack),
        Err((line, fault)) => illegal(alloc, line, GameFault::Rule(fault)),
    }
}

/// The best plays by a rack on the board after the record.
#[derive(Clone, Copy, Debug)]
pub struct BestPlays {
    /// The tiles of the rack.
    pub rack: Counts,
}

impl GameQuestion for BestPlays {
    ghost use Rattle.engine.specs.Topping.{IsToppedOn};
    ghost use Rattle.engine.specs.laws.BestPlays.{topped_own};

    ghost is_decided = { λ question rules words game v report. IsToppedOn rules words question.rack game v report };

    fn decide(&self, alloc: Global, asked: &AskedGame<'_>) -> Result<Decision, AllocError> {
        top_record(alloc, asked, &self.rack)
    }

    ghost own = { λ question rules words game v report is. topped_own rules words question.rack game v report is };
}
