//! The verdict on a record of which the rules allow every event, without its report.
ghost use Rattle.std.specs.Prelude.{◌≡◌, IfOk};
ghost use Rattle.game_turns.specs.{Passing.{rules_in, record_in}, Places.{AreAllowed}};
ghost use Rattle.lex_check.specs.Pairs.{list_in};
ghost use Rattle.game_answers.specs.Games.{IsVerdictOn};

use engine::{Judging, found_by};
use engine_stages::Verdict;
use game_case::verdict_in;
use game_turns::Passed;
use lex_check::Checked;
use std::alloc::{AllocError, Global};

/// The verdict on a record of which the rules allow every event, by the deal of the rule of completion or by a search.
///
/// It fails only if memory runs out.
pub(crate) fn verdict_on(
    alloc: Global,
    passed: &Passed<'_>,
    pair: &Checked<'_>,
    question: Judging,
) -> Result<Verdict, AllocError>
    requires { AreAllowed (rules_in passed.now) (list_in pair.now) (record_in passed.now).events }
    ensures { IfOk result (IsVerdictOn question (rules_in passed.now) (list_in pair.now) (record_in passed.now)) }
{
    let _ = pair;
    let found = found_by(alloc, passed, question)?;
    Ok(verdict_in(&found))
}
