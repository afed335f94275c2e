//! Whether the right events of a record are a game.
ghost use Rattle.std.specs.Prelude.{IfOk};
ghost use Rattle.game_turns.specs.Passing.{rules_in, record_in, list_in};
ghost use Rattle.game_turns.specs.Places.{AreAllowed};
ghost use Rattle.repair_single.specs.Settling.{IsOutcome};

use crate::outcome::Outcome;
use deal_cuts::law_of_fronts;
use game_deal::{RackFinding, law_of_bounds, settle_racks};
use game_turns::{Passed, play_through};
use gcg_read::Record;
use lex_list::WordList;
use ref_tiles::Rules;
use std::alloc::{AllocError, Global};

/// What is found of the racks of a record that passed.
#[tactic(auto, using(game_deal::proofs::Outcomes::a_game, game_deal::proofs::Outcomes::none_past, game_deal::proofs::Outcomes::none_by, game_deal::proofs::FoundRacks::remains_open))]
fn outcome_of(alloc: Global, passed: &Passed<'_>) -> Result<Outcome, AllocError>
    requires { AreAllowed (rules_in passed.now) (list_in passed.now) (record_in passed.now).events }
    ensures { IfOk result (IsOutcome (rules_in passed.now) (list_in passed.now) (record_in passed.now).events) }
{
    law_of_bounds();
    law_of_fronts();
    match settle_racks(alloc, passed)? {
        RackFinding::Dealt => Ok(Outcome::Game),
        RackFinding::PastBound(_) => Ok(Outcome::NoGame),
        RackFinding::NoDeal { .. } => Ok(Outcome::NoGame),
        RackFinding::Unknown => Ok(Outcome::Unsettled),
    }
}

/// What is found of a record in which the rules allow every event.
///
/// It fails only if memory runs out.
pub(crate) fn settled(
    alloc: Global,
    rules: &Rules,
    list: &WordList,
    game: &Record,
) -> Result<Outcome, AllocError>
    requires { AreAllowed rules.now list.now game.now.events }
    ensures { IfOk result (IsOutcome rules.now list.now game.now.events) }
{
    match play_through(rules, game, list) {
        Ok(passed) => outcome_of(alloc, &passed),
        Err(_) => unreachable!(),
    }
}
