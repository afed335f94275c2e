//! What is found of a record in which the rules allow every event.
ghost use Rattle.std.specs.Prelude.{◌≡◌, ℕ, List, IfOk};
ghost use Rattle.game_turns.specs.Passing.{rules_in, record_in};
ghost use Rattle.game_turns.specs.Places.{AreAllowed};
ghost use Rattle.game_case.specs.Archiving.{past_bound};
ghost use Rattle.game_case.specs.Settling.{IsTriedAs, IsSettledAs};

use crate::findings::Finding;
use engine_stages::GameFault;
use game_deal::{DealBound, RackFinding, RackTrial, law_of_bounds, settle_racks, try_racks};
use game_turns::Passed;
use std::alloc::{AllocError, Global};

/// What is found of a game whose racks exceed a bound.
fn past_bound(bound: &DealBound) -> Finding
    ensures { result ≡ past_bound bound.now }
{
    match bound {
        DealBound::RackTooBig { line } => Finding::Illegal {
            line: *line,
            fault: GameFault::RackTooBig,
        },
        DealBound::TilesShort { line, kind } => Finding::Illegal {
            line: *line,
            fault: GameFault::TilesShort(*kind),
        },
    }
}

/// What is found of a record that passed, only by the deal of the rule of completion. A record without an event is judged like any other.
///
/// It fails only if memory runs out.
pub fn try_passed(alloc: Global, passed: &Passed<'_>) -> Result<Finding, AllocError>
    ensures { IfOk result (λ f. (list : List (List ℕ)) → AreAllowed (rules_in passed.now) list (record_in passed.now).events
        → IsTriedAs (rules_in passed.now) list (record_in passed.now).events f) }
{
    law_of_bounds();
    match try_racks(alloc, passed)? {
        RackTrial::Dealt => Ok(Finding::Legal {
            complete: passed.complete(),
        }),
        RackTrial::PastBound(bound) => Ok(past_bound(&bound)),
        RackTrial::Open => Ok(Finding::Unsettled),
    }
}

/// The same by any deal that a search finds, or by a proof that there is none.
///
/// It fails only if memory runs out.
pub fn settle_passed(alloc: Global, passed: &Passed<'_>) -> Result<Finding, AllocError>
    ensures { IfOk result (λ f. (list : List (List ℕ)) → AreAllowed (rules_in passed.now) list (record_in passed.now).events
        → IsSettledAs (rules_in passed.now) list (record_in passed.now).events f) }
{
    law_of_bounds();
    match settle_racks(alloc, passed)? {
        RackFinding::Dealt => Ok(Finding::Legal {
            complete: passed.complete(),
        }),
        RackFinding::PastBound(bound) => Ok(past_bound(&bound)),
        RackFinding::NoDeal { line, earlier } => Ok(Finding::Illegal {
            line,
            fault: GameFault::NoDeal { earlier },
        }),
        RackFinding::Unknown => Ok(Finding::Unsettled),
    }
}
