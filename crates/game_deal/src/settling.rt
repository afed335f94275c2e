//! Whether some deal fits a record, by a search whose answer is checked.
ghost use Rattle.std.specs.Prelude.{◌≡◌, ◌+◌, ◌-◌, ◌<◌, vec_len, IfOk};
ghost use Rattle.game_turns.specs.Passing.{rules_in};
ghost use Rattle.deal_search.specs.Settling.{EndsDeals, IsKnownOf};
ghost use Rattle.game_deal.specs.Bounded.{steps_in};
ghost use Rattle.game_deal.specs.Needing.{passed_of};
ghost use Rattle.game_deal.specs.Settling.{IsSettledOf};

use crate::needs::Needs;
use deal_cuts::{Cut, Earlier};
use deal_search::{Settling, settle as settle_steps};
use deal_steps::Deal;
use std::alloc::{AllocError, Global};

/// What is known about the deals of a record.
#[derive(Debug, Drop)]
pub enum Settled {
    /// This deal fits.
    Dealt(Deal),
    /// No racks fit the steps up to and including the event on this line, so there is no deal for the record.
    NoDeal {
        /// The line, counted from 1.
        line: u32,
        /// What is known about the steps before this event.
        earlier: Earlier,
    },
    /// Neither was found within the budget.
    Unknown,
}

/// The place of the last event for which a cut has places, from 0.
fn last_place(cut: &Cut) -> usize
    requires { 0 < vec_len cut.now.places }
    ensures { result + 1 ≡ vec_len cut.now.places }
{
    cut.places.len() - 1
}

/// That there is no deal, by a cut, with the line of the last event for which it has places.
#[tactic(auto, using(crate::proofs::SettledRecords::place_within))]
fn no_deal(needs: &Needs<'_>, cut: &Cut, earlier: Earlier) -> Settled
    requires ends { EndsDeals (rules_in (passed_of needs.now)) (steps_in (passed_of needs.now)) (vec_len cut.now.places) }
    requires known { IsKnownOf (rules_in (passed_of needs.now)) (steps_in (passed_of needs.now)) (vec_len cut.now.places - 1) earlier }
    ensures { IsSettledOf (passed_of needs.now) result }
{
    let events = needs.passed().record().events.as_slice();
    let place = last_place(cut);
    Settled::NoDeal {
        line: events[place].line,
        earlier,
    }
}

/// Settles whether some deal fits a record. If none does, the line is the first up to which the search finds a proof of it, and the
/// answer says whether racks fit the steps before it. It fails only if memory runs out.
pub fn settle(alloc: Global, needs: &Needs<'_>) -> Result<Settled, AllocError>
    ensures { IfOk result (IsSettledOf (passed_of needs.now)) }
{
    match settle_steps(alloc, needs.passed().rules(), needs.as_slice())? {
        Settling::Dealt(deal) => Ok(Settled::Dealt(deal)),
        Settling::NoDeal { cut, earlier } => Ok(no_deal(needs, &cut, earlier)),
        Settling::Unknown => Ok(Settled::Unknown),
    }
}
