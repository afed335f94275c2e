//! What is found of the racks of a record that passed.
ghost use Rattle.std.specs.Prelude.{◌≡◌, ◌↔◌, IsTrue, IfOk, None};
ghost use Rattle.game_turns.specs.Passing.{rules_in, record_in};
ghost use Rattle.game_deal.specs.{Needing.{passed_of}, Plain.{HaveNoExchange}};
ghost use Rattle.game_deal.specs.Racks.{IsUndealtByRule, AreTried, AreFound};
ghost use Rattle.game_deal.specs.Verdicts.{IsDealt};

use crate::bounding::bounds;
use crate::completing::complete;
use crate::faults::exceeded_bound;
use crate::needs::Needs;
use crate::settling::{Settled, settle};
use deal_cuts::Earlier;
use deal_steps::DealBound;
use game_turns::Passed;
use std::alloc::{AllocError, Global};

/// What the bounds and the deal of the rule of completion say of the racks of a record that passed.
#[derive(Clone, Copy, Debug, PartialEq, Eq)]
pub enum RackTrial {
    /// The deal yields every rack.
    Dealt,
    /// The first bound that the racks exceed: so no deal yields them.
    PastBound(DealBound),
    /// No bound is exceeded, and the rule gives no deal that yields them.
    Open,
}

/// What is found of the racks of a record that passed, if a search is made too.
#[derive(Clone, Copy, Debug, PartialEq, Eq)]
pub enum RackFinding {
    /// Some deal of the tiles yields every rack.
    Dealt,
    /// The first bound that the racks exceed: so no deal yields them.
    PastBound(DealBound),
    /// No deal of the tiles yields the racks up to the event on this line, that one included.
    NoDeal {
        /// The line, counted from 1.
        line: u32,
        /// What is known of the racks before this event.
        earlier: Earlier,
    },
    /// The deal of the rule of completion does not yield the racks, and a search found neither a deal nor a proof that there is
    /// none.
    Unknown,
}

/// Whether the rule of completion gives a deal, and it fits.
#[tactic(auto, using(crate::proofs::Deals::deal_fits, crate::proofs::Deals::no_deal_fits, crate::proofs::Deals::plain_fits))]
fn is_dealt(alloc: Global, needs: &Needs<'_>) -> Result<bool, AllocError>
    ensures same { IfOk result (λ b. IsTrue b ↔ IsDealt (rules_in (passed_of needs.now)) (record_in (passed_of needs.now)).events) }
    ensures plain { IfOk result (λ b. HaveNoExchange (record_in (passed_of needs.now)).events → IsTrue b) }
{
    match complete(alloc, needs)? {
        Some(deal) => Ok(needs.is_fitted_by(&deal)),
        None => Ok(false),
    }
}

/// What the deal of the rule of completion says of racks that exceed no bound.
#[tactic(auto, using(crate::proofs::FoundRacks::tried_dealt, crate::proofs::FoundRacks::tried_open))]
fn try_needs(alloc: Global, needs: &Needs<'_>) -> Result<RackTrial, AllocError>
    ensures { IfOk result (AreTried (passed_of needs.now)) }
{
    if is_dealt(alloc, needs)? {
        Ok(RackTrial::Dealt)
    } else {
        Ok(RackTrial::Open)
    }
}

/// What the bounds and the deal of the rule of completion say of the racks of a record that passed. For a record without an
/// exchange it is never `Open`.
///
/// It fails only if memory runs out.
#[tactic(auto, using(crate::proofs::FoundRacks::tried_past))]
pub fn try_racks(alloc: Global, passed: &Passed<'_>) -> Result<RackTrial, AllocError>
    ensures { IfOk result (AreTried passed.now) }
{
    match bounds(alloc, passed) {
        Ok(needs) => try_needs(alloc, &needs),
        Err(fault) => Ok(RackTrial::PastBound(exceeded_bound(fault)?)),
    }
}

/// What a search finds for racks that exceed no bound, and that the deal of the rule does not yield.
#[tactic(auto, using(crate::proofs::FoundRacks::found_deal))]
fn search_racks(alloc: Global, needs: &Needs<'_>) -> Result<RackFinding, AllocError>
    requires { IsUndealtByRule (passed_of needs.now) }
    ensures { IfOk result (AreFound (passed_of needs.now)) }
{
    match settle(alloc, needs)? {
        Settled::Dealt(_) => Ok(RackFinding::Dealt),
        Settled::NoDeal { line, earlier } => Ok(RackFinding::NoDeal { line, earlier }),
        Settled::Unknown => Ok(RackFinding::Unknown),
    }
}

/// What is found of racks that exceed no bound by the deal of the rule of completion, and if that does not fit, by a search.
#[tactic(auto, using(crate::proofs::FoundRacks::dealt_found))]
fn settle_needs(alloc: Global, needs: &Needs<'_>) -> Result<RackFinding, AllocError>
    ensures { IfOk result (AreFound (passed_of needs.now)) }
{
    match try_needs(alloc, needs)? {
        RackTrial::Dealt => Ok(RackFinding::Dealt),
        RackTrial::PastBound(bound) => Ok(RackFinding::PastBound(bound)),
        RackTrial::Open => search_racks(alloc, needs),
    }
}

/// What is found of the racks of a record that passed: by the bounds, by the deal that is tried first, and by a search. For
/// a record without an exchange it is never `Unknown`.
///
/// It fails only if memory runs out.
#[tactic(auto, using(crate::proofs::FoundRacks::tried_past))]
pub fn settle_racks(alloc: Global, passed: &Passed<'_>) -> Result<RackFinding, AllocError>
    ensures { IfOk result (AreFound passed.now) }
{
    match bounds(alloc, passed) {
        Ok(needs) => settle_needs(alloc, &needs),
        Err(fault) => Ok(RackFinding::PastBound(exceeded_bound(fault)?)),
    }
}
