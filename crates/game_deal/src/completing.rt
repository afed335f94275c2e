//! The deal with which a record is tried first.
ghost use Rattle.std.specs.Prelude.{◌≡◌, IfOk, IsSomeAnd};
ghost use Rattle.game_turns.specs.Passing.{rules_in, record_in};
ghost use Rattle.deal_completion.specs.Completion.{dealt};
ghost use Rattle.game_deal.specs.Plain.{HaveNoExchange};
ghost use Rattle.game_deal.specs.Bounded.{steps_in, FitsRecord};
ghost use Rattle.game_deal.specs.Needing.{passed_of};

use crate::laws::law_of_runs;
use crate::needs::Needs;
use deal_completion::complete_steps;
use deal_steps::Deal;
use std::alloc::Global;

/// Memory ran out.
pub use std::alloc::AllocError as NoMemory;

/// The deal with which a record is tried, by a fixed rule: each draw gives a player what the player's later lines ask for, and then
/// tiles that the other player's lines do not ask for. None if a rack then lacks what a line asks for.
///
/// If no event is an exchange of either kind, there is a deal, and it fits.
pub fn complete(alloc: Global, needs: &Needs<'_>) -> Result<Option<Deal>, NoMemory>
    ensures dealt { IfOk result (λ deal. deal ≡ dealt (rules_in (passed_of needs.now)) (steps_in (passed_of needs.now))) }
    ensures plain { IfOk result (λ deal. HaveNoExchange (record_in (passed_of needs.now)).events
        → IsSomeAnd deal (FitsRecord (passed_of needs.now))) }
{
    law_of_runs();
    complete_steps(alloc, needs.passed().rules(), needs.as_slice())
}
