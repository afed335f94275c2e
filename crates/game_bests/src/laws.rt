//! A law about the value of a best play. The function does nothing: its contract is the law.
ghost use Rattle.game_bests.specs.Reportings.{BestsAreReported};

/// The value of a best play has the text that the line of its event has in the report of `judge`, by the state before the event.
#[tactic(auto, using(crate::proofs::Reportings::reports_best))]
pub fn law_of_bests()
    ensures { BestsAreReported }
{}
