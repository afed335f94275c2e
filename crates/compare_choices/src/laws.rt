//! Laws about comparisons. Each function does nothing: its contract is the law.
ghost use Rattle.compare_choices.specs.Laws.{HasItsEvents, IsAheadAlone};

/// If the best choice has no rivals and nothing is left open, each other one that makes a game costs more.
#[tactic(auto, using(crate::proofs::Ahead::best_ahead))]
pub fn law_of_bests()
    ensures { IsAheadAlone }
{}

/// Any choice between a sheet and itself has the events of the sheet.
#[tactic(auto, using(crate::proofs::Ahead::own_events))]
pub fn law_of_own_sheets()
    ensures { HasItsEvents }
{}
