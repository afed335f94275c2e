//! Laws of the definitions that contracts cite. The functions do nothing: their contracts are the laws.
ghost use Rattle.deal_steps.specs.Laws.{FittingIsBounded, GoneIsSum, LowIsMost, LowIsReached};

/// If some racks fit the steps of a game, no bound is exceeded.
pub fn law_of_fitting()
    ensures { FittingIsBounded }
{}

/// What the bounds count, by the steps of a player's present epoch, which begins after the player's latest exchange of unknown
/// tiles: what left the rack is the sum over these steps, and what was shown is, for each kind, the most that one of their moments
/// shows, plus what left the rack before that moment.
pub fn law_of_epochs()
    ensures gone { GoneIsSum }
    ensures most { LowIsMost }
    ensures reached { LowIsReached }
{}
