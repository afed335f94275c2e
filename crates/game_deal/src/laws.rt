//! Laws of the definitions that the contracts of deals cite. Each function does nothing: its contract is the law.
ghost use Rattle.game_deal.specs.Laws.{AllowedIsRun, ExceedingHasNoDeal, FittingIsBounded, TilesAreAll};

use deal_steps::law_of_fitting;

/// If the rules allow every event of a record, its steps respect the sizes and the board of a whole game.
pub fn law_of_runs()
    ensures { AllowedIsRun }
{}

/// If some racks fit a record all of whose events the rules allow, no bound is exceeded: so each refusal of a bound is right.
pub fn law_of_bounds()
    ensures { FittingIsBounded }
{
    law_of_fitting();
}

/// If the rules allow every event of a record, and its racks exceed a bound, no racks fit its steps up to the event on the first line that exceeds one, that
/// event included.
pub fn law_of_bound_lines()
    ensures { ExceedingHasNoDeal }
{
    law_of_fitting();
}

/// If the rules allow every event of a record, then at each step the two racks, the bag and the board together have as many tiles
/// as the game: none is lost and none is added.
pub fn law_of_tiles()
    ensures { TilesAreAll }
{}
