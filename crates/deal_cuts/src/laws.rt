//! Laws of the definitions that contracts cite. The functions do nothing: their contracts are the laws.
ghost use Rattle.deal_cuts.specs.Laws.{FrontsFit, FrontsDecide};

/// If racks fit the steps of a game, the first of them fit the first steps. So if no racks fit the steps up to a line, there is no
/// deal for the game.
pub fn law_of_fronts()
    ensures fit { FrontsFit }
    ensures decide { FrontsDecide }
{}
