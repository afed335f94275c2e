//! A record of which only the numbers are wrong.
ghost use Rattle.std.specs.Prelude.{◌≡◌};
ghost use Rattle.repair_answers.specs.Choices.{alone_cost};

use game_walk::Numbers;
use repair_changes::remaining_cost;
use repair_single::Remains;

/// What is wrong with a record of which only the numbers are.
#[derive(Drop)]
pub struct NumbersAlone {
    /// Its wrong scores and totals, and its words that are not in the list.
    pub remains: Remains,
    /// The right score and total of each event.
    pub right: Vec<Numbers>,
    /// Whether some deal yields its racks. If not, neither a deal was found nor a proof that there is none.
    pub is_game: bool,
}

impl NumbersAlone {
    /// What it costs to correct the numbers: 5 for each, and 3 for each word that is not in the list.
    pub(crate) fn cost(&self) -> u128
        ensures { result ≡ alone_cost self.now }
    {
        remaining_cost(self.remains.wrong.len(), self.remains.unlisted.len())
    }
}
