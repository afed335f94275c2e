//! What stays wrong with a change.
ghost use Rattle.std.specs.Prelude.{◌≡◌, ◌+◌, length};

use game_corrections::WrongNumber;
use game_turns::SpelledWord;
use repair_changes::{Slip, remaining_cost, weight_of};

/// What stays wrong with a change, once the numbers are corrected.
#[derive(Drop)]
pub struct Remains {
    /// The scores and the sums of the sheet that are not those of the rules.
    pub wrong: Vec<WrongNumber>,
    /// The words that stand and are not in the list.
    pub unlisted: Vec<SpelledWord>,
}

impl Remains {
    ghost use Rattle.repair_single.specs.Costs.{costs};

    /// How many numbers and words these are.
    pub fn many(&self) -> u128
        ensures { result ≡ length self.now.wrong.items + length self.now.unlisted.items }
    {
        self.wrong.len() as u128 + self.unlisted.len() as u128
    }

    /// What a slip costs if these stay wrong with it.
    pub fn cost(&self, slip: &Slip) -> u128
        ensures { result ≡ costs (length self.now.wrong.items) (length self.now.unlisted.items) slip.now }
    {
        remaining_cost(self.wrong.len(), self.unlisted.len()) + weight_of(slip) as u128
    }
}
