//! What repairs choices that do not make a game.
ghost use Rattle.std.specs.Prelude.{◌≡◌};
ghost use Rattle.std.specs.Option.{option_copied};
ghost use Rattle.compare_repaired.specs.Repaired.{first_of};

use gcg_read::Events;
use repair_single::{Found, Repair};

/// A choice that was tried, and what repairs it.
#[derive(Drop)]
pub struct RepairedChoice {
    /// The choice.
    pub choice: usize,
    /// Its events.
    pub written: Events,
    /// Fewer numbers and words than these stay wrong with each of the repairs, if a number is given.
    pub below: Option<usize>,
    /// Its first two repairs, and the changes that are not known to be repairs or not.
    pub found: Found,
}

/// The choice with the cheapest repair, of those that were tried.
#[derive(Clone, Copy)]
pub struct BestRepair {
    /// Its number among those that were tried.
    pub index: usize,
    /// Whether the last racks are in with its first repair.
    pub complete: bool,
    /// Whether each other repair of a choice that was tried costs more or makes a record of the same game.
    pub ahead: bool,
    /// Whether each change of the choices that were tried was tried too, and none is left open.
    pub settled: bool,
}

/// Choices that were tried, and the best of them.
#[derive(Drop)]
pub struct RepairedChoices {
    /// The choices.
    pub tried: Vec<RepairedChoice>,
    /// One whose first repair costs the least; `None` if no choice has a repair.
    pub best: Option<BestRepair>,
}

/// The first repair of a choice, if it has one.
pub(crate) fn first_of(choice: &RepairedChoice) -> Option<&Repair>
    ensures { option_copied result ≡ first_of choice.now }
{
    choice.found.reported.as_slice().first()
}

impl RepairedChoices {
    ghost use Rattle.compare_repaired.specs.Repaired.{best_choice, best_repair};

    /// The choice with the cheapest repair, if there is one.
    pub fn best_choice(&self) -> Option<&RepairedChoice>
        ensures { option_copied result ≡ best_choice self.now }
    {
        match &self.best {
            Some(best) => self.tried.as_slice().get(best.index),
            None => None,
        }
    }

    /// The cheapest repair, if there is one.
    pub fn best_repair(&self) -> Option<&Repair>
        ensures { option_copied result ≡ best_repair self.now }
    {
        match self.best_choice() {
            Some(choice) => first_of(choice),
            None => None,
        }
    }
}
