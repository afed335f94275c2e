//! What the lines of a record require of the racks, if no bound is exceeded.
ghost use Rattle.std.specs.Prelude.{◌≡◌, ◌↔◌, IsTrue};
ghost use Rattle.game_deal.specs.Bounded.{steps_in, IsBounded, FitsRecord};
ghost use Rattle.game_deal.specs.Stepping.{passed_in};

use crate::steps::Steps;
use deal_steps::{Deal, Step, fits as fits_steps};
use game_turns::Passed;

/// What the lines of a record that passed require of the racks, if no bound is exceeded: the record with its rules and its list,
/// and for each event its step, with the line, the holder and the tiles of a rack that is judged there.
#[derive(Drop)]
pub struct Needs<'a> {
    pub(crate) steps: Steps<'a>,
    ghost bounded: { IsBounded (passed_in steps) },
}

impl<'a> Needs<'a> {
    ghost use Rattle.game_deal.specs.Needing.{passed_of};

    /// The record. It exceeds no bound.
    pub fn passed(&self) -> &'a Passed<'a>
        ensures passed { result.now ≡ passed_of self.now }
        ensures bounded { IsBounded (passed_of self.now) }
    {
        self.steps.passed()
    }

    /// Its steps, event by event.
    pub fn as_slice(&self) -> &[Step]
        ensures { result.now ≡ steps_in (passed_of self.now) }
    {
        self.steps.as_slice()
    }

    /// Whether a deal fits the record: what [`fits`](crate::fits) answers, by the steps that are kept.
    pub fn is_fitted_by(&self, deal: &Deal) -> bool
        ensures { IsTrue result ↔ FitsRecord (passed_of self.now) deal.now }
    {
        fits_steps(self.passed().rules(), self.as_slice(), deal.as_slice())
    }
}
