//! The steps of a record that passed, made once and kept.
ghost use Rattle.std.specs.Prelude.{◌≡◌, ◌++◌, ◌∷◌, [], IfOk, OnOk};
ghost use Rattle.game_deal.specs.Bounded.{steps_in};

use crate::walking::{starting, take_step};
use deal_steps::{Act, Motion, Step};
use game_turns::Passed;
use std::alloc::{AllocError, Global};

/// The steps of a record that passed: for each event, what it means for the racks.
#[derive(Drop)]
pub struct Steps<'a> {
    passed: &'a Passed<'a>,
    steps: Vec<Step>,
    ghost are: { steps.items ≡ steps_in passed.now },
}

impl<'a> Steps<'a> {
    ghost use Rattle.game_deal.specs.Stepping.{passed_in};

    /// The steps of a record.
    pub fn of(alloc: Global, passed: &'a Passed<'a>) -> Result<Steps<'a>, AllocError>
        ensures { IfOk result (λ steps. passed_in steps ≡ passed.now) }
    {
        let steps = all_steps(alloc, passed)?;
        Ok(Steps { passed, steps })
    }

    /// The record.
    pub fn passed(&self) -> &'a Passed<'a>
        ensures { result.now ≡ passed_in self.now }
    {
        self.passed
    }

    /// Its steps, event by event.
    pub fn as_slice(&self) -> &[Step]
        ensures { result.now ≡ steps_in (passed_in self.now) }
    {
        self.steps.as_slice()
    }
}

/// Appends an item.
fn append<T: Drop>(list: &mut Vec<T>, item: T) -> Result<(), AllocError>
    ensures { OnOk result (list.new.items ≡ list.old.items ++ item ∷ []) }
{
    list.push(item)?;
    Ok(())
}

/// The steps of a record that passed, event by event.
pub fn all_steps(alloc: Global, passed: &Passed<'_>) -> Result<Vec<Step>, AllocError>
    ensures { IfOk result (λ steps. steps.items ≡ steps_in passed.now) }
{
    // These two values only make the types of motions and acts known to the prover.
    let _keeps = Motion::Keeps;
    let _rests = Act::Rests;
    let mut steps = Vec::new(alloc);
    let mut machine = starting(passed);
    for place in 0..passed.record().events.len() {
        let step = take_step(passed, &mut machine, place);
        append(&mut steps, step)?;
    }
    Ok(steps)
}
