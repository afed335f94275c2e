//! The steps of the first events of a record, gathered while it is walked over.
ghost use Rattle.std.specs.Prelude.{◌≡◌, [], ◌++◌, take, IsTrue, OnOk, IfOk};
ghost use Rattle.ref_play.specs.Texts.{text_fault};
ghost use Rattle.game_turns.specs.Machines.{state_of};
ghost use Rattle.game_deal.specs.Recorded.{IsNamed};

use crate::standing::withdraws_at;
use deal_steps::{Act, Motion, Step};
use game_deal::next_step;
use game_turns::Machine;
use gcg_read::{Event, EventKind};
use ref_play::from_text;
use std::alloc::{AllocError, Global};

/// Whether the text of an event names a placement, if it is a play.
fn is_named(machine: &Machine, kind: &EventKind) -> bool
    ensures { IsTrue result → IsNamed (state_of machine.now).board kind.now }
{
    match kind {
        EventKind::Play { at, dir, word } => {
            from_text(machine.board(), *at, *dir, word.as_slice()).is_ok()
        }
        _ => true,
    }
}

/// The steps of the first events of a record.
#[derive(Drop)]
pub(crate) struct FirstSteps {
    /// The steps.
    pub(crate) steps: Vec<Step>,
    /// The greatest number of steps that are kept.
    pub(crate) most: usize,
}

impl FirstSteps {
    ghost use Rattle.repair_single.specs.FirstSteps.{MayAddStep};

    /// None yet.
    pub(crate) fn new(alloc: Global, most: usize) -> FirstSteps
        ensures { result.steps.items ≡ [] }
    {
        FirstSteps {
            steps: Vec::new(alloc),
            most,
        }
    }

    /// The first `many` of these.
    pub(crate) fn of(
        alloc: Global,
        steps: &[Step],
        many: usize,
        most: usize,
    ) -> Result<FirstSteps, AllocError>
        ensures { IfOk result (λ first. first.steps.items ≡ take many steps.now) }
    {
        let end = many.min(steps.len());
        let mut first = Vec::new(alloc);
        first.extend_from_slice(&steps[..end])?;
        Ok(FirstSteps { steps: first, most })
    }

    /// Adds these after the others.
    pub(crate) fn add(&mut self, steps: &[Step]) -> Result<(), AllocError>
        ensures { OnOk result (self.new.steps.items ≡ self.old.steps.items ++ steps.now) }
    {
        self.steps.extend_from_slice(steps)?;
        Ok(())
    }

    /// Adds the step of the event at a place, if it comes next and is wanted. The machine took the events before it.
    pub(crate) fn note(
        &mut self,
        machine: &Machine,
        events: &[Event],
        place: usize,
    ) -> Result<(), AllocError>
        ensures { OnOk result (MayAddStep (state_of machine.now) events.now place self.old.steps.items self.new.steps.items) }
    {
        // These two values only make the types of motions and acts known to the prover.
        let _keeps = Motion::Keeps;
        let _rests = Act::Rests;
        if place >= self.most || self.steps.len() != place {
            return Ok(());
        }
        let Some(event) = events.get(place) else {
            return Ok(());
        };
        if !is_named(machine, &event.kind) {
            return Ok(());
        }
        let withdrawn = withdraws_at(events, place + 1);
        self.steps.push(next_step(machine, event, withdrawn))?;
        Ok(())
    }
}
