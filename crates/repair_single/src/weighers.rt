//! How a change is weighed: by all numbers of a sheet, or by those of a draft that are written.
ghost use Rattle.std.specs.Prelude.{◌≡◌, IfOk};
ghost use Rattle.game_corrections.specs.Corrections.{AreRenumbered};
ghost use Rattle.repair_changes.specs.Applied.{applied};
ghost use Rattle.repair_single.specs.Weighers.{written_with};

use crate::remaining::wrong_with;
use draft_numbers::{lacks_with, wrong_written};
use game_corrections::WrongNumber;
use game_walk::numbers_of;
use gcg_drafts::Missing;
use gcg_read::{Event, Events};
use repair_changes::{Change, apply};
use std::alloc::{AllocError, Global};

/// The written numbers of a draft that stay wrong with a change, by what its lines lack.
fn written_with(
    alloc: Global,
    lacks: &[Missing],
    change: &Change,
    events: &[Event],
    right: &Events,
) -> Result<Vec<WrongNumber>, AllocError>
    ensures { IfOk result (λ wrong. wrong.items ≡ written_with lacks.now change.now events.now right.now) }
{
    let changed = apply(alloc, change, events)?;
    let lacking = lacks_with(alloc, change, lacks)?;
    let numbers = numbers_of(alloc, right.as_slice())?;
    wrong_written(
        alloc,
        lacking.as_slice(),
        changed.as_slice(),
        numbers.as_slice(),
    )
}

/// Which numbers of a sheet count, when a change is weighed.
#[derive(Drop)]
pub enum Weigher {
    /// All of them.
    Sheet,
    /// Those of a draft that are written, by what its lines lack: a number that is missing is neither right nor wrong.
    Draft(Vec<Missing>),
}

impl Weigher {
    ghost use Rattle.repair_single.specs.Weighers.{wrong_by, room_of};

    /// The numbers that stay wrong with a change, compared with the right events.
    pub(crate) fn wrong(
        &self,
        alloc: Global,
        change: &Change,
        events: &[Event],
        right: &Events,
    ) -> Result<Vec<WrongNumber>, AllocError>
        requires { AreRenumbered (applied change.now events.now) right.now }
        ensures { IfOk result (λ wrong. wrong.items ≡ wrong_by self.now change.now events.now right.now) }
    {
        match self {
            Weigher::Sheet => wrong_with(alloc, change, events, right),
            Weigher::Draft(lacks) => written_with(alloc, lacks.as_slice(), change, events, right),
        }
    }

    /// Fewer numbers and words of the sheet than this stay wrong, if fewer of those that count do than `below`. Of a draft that is not known.
    pub(crate) fn room(&self, below: Option<usize>) -> Option<usize>
        ensures { result ≡ room_of self.now below }
    {
        match self {
            Weigher::Sheet => below,
            Weigher::Draft(_) => None,
        }
    }
}
