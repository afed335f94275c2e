//! The events of a text.
ghost use Rattle.std.specs.Prelude.{◌≡◌, IfOk};
ghost use Rattle.repair_sheets.specs.Undoing.{events_in};

use gcg_read::{Events, Why, read};
use std::alloc::{AllocError, Global};

/// The events of a text, if it is a record.
#[tactic(auto, using(crate::proofs::Read::read_so))]
pub(crate) fn events_in(alloc: Global, text: &[u8]) -> Result<Option<Events>, AllocError>
    ensures { IfOk result (λ events. events ≡ events_in text.now) }
{
    let fault = match read(alloc, text) {
        Ok(record) => return Ok(Some(record.events)),
        Err(fault) => fault,
    };
    if fault.why == Why::NoMemory {
        return Err(AllocError);
    }
    Ok(None)
}
