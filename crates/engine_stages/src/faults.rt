//! Why a call gave no answer.
ghost use Rattle.std.specs.Prelude.{◌≡◌};
ghost use Rattle.engine_stages.specs.declared.faults.RunFault.TheVariants as run;

use std::alloc::AllocError;
use thiserror::Error;

/// Why the referee gave no answer.
#[derive(Clone, Copy, Debug, PartialEq, Eq, Error)]
pub enum RunFault {
    /// An input failed.
    #[error("read failed")]
    ReadFailed,
    /// The output failed, or took no byte of a write.
    #[error("write failed")]
    WriteFailed,
    /// Memory was refused.
    #[error("no memory")]
    NoMemory,
}

impl From<AllocError> for RunFault {
    ghost from_gives = { λ _ fault. fault ≡ run.NoMemory };

    fn from(_refused: AllocError) -> RunFault {
        RunFault::NoMemory
    }
}
