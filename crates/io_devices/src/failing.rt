//! What a device, a whole read and a whole write say of a failure.
ghost use Rattle.std.specs.Prelude.{◌≡◌};

use std::alloc::AllocError;
use thiserror::Error;

/// A device failed: a read or a write did not succeed.
#[derive(Clone, Copy, Debug, PartialEq, Eq, Error)]
#[error("device failed")]
pub struct DeviceFailed;

/// Why reading a whole input gave up.
#[derive(Clone, Copy, Debug, PartialEq, Eq, Error)]
pub enum ReadGaveUp {
    /// Memory for the bytes was refused.
    #[error("no memory")]
    NoMemory,
    /// The input failed.
    #[error("read failed")]
    Failed,
}

impl From<DeviceFailed> for ReadGaveUp {
    ghost use Rattle.std.specs.Prelude.{◌≡◌};
    ghost use Rattle.io_devices.specs.declared.failing.ReadGaveUp.TheVariants.{Failed};

    ghost from_gives = { λ _ why. why ≡ Failed };

    fn from(_: DeviceFailed) -> ReadGaveUp {
        ReadGaveUp::Failed
    }
}

impl From<AllocError> for ReadGaveUp {
    ghost use Rattle.std.specs.Prelude.{◌≡◌};
    ghost use Rattle.io_devices.specs.declared.failing.ReadGaveUp.TheVariants.{NoMemory};

    ghost from_gives = { λ _ why. why ≡ NoMemory };

    fn from(_: AllocError) -> ReadGaveUp {
        ReadGaveUp::NoMemory
    }
}

/// Why writing all bytes gave up.
#[derive(Clone, Copy, Debug, PartialEq, Eq, Error)]
pub enum WriteGaveUp {
    /// The output took no byte of a write of one or more.
    #[error("write took no byte")]
    TookNone,
    /// The output failed.
    #[error("write failed")]
    Failed,
}

impl From<DeviceFailed> for WriteGaveUp {
    ghost use Rattle.std.specs.Prelude.{◌≡◌};
    ghost use Rattle.io_devices.specs.declared.failing.WriteGaveUp.TheVariants.{Failed};

    ghost from_gives = { λ _ why. why ≡ Failed };

    fn from(_: DeviceFailed) -> WriteGaveUp {
        WriteGaveUp::Failed
    }
}
