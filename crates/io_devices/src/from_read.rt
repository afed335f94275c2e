//! A reader of std as an input.
ghost use Rattle.std.specs.Prelude.{◌≡◌};
ghost use Rattle.io_devices.specs.Devices.{Device, HasRoom};

use crate::failing::DeviceFailed;
use crate::inputs::Input;
use std::io::{ErrorKind, Read};

/// A reader of std as an input. A read that a signal interrupts is repeated, and is not a failure.
#[derive(Drop)]
pub struct FromRead<R> {
    inner: R,
    failures: u64,
}

impl<R: Read + Drop> FromRead<R> {
    ghost use Rattle.io_devices.specs.Devices.{Device};

    /// The reader as an input that has not failed yet.
    pub fn new(inner: R) -> FromRead<R>
        ensures { ⟦<FromRead<R> as Input>⟧.device result ≡ record { bytes = R.remaining inner; failures = 0; stalls = 0 } }
    {
        FromRead { inner, failures: 0 }
    }

    /// How many reads have failed.
    pub fn failures(&self) -> u64
        ensures { result ≡ (⟦<FromRead<R> as Input>⟧.device self.now).failures }
    {
        self.failures
    }

    /// The reader.
    pub fn inner(&self) -> &R
        ensures { R.remaining result.now ≡ (⟦<FromRead<R> as Input>⟧.device self.now).bytes }
    {
        &self.inner
    }

    /// The reader, with what it has not read.
    pub fn into_inner(self) -> R
        ensures { R.remaining result ≡ (⟦<FromRead<R> as Input>⟧.device self).bytes }
    {
        let FromRead { inner, .. } = self;
        inner
    }
}

impl<R: Read + Drop> Input for FromRead<R> {
    ghost device = { λ s. record { bytes = R.remaining s.inner; failures = s.failures; stalls = 0 } };

    fn read(&mut self, buf: &mut [u8]) -> Result<usize, DeviceFailed> {
        for _ in 0..u64::MAX {
            match self.inner.read(buf) {
                Ok(n) => return Ok(n),
                Err(e) if e.kind() == ErrorKind::Interrupted => {}
                Err(_) => break,
            }
        }
        self.failures += 1;
        Err(DeviceFailed)
    }
}
