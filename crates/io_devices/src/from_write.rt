//! A writer of std as an output.
ghost use Rattle.std.specs.Prelude.{◌≡◌};
ghost use Rattle.io_devices.specs.Devices.{Device, HasRoom};

use crate::failing::DeviceFailed;
use crate::outputs::Output;
use std::io::{ErrorKind, Write};

/// A writer of std as an output. A write that a signal interrupts is repeated, and is not a failure.
#[derive(Drop)]
pub struct FromWrite<W> {
    inner: W,
    failures: u64,
    stalls: u64,
}

impl<W: Write + Drop> FromWrite<W> {
    ghost use Rattle.io_devices.specs.Devices.{Device};
    ghost use Rattle.io_devices.specs.Outputs.{Takes};

    /// The writer as an output that has not failed yet.
    pub fn new(inner: W) -> FromWrite<W>
        ensures { ⟦<FromWrite<W> as Output>⟧.device result ≡ record { bytes = W.contents inner; failures = 0; stalls = 0 } }
    {
        FromWrite {
            inner,
            failures: 0,
            stalls: 0,
        }
    }

    /// How many writes have failed.
    pub fn failures(&self) -> u64
        ensures { result ≡ (⟦<FromWrite<W> as Output>⟧.device self.now).failures }
    {
        self.failures
    }

    /// Counts a write of `len` bytes, one or more, that took none.
    fn count_stall(&mut self, taken: usize, len: usize)
        ensures counts { Takes taken len (⟦<FromWrite<W> as Output>⟧.device self.old) (⟦<FromWrite<W> as Output>⟧.device self.new) }
        ensures same { W.contents self.new.inner ≡ W.contents self.old.inner }
    {
        if taken == 0 && len > 0 {
            self.stalls = self.stalls.wrapping_add(1);
        }
    }

    /// The writer, with what was written to it.
    pub fn into_inner(self) -> W
        ensures { W.contents result ≡ (⟦<FromWrite<W> as Output>⟧.device self).bytes }
    {
        let FromWrite { inner, .. } = self;
        inner
    }
}

impl<W: Write + Drop> Output for FromWrite<W> {
    ghost device = { λ s. record { bytes = W.contents s.inner; failures = s.failures; stalls = s.stalls } };

    fn write(&mut self, buf: &[u8]) -> Result<usize, DeviceFailed> {
        for _ in 0..u64::MAX {
            match self.inner.write(buf) {
                Ok(n) => {
                    self.count_stall(n, buf.len());
                    return Ok(n);
                }
                Err(e) if e.kind() == ErrorKind::Interrupted => {}
                Err(_) => break,
            }
        }
        self.failures += 1;
        Err(DeviceFailed)
    }
}
