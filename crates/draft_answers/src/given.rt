//! A sheet in memory, as an input.
ghost use Rattle.std.specs.Prelude.{◌≡◌, Some};

use io_devices::{DeviceFailed, Input};
use std::io::Read;

/// Bytes in memory, from which no read fails.
#[derive(Drop)]
pub struct GivenSheet<'a> {
    remaining: &'a [u8],
}

impl<'a> GivenSheet<'a> {
    ghost use Rattle.draft_answers.specs.Given.{device_of};

    /// These bytes, of which nothing was read yet.
    pub fn new(bytes: &'a [u8]) -> GivenSheet<'a>
        ensures { ⟦<GivenSheet<'a> as Input>⟧.device result ≡ device_of bytes.now }
    {
        GivenSheet { remaining: bytes }
    }
}

impl Input for GivenSheet<'_> {
    ghost device = { λ s. record { bytes = Some s.remaining.now; failures = 0; stalls = 0 } };

    fn read(&mut self, buf: &mut [u8]) -> Result<usize, DeviceFailed> {
        match self.remaining.read(buf) {
            Ok(n) => Ok(n),
            Err(_) => Err(DeviceFailed),
        }
    }
}
