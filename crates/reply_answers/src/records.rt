//! The record that a request gives, as an input.
ghost use Rattle.std.specs.Prelude.{◌≡◌, Some};

use io_devices::{DeviceFailed, Input};
use std::io::Read;

/// The bytes of a record in memory, from which no read fails.
#[derive(Drop)]
pub struct GivenRecord<'a> {
    remaining: &'a [u8],
}

impl<'a> GivenRecord<'a> {
    ghost use Rattle.reply_answers.specs.Given.{device_of};

    /// The record of this text, of which nothing was read yet.
    pub fn new(game: &'a [u8]) -> GivenRecord<'a>
        ensures { ⟦<GivenRecord<'a> as Input>⟧.device result ≡ device_of game.now }
    {
        GivenRecord { remaining: game }
    }
}

impl Input for GivenRecord<'_> {
    ghost device = { λ s. record { bytes = Some s.remaining.now; failures = 0; stalls = 0 } };

    fn read(&mut self, buf: &mut [u8]) -> Result<usize, DeviceFailed> {
        match self.remaining.read(buf) {
            Ok(n) => Ok(n),
            Err(_) => Err(DeviceFailed),
        }
    }
}
