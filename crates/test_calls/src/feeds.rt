//! Inputs over memory.
ghost use Rattle.io_devices.specs.Devices.{Device};
ghost use Rattle.std.specs.Prelude.{◌≤◌, None};

use io_devices::{DeviceFailed, Input};

/// The number of a read or a write that never comes.
pub const NEVER: usize = usize::MAX;

/// An input that gives at most `piece` bytes a read. Only the read with a certain number, counted from zero, fails.
#[derive(Drop)]
pub struct Feed<'a> {
    /// The bytes that are left.
    pub rest: &'a [u8],
    piece: usize,
    reads: usize,
    failures: u64,
    ghost once: { failures ≤ 1 },
}

impl<'a> Feed<'a> {
    /// An input of these bytes.
    pub fn new(rest: &'a [u8], piece: usize, reads: usize) -> Feed<'a> {
        Feed {
            rest,
            piece,
            reads,
            failures: 0,
        }
    }

    /// How many reads have failed.
    pub fn failures(&self) -> u64 {
        self.failures
    }

    /// Whether a read has failed.
    pub fn has_failed(&self) -> bool {
        self.failures > 0
    }
}

impl Input for Feed<'_> {
    ghost device = { λ s. record { bytes = None; failures = s.failures; stalls = 0 } };

    fn read(&mut self, buf: &mut [u8]) -> Result<usize, DeviceFailed> {
        if self.reads == 0 && self.failures == 0 {
            self.failures = 1;
            return Err(DeviceFailed);
        }
        self.reads = self.reads.saturating_sub(1);
        let rest = self.rest;
        let n = self.piece.min(buf.len()).min(rest.len());
        buf[..n].copy_from_slice(&rest[..n]);
        self.rest = &rest[n..];
        Ok(n)
    }
}
