//! Outputs over memory.
ghost use Rattle.io_devices.specs.Devices.{Device};
ghost use Rattle.std.specs.Prelude.{◌≡◌, ◌≤◌, None};

use io_devices::{DeviceFailed, Output};

/// What happens to the write with a certain number, counted from zero.
#[derive(Clone, Copy, Debug, PartialEq, Eq)]
pub enum Mishap {
    /// It fails.
    Fails,
    /// It takes no byte.
    TakesNone,
}

/// An output that takes at most `piece` bytes a write, and `N` in all. One write has a mishap, and no other.
#[derive(Drop)]
pub struct Sheet<const N: usize> {
    bytes: [u8; N],
    len: usize,
    piece: usize,
    writes: usize,
    mishap: Mishap,
    /// How many writes failed.
    pub failures: u64,
    /// How many writes of one or more bytes took none of them.
    pub stalls: u64,
    ghost within: { len ≤ N },
}

impl<const N: usize> Sheet<N> {
    /// An output that has no byte yet.
    pub fn new(piece: usize, writes: usize, mishap: Mishap) -> Sheet<N>
        ensures { result.failures ≡ 0 }
    {
        Sheet {
            bytes: [0; N],
            len: 0,
            piece,
            writes,
            mishap,
            failures: 0,
            stalls: 0,
        }
    }

    /// The bytes that were taken.
    pub fn as_slice(&self) -> &[u8] {
        &self.bytes[..self.len]
    }

    /// Whether a write had a mishap.
    pub fn has_failed(&self) -> bool {
        self.failures > 0 || self.stalls > 0
    }
}

impl<const N: usize> Output for Sheet<N> {
    ghost device = { λ s. record { bytes = None; failures = s.failures; stalls = s.stalls } };

    fn write(&mut self, buf: &[u8]) -> Result<usize, DeviceFailed> {
        let spoilt = self.writes == 0;
        self.writes = self.writes.wrapping_sub(1);
        if spoilt && self.mishap == Mishap::Fails {
            self.failures += 1;
            return Err(DeviceFailed);
        }
        let most = if spoilt { 0 } else { self.piece };
        let start = self.len;
        let n = most.min(buf.len()).min(N - start);
        let bytes = &mut self.bytes[..];
        bytes[start..start + n].copy_from_slice(&buf[..n]);
        self.len = start + n;
        if n == 0 && !buf.is_empty() {
            self.stalls = self.stalls.wrapping_add(1);
        }
        Ok(n)
    }
}
