//! A reader that is watched.
ghost use Rattle.std.specs.Prelude.{◌≡◌};

use crate::fronts::Front;
use crate::reasons::Reason;
use std::alloc::Global;
use std::io::{Read, Result};

/// A reader that gives the bytes of another one, and keeps the first of them and why its last failed read failed. That these are kept is tested.
#[derive(Drop)]
pub struct WatchedRead<R> {
    inner: R,
    front: Front,
    reason: Reason,
}

impl<R: Read + Drop> WatchedRead<R> {
    /// A reader of what `inner` has. At most `most` of its first bytes are kept.
    pub fn new(alloc: Global, inner: R, most: usize) -> WatchedRead<R>
        ensures { ⟦<WatchedRead<R> as Read>⟧.remaining result ≡ R.remaining inner }
    {
        WatchedRead {
            inner,
            front: Front::new(alloc, most),
            reason: Reason::Unknown,
        }
    }

    /// The inner reader, after what was read from it.
    pub fn inner(&self) -> &R
        ensures { R.remaining result.now ≡ ⟦<WatchedRead<R> as Read>⟧.remaining self.now }
    {
        &self.inner
    }

    /// What was given out first.
    pub fn front(&self) -> &Front {
        &self.front
    }

    /// Why the last failed read failed.
    pub fn reason(&self) -> Reason {
        self.reason
    }
}

impl<R: Read + Drop> Read for WatchedRead<R> {
    ghost remaining = { λ s. R.remaining s.inner };

    fn read(&mut self, buf: &mut [u8]) -> Result<usize> {
        match self.inner.read(buf) {
            Ok(read) => {
                self.front.see(&buf[..read]);
                Ok(read)
            }
            Err(error) => {
                self.reason = Reason::of(&error);
                Err(error)
            }
        }
    }
}
