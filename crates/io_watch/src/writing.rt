//! A writer that is watched.
ghost use Rattle.std.specs.Prelude.{◌≡◌};

use crate::fronts::Front;
use crate::reasons::Reason;
use std::alloc::Global;
use std::io::{Result, Write};

/// A writer that passes bytes on to another one, and keeps the first of them and why its last failed write failed. That these are kept is tested.
#[derive(Drop)]
pub struct WatchedWrite<W> {
    inner: W,
    front: Front,
    reason: Reason,
}

impl<W: Write + Drop> WatchedWrite<W> {
    /// A writer to `inner`. At most `most` of the first bytes are kept.
    pub fn new(alloc: Global, inner: W, most: usize) -> WatchedWrite<W>
        ensures { ⟦<WatchedWrite<W> as Write>⟧.contents result ≡ W.contents inner }
    {
        WatchedWrite {
            inner,
            front: Front::new(alloc, most),
            reason: Reason::Unknown,
        }
    }

    /// What was written first.
    pub fn front(&self) -> &Front {
        &self.front
    }

    /// Why the last failed write failed.
    pub fn reason(&self) -> Reason {
        self.reason
    }

    /// The writer, with what was written to it.
    pub fn into_inner(self) -> W
        ensures { W.contents result ≡ ⟦<WatchedWrite<W> as Write>⟧.contents self }
    {
        let WatchedWrite { inner, .. } = self;
        inner
    }
}

impl<W: Write + Drop> Write for WatchedWrite<W> {
    ghost contents = { λ s. W.contents s.inner };

    fn write(&mut self, buf: &[u8]) -> Result<usize> {
        match self.inner.write(buf) {
            Ok(taken) => {
                self.front.see(&buf[..taken]);
                Ok(taken)
            }
            Err(error) => {
                self.reason = Reason::of(&error);
                Err(error)
            }
        }
    }

    fn flush(&mut self) -> Result<()> {
        self.inner.flush()
    }
}
