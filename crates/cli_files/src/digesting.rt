//! A reader that digests what it gives out.
ghost use Rattle.std.specs.Prelude.{◌≡◌, [], ◌++◌, ℕ, List, Some, None, is_some, take, IfOk, OnErr, if◌then◌else◌};
ghost use Rattle.std.specs.Io.{ReadsAtMost};
ghost use Rattle.std.specs.Io.KnownBytes.{ReadConsumes};
ghost use Rattle.sha2.specs.Sha256.{sha256};
ghost use Rattle.cli_files.specs.Digesting.{HasHandedOut};

use sha2::{Digest, Sha256};
use std::alloc::AllocError;
use std::io::{self, Read};

/// A reader that gives the bytes of another one, and on request digests them on the way.
#[derive(Drop)]
pub struct Digesting<R> {
    inner: R,
    /// The digest so far, if one was requested.
    hasher: Option<Sha256>,
}

impl<R: Read + Drop> Digesting<R> {
    /// A reader of what `inner` has, which it digests if `digests` says so. Nothing was given out yet.
    pub fn new(inner: R, digests: bool) -> Digesting<R>
        ensures reads { ⟦<Digesting<R> as Read>⟧.remaining result ≡ R.remaining inner }
        ensures digests { is_some result.hasher ≡ digests }
        ensures none { HasHandedOut result.hasher [] }
    {
        let hasher = if digests { Some(Sha256::new()) } else { None };
        Digesting { inner, hasher }
    }

    /// The SHA-256, as in FIPS 180-4, of the bytes that were given out so far, if they are digested. That the foot of a page shows it is tested.
    pub fn digest(&self) -> Result<Option<[u8; 32]>, AllocError>
        ensures { IfOk result (λ digest. (bytes : List ℕ) → HasHandedOut self.now.hasher bytes
            → digest ≡ (if is_some self.now.hasher then Some (sha256 bytes) else None)) }
    {
        let Some(hasher) = &self.hasher else {
            return Ok(None);
        };
        let hasher = hasher.clone()?;
        Ok(Some(hasher.finalize()))
    }
}

impl<R: Read + Drop> Read for Digesting<R> {
    ghost remaining = { λ s. R.remaining s.inner };

    fn read(&mut self, buf: &mut [u8]) -> io::Result<usize>
        ensures bound { ReadsAtMost result buf.new }
        ensures bytes { ReadConsumes (R.remaining self.old.inner) (R.remaining self.new.inner) result buf.new }
        ensures digested { IfOk result (λ n. (bytes : List ℕ) → HasHandedOut self.old.hasher bytes
            → HasHandedOut self.new.hasher (bytes ++ take n buf.new)) }
        ensures digests { is_some self.new.hasher ≡ is_some self.old.hasher }
        ensures refused { OnErr result (self.new.hasher ≡ self.old.hasher) }
    {
        let read = self.inner.read(buf)?;
        if let Some(hasher) = &mut self.hasher {
            hasher.update(&buf[..read]);
        }
        Ok(read)
    }
}
