//! The first bytes of what goes by.

use std::alloc::Global;

/// The first bytes of what goes by, up to a number, and how many bytes went by.
#[derive(Drop)]
pub struct Front {
    bytes: Vec<u8>,
    most: usize,
    passed: u64,
}

impl Front {
    /// Nothing went by yet. At most `most` bytes are kept.
    pub fn new(alloc: Global, most: usize) -> Front {
        Front {
            bytes: Vec::new(alloc),
            most,
            passed: 0,
        }
    }

    /// Sees bytes go by. If there is no memory for them, none are kept from then on.
    pub fn see(&mut self, bytes: &[u8]) {
        self.passed = self.passed.saturating_add(bytes.len() as u64);
        let room = self.most.saturating_sub(self.bytes.len());
        let kept = bytes.len().min(room);
        if self.bytes.extend_from_slice(&bytes[..kept]).is_err() {
            self.most = 0;
        }
    }

    /// The first bytes that went by.
    pub fn bytes(&self) -> &[u8] {
        self.bytes.as_slice()
    }

    /// All bytes that went by, if there was room for them.
    pub fn whole(&self) -> Option<&[u8]> {
        if self.passed == self.bytes.len() as u64 {
            Some(self.bytes.as_slice())
        } else {
            None
        }
    }

    /// How many bytes went by.
    pub fn passed(&self) -> u64 {
        self.passed
    }
}
