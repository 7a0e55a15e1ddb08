//! A slice that is written into.
ghost use Rattle.std.specs.Prelude.{◌≡◌, ℕ, ◌-◌, ◌≤◌, [], ◌∷◌, length, take, Some, false};

use crate::sink::{Sink, SinkFault};

/// A caller's slice, into whose front bytes are written. No write fails but for want of room.
#[derive(Drop)]
pub struct Space<'a> {
    /// The slice.
    pub space: &'a mut [u8],
    /// How many of its bytes are written.
    pub at: usize,
    /// How many writes took nothing.
    pub failures: u64,
    ghost in_range: { at ≤ length space.now },
}

impl<'a> Space<'a> {
    /// A slice of which nothing is written yet.
    pub fn new(space: &'a mut [u8]) -> Space<'a>
        ensures name { result.space.ghost_name ≡ space.entry.ghost_name }
        ensures size { length result.space.now ≡ length space.entry.now }
        ensures at { result.at ≡ 0 }
        ensures count { result.failures ≡ 0 }
    {
        Space {
            space,
            at: 0,
            failures: 0,
        }
    }
}

impl Sink for Space<'_> {
    ghost written = { λ s. Some (take s.at s.space.now) };

    ghost failed = { λ s. s.failures };

    ghost grows = { false };

    ghost room = { λ s. Some (length s.space.now - s.at) };

    ghost through = { λ s. s.space.ghost_name ∷ [] };

    fn write_some(&mut self, bytes: &[u8]) -> Result<usize, SinkFault> {
        let count = bytes.len().min(self.space.len() - self.at);
        if count == 0 && !bytes.is_empty() {
            self.failures = self.failures.saturating_add(1);
        }
        self.space[self.at..self.at + count].copy_from_slice(&bytes[..count]);
        self.at += count;
        Ok(count)
    }

    fn failures(&self) -> u64 {
        self.failures
    }
}
