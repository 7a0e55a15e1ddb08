//! Devices for tests: they move a byte a call, and fail in mid-stream.

ghost use Rattle.std.specs.Prelude.{false, None, Some, if◌then◌else◌};
ghost use Rattle.std.specs.declared.io.ErrorKind.TheVariants.{BrokenPipe};

use byte_streams::{Sink, SinkFault, Source};
use std::alloc::Global;
use std::io::ErrorKind;

/// A reader that gives a byte a call, and fails once, at the call behind `until_failure` others.
#[derive(Drop)]
pub struct Drip<'a> {
    rest: &'a [u8],
    until_failure: usize,
    failures: u64,
}

impl Drip<'_> {
    pub fn new(bytes: &[u8], until_failure: usize) -> Drip<'_> {
        Drip {
            rest: bytes,
            until_failure,
            failures: 0,
        }
    }
}

impl Source for Drip<'_> {
    ghost left = { λ d. Some d.rest.now };

    ghost failed = { λ d. d.failures };

    ghost last_fault = { λ _. Some BrokenPipe };

    fn read_some(&mut self, buffer: &mut [u8]) -> Result<usize, ErrorKind> {
        if self.until_failure == 0 {
            self.until_failure = usize::MAX;
            self.failures = self.failures.saturating_add(1);
            return Err(ErrorKind::BrokenPipe);
        }
        self.until_failure -= 1;
        let room = buffer.len().min(1);
        self.rest.read_some(&mut buffer[..room])
    }

    fn failures(&self) -> u64 {
        self.failures
    }
}

/// A writer that takes a byte a call. From `room` bytes on it takes none, or it fails where it `is_broken`.
#[derive(Drop)]
pub struct Trickle {
    /// The bytes that it took.
    pub taken: Vec<u8>,
    room: usize,
    is_broken: bool,
    failures: u64,
}

impl Trickle {
    pub fn new(alloc: Global, room: usize, is_broken: bool) -> Trickle {
        Trickle {
            taken: Vec::new(alloc),
            room,
            is_broken,
            failures: 0,
        }
    }
}

impl Sink for Trickle {
    ghost written = { λ t. Some t.taken.items };

    ghost failed = { λ t. t.failures };

    ghost last_fault = { λ t. (if t.is_broken then Some BrokenPipe else None) };

    ghost grows = { false };

    fn write_some(&mut self, bytes: &[u8]) -> Result<usize, SinkFault> {
        if bytes.is_empty() {
            return Ok(0);
        }
        if self.taken.len() < self.room && self.taken.push(bytes[0]).is_ok() {
            return Ok(1);
        }
        self.failures = self.failures.saturating_add(1);
        if self.is_broken {
            return Err(SinkFault::Failed(ErrorKind::BrokenPipe));
        }
        Ok(0)
    }

    fn failures(&self) -> u64 {
        self.failures
    }
}
