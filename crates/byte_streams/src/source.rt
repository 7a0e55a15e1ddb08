//! What gives bytes.
ghost use Rattle.std.specs.Prelude.{◌≡◌, ◌≢◌, ℕ, List, [], ◌∷◌, Option, None, Some, IfErr};
ghost use Rattle.std.specs.Borrow.{GName};
ghost use Rattle.std.specs.declared.io.ErrorKind.{ErrorKind};
ghost use Rattle.std.specs.Io.{ReadsAtMost};
ghost use Rattle.std.specs.Io.KnownBytes.{ReadConsumes};
ghost use Rattle.byte_streams.specs.Counting.{CountsRead};

use std::io::{ErrorKind, Read};

/// A device that gives bytes.
pub trait Source {
    // The bytes that reads will give from here on, where they are known.
    ghost left: { Self → Option (List ℕ) };

    // How many reads have failed.
    ghost failed: { Self → ℕ };

    // Why the last read that failed did so.
    ghost last_fault: { Self → Option ErrorKind } = { λ _. None };

    // The references that the bytes are read through, of a source behind a reference.
    ghost through: { Self → List GName } = { λ _. [] };

    /// Reads some bytes into the front of `buffer`, and gives how many.
    ///
    /// A short read is not the end: 0 bytes are, where `buffer` has room. A call that fails loses no byte and is counted; it answers the
    /// device's own kind of fault. A read that a signal interrupts has not failed: it is tried again.
    fn read_some(&mut self, buffer: &mut [u8]) -> Result<usize, ErrorKind>
        ensures bound { ReadsAtMost result buffer.new }
        ensures bytes { ReadConsumes (left self.old) (left self.new) result buffer.new }
        ensures count { CountsRead (failed self.old) (failed self.new) result }
        ensures kind { IfErr result (λ kind. last_fault self.new ≡ Some kind) }
        ensures retried { IfErr result (λ kind. kind ≢ ErrorKind.Interrupted) }
        ensures same { through self.new ≡ through self.old };

    /// How many reads have failed so far, held at the greatest `u64`.
    fn failures(&self) -> u64
        ensures { result ≡ failed self.now };
}

/// Bytes in memory, whose front is read away. No read fails.
impl Source for &[u8] {
    ghost left = { λ s. Some s.now };

    ghost failed = { λ _. 0 };

    fn read_some(&mut self, buffer: &mut [u8]) -> Result<usize, ErrorKind> {
        // One octet is moved without a call of `memcpy`, which costs more than the octet.
        if buffer.len() == 1 {
            let all: &[u8] = *self;
            let [first, rest @ ..] = all else {
                return Ok(0);
            };
            buffer[0] = *first;
            *self = rest;
            return Ok(1);
        }
        match self.read(buffer) {
            Ok(count) => Ok(count),
            Err(fault) => Err(fault.kind()),
        }
    }

    fn failures(&self) -> u64 {
        0
    }
}

impl<S: Source> Source for &mut S {
    ghost left = { λ s. S.left s.now };

    ghost failed = { λ s. S.failed s.now };

    ghost last_fault = { λ s. S.last_fault s.now };

    ghost through = { λ s. s.ghost_name ∷ S.through s.now };

    fn read_some(&mut self, buffer: &mut [u8]) -> Result<usize, ErrorKind> {
        (**self).read_some(buffer)
    }

    fn failures(&self) -> u64 {
        (**self).failures()
    }
}
