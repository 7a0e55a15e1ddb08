//! What takes bytes.
ghost use Rattle.std.specs.Prelude.{◌≡◌, ℕ, List, [], ◌∷◌, Bool, true, IsTrue, Option, None, Some, Err, IfOk, IfErr, length};
ghost use Rattle.std.specs.Borrow.{GName};
ghost use Rattle.std.specs.declared.io.ErrorKind.{ErrorKind};
ghost use Rattle.std.specs.Io.{WritesAtMost};
ghost use Rattle.std.specs.Io.KnownBytes.{WriteAppends};
ghost use Rattle.byte_streams.specs.Counting.{CountsWrite};
ghost use Rattle.byte_streams.specs.Faults.{IsRetried, TellsWrite};
ghost use Rattle.byte_streams.specs.Room.{TakesRoom};

use std::io::ErrorKind;

/// Why a write took no bytes.
#[derive(Clone, Copy, Debug, PartialEq, Eq)]
pub enum SinkFault {
    /// The device failed.
    Failed(ErrorKind),
    /// The memory that the bytes were to be in could not grow.
    Memory,
}

/// A device that takes bytes.
pub trait Sink {
    ghost use Rattle.byte_streams.specs.declared.sink.SinkFault.{SinkFault};

    // The bytes written so far, where they are known.
    ghost written: { Self → Option (List ℕ) };

    // How many writes have failed.
    ghost failed: { Self → ℕ };

    // Whether the bytes are in memory that grows. Such a sink takes all or nothing. No other
    // sink ever needs memory.
    ghost grows: { Bool };

    // How many bytes it still takes, of a sink over a slice; none where that has no bound or isn't known.
    ghost room: { Self → Option ℕ } = { λ _. None };

    // Why the last write that failed did so: none where it took nothing.
    ghost last_fault: { Self → Option ErrorKind } = { λ _. None };

    // The references that the bytes are written through, of a sink behind a reference or over a slice.
    ghost through: { Self → List GName } = { λ _. [] };

    /// Writes a front of `bytes`, and gives how many bytes it took.
    ///
    /// A call that fails takes nothing and is counted; so is a call that takes nothing of some bytes. A refused growth is not. A fault has
    /// the device's own kind. A write that a signal interrupts has not failed: it is tried again. Where the room is known no call fails,
    /// and some bytes are taken where there is room for one.
    fn write_some(&mut self, bytes: &[u8]) -> Result<usize, SinkFault>
        ensures bound { WritesAtMost result bytes.now }
        ensures bytes { WriteAppends (written self.old) (written self.new) result bytes.now }
        ensures count { CountsWrite (failed self.old) (failed self.new) result (length bytes.now) }
        ensures memory { result ≡ Err SinkFault.Memory → IsTrue grows }
        ensures whole { IsTrue grows → IfOk result (λ n. n ≡ length bytes.now) }
        ensures room { TakesRoom (room self.old) (room self.new) result (length bytes.now) }
        ensures kind { TellsWrite (last_fault self.new) result (length bytes.now) }
        ensures retried { IfErr result IsRetried }
        ensures same { through self.new ≡ through self.old };

    /// How many writes have failed so far, held at the greatest `u64`.
    fn failures(&self) -> u64
        ensures { result ≡ failed self.now };
}

/// A vector grows by all that it is offered. A write fails only if memory runs out.
impl Sink for Vec<u8> {
    ghost written = { λ v. Some v.items };

    ghost failed = { λ _. 0 };

    ghost grows = { true };

    fn write_some(&mut self, bytes: &[u8]) -> Result<usize, SinkFault> {
        match self.extend_from_slice(bytes) {
            Ok(()) => Ok(bytes.len()),
            Err(_) => Err(SinkFault::Memory),
        }
    }

    fn failures(&self) -> u64 {
        0
    }
}

impl<S: Sink> Sink for &mut S {
    ghost written = { λ s. S.written s.now };

    ghost failed = { λ s. S.failed s.now };

    ghost grows = { S.grows };

    ghost room = { λ s. S.room s.now };

    ghost last_fault = { λ s. S.last_fault s.now };

    ghost through = { λ s. s.ghost_name ∷ S.through s.now };

    fn write_some(&mut self, bytes: &[u8]) -> Result<usize, SinkFault> {
        (**self).write_some(bytes)
    }

    fn failures(&self) -> u64 {
        (**self).failures()
    }
}
