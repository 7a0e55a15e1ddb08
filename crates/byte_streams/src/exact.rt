//! Reads and writes that go on until all is moved.
ghost use Rattle.std.specs.Prelude.{◌≡◌, ◌≢◌, ℕ, ◌≤◌, ◌<◌, length, take, Some, Err, IsTrue, IfOk, IfErr, OnOk, MatchResult};
ghost use Rattle.std.specs.Io.KnownBytes.{Consumes, Appends, Keeps, IsAtEnd};
ghost use Rattle.byte_streams.specs.Counting.{CountsRead};
ghost use Rattle.byte_streams.specs.Whole.{after_whole_fault};
ghost use Rattle.byte_streams.specs.Faults.{IsWholeRetried, TellsWholeFault};
ghost use Rattle.byte_streams.specs.Room.{FitsRoom};

use crate::sink::{Sink, SinkFault};
use crate::source::Source;
use std::io::ErrorKind;

/// Why not all bytes were written.
#[derive(Clone, Copy, Debug, PartialEq, Eq)]
pub enum WholeFault {
    /// The device took nothing of the bytes that were left.
    Full,
    /// The device failed.
    Failed(ErrorKind),
    /// The memory that the bytes were to be in could not grow.
    Memory,
}

/// Fills `buffer` from `reader`, in as many reads as it takes, and gives how many bytes were read:
/// fewer than there is room for only where the reader came to its end. Where a read failed, the
/// bytes of the reads before it are at the front of `buffer`. A read that a signal interrupts is tried again.
pub fn read_full<R: Source>(reader: &mut R, buffer: &mut [u8]) -> Result<usize, ErrorKind>
    ensures bound { IfOk result (λ n. n ≤ length buffer.new) }
    ensures bytes { IfOk result (λ n. Consumes (R.left reader.old) (R.left reader.new) (take n buffer.new)) }
    ensures end { IfOk result (λ n. n < length buffer.new → IsAtEnd (R.left reader.new)) }
    ensures front { IfErr result (λ _. (n : ℕ) × Consumes (R.left reader.old) (R.left reader.new) (take n buffer.new)) }
    ensures count { CountsRead (R.failed reader.old) (R.failed reader.new) result }
    ensures kind { IfErr result (λ kind. R.last_fault reader.new ≡ Some kind) }
    ensures retried { IfErr result (λ kind. kind ≢ ErrorKind.Interrupted) }
    ensures same { R.through reader.new ≡ R.through reader.old }
{
    let mut at = 0;
    while at < buffer.len() {
        let count = reader.read_some(&mut buffer[at..])?;
        if count == 0 {
            break;
        }
        at += count;
    }
    Ok(at)
}

/// Writes all of `bytes`, in as many writes as it takes. If it stops early, a front of them is
/// written: none if memory ran out. A write that a signal interrupts is tried again.
pub fn write_whole<W: Sink>(writer: &mut W, bytes: &[u8]) -> Result<(), WholeFault>
    ensures ok { OnOk result (Appends (W.written writer.old) (W.written writer.new) bytes.now) }
    ensures front { IfErr result (λ _. (n : ℕ) × Appends (W.written writer.old) (W.written writer.new) (take n bytes.now)) }
    ensures memory { result ≡ Err WholeFault.Memory → IsTrue W.grows × Keeps (W.written writer.old) (W.written writer.new) }
    ensures count { MatchResult result (λ _. W.failed writer.new ≡ W.failed writer.old)
        (λ fault. W.failed writer.new ≡ after_whole_fault (W.failed writer.old) fault) }
    ensures room { FitsRoom (W.room writer.old) (W.room writer.new) result (length bytes.now) }
    ensures kind { IfErr result (TellsWholeFault (W.last_fault writer.new)) }
    ensures retried { IfErr result IsWholeRetried }
    ensures same { W.through writer.new ≡ W.through writer.old }
{
    let mut at = 0;
    while at < bytes.len() {
        match writer.write_some(&bytes[at..]) {
            Ok(0) => return Err(WholeFault::Full),
            Ok(count) => at += count,
            Err(SinkFault::Failed(kind)) => return Err(WholeFault::Failed(kind)),
            Err(SinkFault::Memory) => return Err(WholeFault::Memory),
        }
    }
    Ok(())
}
