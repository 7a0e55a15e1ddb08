//! Writing bytes to their places, and to devices.
ghost use Rattle.std.specs.Prelude.{◌≡◌, ℕ, ◌+◌, ◌≤◌, length, take, MatchResult};
ghost use Rattle.std.specs.Io.KnownBytes.{Appends};
ghost use Rattle.byte_streams.specs.Parts.{part, put};
ghost use Rattle.byte_streams.specs.Stops.{stop_kind, IsWriteStop};

use crate::{Sink, WholeFault, write_whole};
use std::io::ErrorKind;

/// Writes `content` to `place`, and leaves all else as it is.
#[tactic(auto, unfolding(crate::specs::Parts::put))]
pub fn put_at(bytes: &mut [u8], place: usize, content: &[u8])
    requires { place + length content.now ≤ length bytes.old }
    ensures { bytes.new ≡ put (part place content.now) bytes.old }
{
    bytes[place..place + content.len()].copy_from_slice(content);
}

// Returns the error of a write that stopped.
fn stopped(fault: WholeFault) -> ErrorKind
    ensures { result ≡ stop_kind fault }
{
    match fault {
        WholeFault::Full => ErrorKind::WriteZero,
        WholeFault::Failed(kind) => kind,
        WholeFault::Memory => ErrorKind::OutOfMemory,
    }
}

/// Writes all of these bytes; a front of them where the writer stops. A writer that takes no more is `WriteZero`.
pub fn write_bytes<W: Sink>(to: &mut W, bytes: &[u8]) -> Result<(), ErrorKind>
    ensures written { MatchResult result (λ _. Appends (W.written to.old) (W.written to.new) bytes.now)
        (λ _. (n : ℕ) × Appends (W.written to.old) (W.written to.new) (take n bytes.now)) }
    ensures fault { MatchResult result (λ _. W.failed to.new ≡ W.failed to.old)
        (IsWriteStop (W.failed to.old) (W.failed to.new) (W.last_fault to.new)) }
    ensures same { W.through to.new ≡ W.through to.old }
{
    match write_whole(to, bytes) {
        Ok(()) => Ok(()),
        Err(fault) => Err(stopped(fault)),
    }
}
