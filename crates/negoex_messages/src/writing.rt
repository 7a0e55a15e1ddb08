//! Values written to a device.
ghost use Rattle.std.specs.Prelude.{◌≡◌, ℕ, List, take, IfOk, MatchResult};
ghost use Rattle.std.specs.Io.KnownBytes.{Appends};
ghost use Rattle.byte_streams.specs.Stops.{IsWriteStop};
ghost use Rattle.negoex_messages.specs.Form.{IsTooLong};
ghost use Rattle.negoex_messages.specs.Messages.{IsMessage, message_bytes, IsTrueOffset, IsEncodeStop};

use crate::{Laid, NegoexError, extend};
use byte_streams::{Sink, write_bytes};
use std::alloc::Global;

// The header, these bytes and the payload, which is said to begin at `offset`.
pub(crate) fn bytes_of<T: Laid>(
    alloc: Global,
    value: &T,
    offset: usize,
    filler: &[u8],
) -> Result<Vec<u8>, NegoexError>
    ensures exact { MatchResult result
        (λ bytes. bytes.items ≡ message_bytes T.layout filler.now (T.view value.now) offset)
        (IsTooLong offset (T.layout.payload (T.view value.now))) }
    ensures laid { IfOk result (λ bytes. IsTrueOffset T.layout filler.now offset → IsMessage T.layout (T.view value.now) bytes.items) }
{
    let mut bytes = Vec::new(alloc);
    let mut payload = Vec::new(alloc);
    value.put(alloc, offset, &mut bytes, &mut payload)?;
    extend(&mut bytes, filler)?;
    extend(&mut bytes, &payload)?;
    Ok(bytes)
}

// Writes these bytes; a front of them where the writer stops.
pub(crate) fn write_out<W: Sink>(to: &mut W, bytes: &[u8]) -> Result<(), NegoexError>
    ensures written { MatchResult result (λ _. Appends (W.written to.old) (W.written to.new) bytes.now)
        (λ _. (n : ℕ) × Appends (W.written to.old) (W.written to.new) (take n bytes.now)) }
    ensures fault { MatchResult result (λ _. W.failed to.new ≡ W.failed to.old)
        (λ e. IsWriteStop (W.failed to.old) (W.failed to.new) (W.last_fault to.new) e.kind) }
    ensures same { W.through to.new ≡ W.through to.old }
{
    match write_bytes(to, bytes) {
        Ok(()) => Ok(()),
        Err(kind) => Err(NegoexError { kind }),
    }
}

// Writes the bytes of a value; a front of them where the writer stops.
pub(crate) fn write_value<T: Laid, W: Sink>(
    alloc: Global,
    value: &T,
    offset: usize,
    filler: &[u8],
    to: &mut W,
) -> Result<(), NegoexError>
    ensures written { MatchResult result
        (λ _. Appends (W.written to.old) (W.written to.new) (message_bytes T.layout filler.now (T.view value.now) offset))
        (λ _. (n : ℕ) × Appends (W.written to.old) (W.written to.new) (take n (message_bytes T.layout filler.now (T.view value.now) offset))) }
    ensures laid { IfOk result (λ _. IsTrueOffset T.layout filler.now offset
        → IsMessage T.layout (T.view value.now) (message_bytes T.layout filler.now (T.view value.now) offset)) }
    ensures fault { MatchResult result (λ _. W.failed to.new ≡ W.failed to.old)
        (IsEncodeStop offset (T.layout.payload (T.view value.now)) (W.written to.old) (W.written to.new)
        (W.failed to.old) (W.failed to.new) (W.last_fault to.new)) }
    ensures same { W.through to.new ≡ W.through to.old }
{
    let bytes = bytes_of(alloc, value, offset, filler)?;
    write_out(to, &bytes)
}
