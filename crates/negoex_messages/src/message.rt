//! Whole messages, written and read.
ghost use Rattle.std.specs.Prelude.{◌≡◌, ℕ, List, take, Ok, IfOk, IfErr, MatchResult};
ghost use Rattle.std.specs.Io.KnownBytes.{Appends};
ghost use Rattle.negoex_messages.specs.Form.{Answers, IsWithin, IsTooLong};
ghost use Rattle.negoex_messages.specs.Messages.{IsMessage, message_bytes, IsTrueOffset, IsEncodeStop, GivesBack, WrittenIsRead};

use crate::writing::{bytes_of, write_value};
use crate::{Exchange, Laid, Nego, NegoexError, Verify, Wide, front_of};
use byte_streams::Sink;
use std::alloc::Global;

/// A message of NEGOEX.
pub trait NegoexMessage: Wide {
    // The bytes between header and payload.
    ghost filler: { List ℕ };

    // The offset of the payload, which is the header's own length field.
    ghost offset: { Self → ℕ };

    /// The bytes between header and payload.
    fn filling() -> &'static [u8]
        ensures { result.now ≡ filler };

    /// The offset of the payload. It isn't compared with the header's size.
    fn payload_offset(&self) -> usize
        ensures { result ≡ offset self.now };

    /// Reads a message. Bytes that nothing points to, and bytes after the message, aren't checked.
    ///
    /// The first fault in the order of the fields is returned, where each element of a vector comes with all that it
    /// points to. It is `InvalidData` for a wrong signature, message type or offset past the message. It is `InvalidInput`
    /// for a wrong checksum scheme, and `UnexpectedEof` for bytes that end before. Or memory ran out (`OutOfMemory`).
    final fn decode(alloc: Global, message: &[u8]) -> Result<Self, NegoexError>
        ensures found { IfOk result (λ m. IsMessage Self.layout (Self.view m) message.now) }
        ensures only { (v : Self.Value) → Self.layout.Fits v → IsMessage Self.layout v message.now → GivesBack Self.view v result }
        ensures exact { Answers Self.view (Self.layout.read (take Self.layout.width message.now) message.now) result }
    {
        Self::from_header(alloc, front_of(message, Self::width()), message)
    }

    /// The message's bytes; `InvalidInput` where the payload ends past 32 bits.
    final fn to_bytes(&self, alloc: Global) -> Result<Vec<u8>, NegoexError>
        ensures exact { MatchResult result
            (λ bytes. bytes.items ≡ message_bytes Self.layout filler (Self.view self.now) (offset self.now))
            (IsTooLong (offset self.now) (Self.layout.payload (Self.view self.now))) }
        ensures laid { IfOk result (λ bytes. IsTrueOffset Self.layout filler (offset self.now)
            → IsMessage Self.layout (Self.view self.now) bytes.items) }
    {
        bytes_of(alloc, self, self.payload_offset(), Self::filling())
    }

    /// Writes the message; a front of it where the writer stops. Nothing is written where the payload ends past 32 bits,
    /// which is `InvalidInput`.
    final fn encode<W: Sink>(&self, alloc: Global, to: &mut W) -> Result<(), NegoexError>
        ensures written { MatchResult result
            (λ _. Appends (W.written to.old) (W.written to.new) (message_bytes Self.layout filler (Self.view self.now) (offset self.now)))
            (λ _. (n : ℕ) × Appends (W.written to.old) (W.written to.new)
            (take n (message_bytes Self.layout filler (Self.view self.now) (offset self.now)))) }
        ensures laid { IfOk result (λ _. IsTrueOffset Self.layout filler (offset self.now)
            → IsMessage Self.layout (Self.view self.now) (message_bytes Self.layout filler (Self.view self.now) (offset self.now))) }
        ensures fault { MatchResult result (λ _. W.failed to.new ≡ W.failed to.old)
            (IsEncodeStop (offset self.now) (Self.layout.payload (Self.view self.now)) (W.written to.old) (W.written to.new)
            (W.failed to.old) (W.failed to.new) (W.last_fault to.new)) }
        ensures same { W.through to.new ≡ W.through to.old }
    {
        write_value(alloc, self, self.payload_offset(), Self::filling(), to)
    }
}

/// The law that a message that was written is read again. It does nothing.
///
/// Its conditions: numbers fit their fields, and signature and checksum scheme are those that are read; the header's
/// length field is where the payload begins; and the payload ends within 32 bits.
pub fn written_is_read<M: NegoexMessage>()
    ensures { WrittenIsRead M.layout M.filler }
{}

impl NegoexMessage for Exchange {
    ghost use Rattle.std.specs.Prelude.{[]};

    ghost filler = { [] };

    ghost offset = { λ e. e.header.header_len };

    fn filling() -> &'static [u8] {
        &[]
    }

    fn payload_offset(&self) -> usize {
        self.header.header_len as usize
    }
}

impl NegoexMessage for Nego {
    ghost use Rattle.std.specs.Prelude.{[]};

    ghost filler = { [] };

    ghost offset = { λ n. n.header.header_len };

    fn filling() -> &'static [u8] {
        &[]
    }

    fn payload_offset(&self) -> usize {
        self.header.header_len as usize
    }
}

// Four zeros precede the checksum's value, and count as the header's.
impl NegoexMessage for Verify {
    ghost use Rattle.std.specs.Prelude.{[], ◌∷◌};

    ghost filler = { 0 ∷ 0 ∷ 0 ∷ 0 ∷ [] };

    ghost offset = { λ v. v.header.header_len };

    fn filling() -> &'static [u8] {
        &[0, 0, 0, 0]
    }

    fn payload_offset(&self) -> usize {
        self.header.header_len as usize
    }
}
