//! The types of which messages are made up, read from and written to devices.
ghost use Rattle.std.specs.Prelude.{◌≡◌, ℕ, ◌+◌, ◌-◌, ◌^◌, ◌≤◌, ◌⊎◌, List, [], length, min, take, IfOk, IfErr, IfSome, MatchResult};
ghost use Rattle.std.specs.Io.KnownBytes.{Appends, Consumes};
ghost use Rattle.negoex_messages.specs.Form.{IsTooLong};
ghost use Rattle.negoex_messages.specs.Messages.{IsMessage, message_bytes, IsTrueOffset, IsEncodeStop};
ghost use Rattle.byte_streams.specs.Stops.{IsWriteStop};
ghost use Rattle.negoex_messages.specs.Sources.{IsGiven, IsRefusal, TellsRead};

use crate::reading::read_value;
use crate::writing::{write_out, write_value};
use crate::{Checksum, Extension, Guid, Laid, MessageHeader, MessageType, NegoexError, Wide};
use byte_streams::{Sink, Source};
use std::alloc::Global;

/// A type of which messages are made up (MS-NEGOEX, section 2.2.5).
pub trait NegoexDataType: Wide {
    // The bytes that the size counts besides header and payload.
    ghost spare: { ℕ };

    // The place that `encode` gives the payload.
    ghost place: { Self → ℕ };

    /// The length of header and payload; the greatest `usize` where it would be more.
    fn size(&self) -> usize
        ensures { result ≡ min (Self.layout.width + spare + Self.layout.payload (Self.view self.now)) (2 ^ 64 - 1) };

    /// The place that [`encode`](NegoexDataType::encode) gives the payload.
    fn payload_offset(&self) -> usize
        ensures { result ≡ place self.now };

    /// The length of the header.
    final fn header_size() -> usize
        ensures { result ≡ Self.layout.width }
    {
        Self::width()
    }

    /// Writes the header followed by the payload; a front of them where the writer stops.
    final fn encode<W: Sink>(&self, alloc: Global, to: &mut W) -> Result<(), NegoexError>
        ensures written { MatchResult result
            (λ _. Appends (W.written to.old) (W.written to.new) (message_bytes Self.layout [] (Self.view self.now) (place self.now)))
            (λ _. (n : ℕ) × Appends (W.written to.old) (W.written to.new)
            (take n (message_bytes Self.layout [] (Self.view self.now) (place self.now)))) }
        ensures laid { IfOk result (λ _. IsTrueOffset Self.layout [] (place self.now)
            → IsMessage Self.layout (Self.view self.now) (message_bytes Self.layout [] (Self.view self.now) (place self.now))) }
        ensures fault { MatchResult result (λ _. W.failed to.new ≡ W.failed to.old)
            (IsEncodeStop (place self.now) (Self.layout.payload (Self.view self.now)) (W.written to.old) (W.written to.new)
            (W.failed to.old) (W.failed to.new) (W.last_fault to.new)) }
        ensures same { W.through to.new ≡ W.through to.old }
    {
        write_value(alloc, self, self.payload_offset(), &[], to)
    }

    /// Writes the header, as it is where the payload begins at `offset`, to the one and the payload to the other; returns
    /// the length of the payload. A front of either where its writer stops.
    final fn encode_with_payload<W: Sink, D: Sink>(
        &self,
        alloc: Global,
        offset: usize,
        to: &mut W,
        payload: &mut D,
    ) -> Result<usize, NegoexError>
        ensures header { MatchResult result
            (λ _. Appends (W.written to.old) (W.written to.new) (Self.layout.head (Self.view self.now) offset))
            (λ _. (n : ℕ) × Appends (W.written to.old) (W.written to.new) (take n (Self.layout.head (Self.view self.now) offset))) }
        ensures payload { MatchResult result
            (λ _. Appends (D.written payload.old) (D.written payload.new) (Self.layout.body (Self.view self.now) offset))
            (λ _. (n : ℕ) × Appends (D.written payload.old) (D.written payload.new) (take n (Self.layout.body (Self.view self.now) offset))) }
        ensures count { IfOk result (λ n. n ≡ Self.layout.payload (Self.view self.now)) }
        ensures fault { MatchResult result
            (λ _. (W.failed to.new ≡ W.failed to.old) × (D.failed payload.new ≡ D.failed payload.old))
            (λ e. (IsTooLong offset (Self.layout.payload (Self.view self.now)) e
            × (W.written to.new ≡ W.written to.old) × (W.failed to.new ≡ W.failed to.old)
            × (D.written payload.new ≡ D.written payload.old) × (D.failed payload.new ≡ D.failed payload.old))
            ⊎ ((IsWriteStop (W.failed to.old) (W.failed to.new) (W.last_fault to.new) e.kind
            × (D.written payload.new ≡ D.written payload.old) × (D.failed payload.new ≡ D.failed payload.old))
            ⊎ (IsWriteStop (D.failed payload.old) (D.failed payload.new) (D.last_fault payload.new) e.kind × (W.failed to.new ≡ W.failed to.old)))) }
        ensures same { (W.through to.new ≡ W.through to.old) × (D.through payload.new ≡ D.through payload.old) }
    {
        let mut header = Vec::new(alloc);
        let mut body = Vec::new(alloc);
        self.put(alloc, offset, &mut header, &mut body)?;
        write_out(to, &header)?;
        write_out(payload, &body)?;
        Ok(body.len())
    }

    /// Reads the header from the one, and the payload where the header says, in the message.
    ///
    /// The first fault in the order of the bytes is returned. First comes what is wrong with those of the header that are
    /// there, then a fault of the device or `UnexpectedEof`, then what is wrong with the payload. Or memory ran out
    /// (`OutOfMemory`).
    final fn decode<R: Source>(
        alloc: Global,
        from: &mut R,
        message: &[u8],
    ) -> Result<Self, NegoexError>
        ensures found { IfOk result (λ t. (header : List ℕ) × Self.layout.IsLaid (Self.view t) header message.now
            × Consumes (R.left from.old) (R.left from.new) header) }
        ensures only { IfSome (R.left from.old) (λ bytes.
            IsGiven Self.view Self.layout message.now bytes (R.left from.new) (R.failed from.old) (R.failed from.new) (R.last_fault from.new) result) }
        ensures count { MatchResult result (λ _. R.failed from.new ≡ R.failed from.old)
            (TellsRead Self.layout message.now (R.left from.new) (R.failed from.old) (R.failed from.new) (R.last_fault from.new)) }
        ensures refused { IfErr result (λ e. IfSome (R.left from.old) (λ bytes.
            IsRefusal Self.layout message.now bytes (R.left from.new) (R.failed from.old) (R.failed from.new) (R.last_fault from.new) e)) }
        ensures same { R.through from.new ≡ R.through from.old }
    {
        let mut buffer = [0; 40];
        read_value(alloc, from, &mut buffer[..Self::width()], message)
    }

    // The header fits the buffer that it is read into.
    ghost narrow: { Self.Laid.layout.width ≤ 40 };
}

impl NegoexDataType for u8 {
    ghost use Rattle.std.specs.Prelude.{refl};
    ghost use Rattle.negoex_messages.specs.Widths.{at_most_40};

    ghost narrow = { at_most_40 1 refl };

    ghost spare = { 0 };

    ghost place = { λ _. 1 };

    fn size(&self) -> usize {
        1
    }

    fn payload_offset(&self) -> usize {
        1
    }
}

impl NegoexDataType for Guid {
    ghost use Rattle.std.specs.Prelude.{refl};
    ghost use Rattle.negoex_messages.specs.Widths.{at_most_40};

    ghost narrow = { at_most_40 16 refl };

    ghost spare = { 0 };

    ghost place = { λ _. 16 };

    fn size(&self) -> usize {
        16
    }

    fn payload_offset(&self) -> usize {
        16
    }
}

impl NegoexDataType for MessageType {
    ghost use Rattle.std.specs.Prelude.{refl};
    ghost use Rattle.negoex_messages.specs.Widths.{at_most_40};

    ghost narrow = { at_most_40 4 refl };

    ghost spare = { 0 };

    ghost place = { λ _. 4 };

    fn size(&self) -> usize {
        4
    }

    fn payload_offset(&self) -> usize {
        4
    }
}

impl NegoexDataType for MessageHeader {
    ghost use Rattle.std.specs.Prelude.{refl};
    ghost use Rattle.negoex_messages.specs.Widths.{at_most_40};

    ghost narrow = { at_most_40 40 refl };

    ghost spare = { 0 };

    ghost place = { λ _. 40 };

    fn size(&self) -> usize {
        40
    }

    fn payload_offset(&self) -> usize {
        40
    }
}

impl NegoexDataType for Extension {
    ghost use Rattle.std.specs.Prelude.{refl};
    ghost use Rattle.negoex_messages.specs.Widths.{at_most_40};

    ghost narrow = { at_most_40 12 refl };

    ghost spare = { 0 };

    ghost place = { λ _. 12 };

    fn size(&self) -> usize {
        self.payload_size().saturating_add(12)
    }

    fn payload_offset(&self) -> usize {
        12
    }
}

// The size counts the four zeros before the value in a message.
impl NegoexDataType for Checksum {
    ghost use Rattle.std.specs.Prelude.{refl};
    ghost use Rattle.negoex_messages.specs.Widths.{at_most_40};

    ghost narrow = { at_most_40 20 refl };

    ghost spare = { 4 };

    ghost place = { λ c. c.header_len };

    fn size(&self) -> usize {
        self.payload_size().saturating_add(24)
    }

    fn payload_offset(&self) -> usize {
        self.header_len as usize
    }
}

impl<T: Wide + Drop> NegoexDataType for Vec<T> {
    ghost use Rattle.std.specs.Prelude.{refl};
    ghost use Rattle.negoex_messages.specs.Widths.{at_most_40};

    ghost narrow = { at_most_40 8 refl };

    ghost spare = { 0 };

    ghost place = { λ _. 8 };

    fn size(&self) -> usize {
        self.payload_size().saturating_add(8)
    }

    fn payload_offset(&self) -> usize {
        8
    }
}
