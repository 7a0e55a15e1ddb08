//! PAC_INFO_BUFFER, a row of a PAC's table: the type, the size and the offset of a buffer (MS-PAC, section 2.4).
ghost use Rattle.std.specs.Prelude.{◌≡◌, ℕ, ◌+◌, ◌≤◌, ◌⊎◌, List, length, take, None, Err, IfOk, IfErr, IfSome, MatchResult};
ghost use Rattle.std.specs.Io.KnownBytes.{Consumes, Appends};
ghost use Rattle.byte_streams.specs.Parts.{IsLaidOut, put_all};
ghost use Rattle.microsoft_messages.specs.Buffers.{info_parts, IsInfo, FitsInfo};
ghost use Rattle.microsoft_messages.specs.Faults.{IsWriteFault};
ghost use Rattle.microsoft_messages.specs.PacReading.{kind_at, fields_at, info_at};
ghost use Rattle.microsoft_messages.specs.Refusals.{IsRowBroken, IsRowRefusal, TellsRead};

use crate::pac::error::{short_fault, write_fault};
use crate::pac::{PacBufferType, PacError};
use byte_streams::{
    Sink, Source, put_at, read_front, u32_le, u32_le_bytes, u64_le, u64_le_bytes, write_whole,
};
use std::io::ErrorKind;

/// The length of a PAC_INFO_BUFFER: 16 bytes.
pub(crate) const INFO_LEN: usize = 16;

/// PAC_INFO_BUFFER, a row of the table.
#[derive(Clone, Copy, Debug, PartialEq, Eq)]
pub struct PacInfoBuffer {
    ul_type: PacBufferType,
    cb_buffer_size: u32,
    offset: u64,
}

// Reads ulType of the row at `place`.
fn read_kind(bytes: &[u8], place: usize, stop: Option<ErrorKind>) -> Result<PacBufferType, PacError>
    ensures { result ≡ kind_at stop place bytes.now }
{
    if bytes.len().saturating_sub(place) < 4 {
        return Err(short_fault(stop));
    }
    PacBufferType::try_from(u32_le(bytes, place))
}

// Reads the fields after ulType, of the row at `place`.
fn read_fields(
    kind: PacBufferType,
    bytes: &[u8],
    place: usize,
    stop: Option<ErrorKind>,
) -> Result<PacInfoBuffer, PacError>
    ensures { result ≡ fields_at stop kind place bytes.now }
{
    if bytes.len().saturating_sub(place) < INFO_LEN {
        return Err(short_fault(stop));
    }
    Ok(PacInfoBuffer {
        ul_type: kind,
        cb_buffer_size: u32_le(bytes, place + 4),
        offset: u64_le(bytes, place + 8),
    })
}

impl PacInfoBuffer {
    /// Makes the row of a buffer of this type, size and offset from the PAC's first byte.
    pub fn new(ul_type: PacBufferType, cb_buffer_size: u32, offset: u64) -> PacInfoBuffer
        ensures { result ≡ record { ul_type = ul_type; cb_buffer_size = cb_buffer_size; offset = offset } }
    {
        PacInfoBuffer {
            ul_type,
            cb_buffer_size,
            offset,
        }
    }

    /// ulType: the type of the buffer.
    pub fn ul_type(&self) -> PacBufferType
        ensures { result ≡ self.now.ul_type }
    {
        self.ul_type
    }

    /// cbBufferSize: the count of the buffer's bytes.
    pub fn cb_buffer_size(&self) -> u32
        ensures { result ≡ self.now.cb_buffer_size }
    {
        self.cb_buffer_size
    }

    /// Offset: the place of the buffer, in bytes from the PAC's first.
    pub fn offset(&self) -> u64
        ensures { result ≡ self.now.offset }
    {
        self.offset
    }

    // Reads the row at `place`; where bytes are missing, `stop` says why.
    pub(crate) fn read(
        bytes: &[u8],
        place: usize,
        stop: Option<ErrorKind>,
    ) -> Result<PacInfoBuffer, PacError>
        ensures exact { result ≡ info_at stop place bytes.now }
        ensures room { IfOk result (λ _. place + 16 ≤ length bytes.now) }
        ensures laid { IfOk result (λ info. IsLaidOut (info_parts place info) bytes.now) }
    {
        let kind = read_kind(bytes, place, stop)?;
        read_fields(kind, bytes, place, stop)
    }

    // Writes the row to `place`.
    pub(crate) fn put(&self, bytes: &mut [u8], place: usize)
        requires { place + 16 ≤ length bytes.old }
        ensures { bytes.new ≡ put_all (info_parts place self.now) bytes.old }
    {
        put_at(bytes, place, &u32_le_bytes(u32::from(self.ul_type)));
        put_at(bytes, place + 4, &u32_le_bytes(self.cb_buffer_size));
        put_at(bytes, place + 8, &u64_le_bytes(self.offset));
    }

    // Encodes the row in its 16 bytes.
    fn bytes(&self) -> [u8; INFO_LEN]
        ensures { IsInfo self.now result }
    {
        let mut bytes = [0; INFO_LEN];
        self.put(&mut bytes, 0);
        bytes
    }

    /// Writes the row's 16 bytes; a front of them where the writer stops.
    pub fn serialize<W: Sink>(&self, writer: &mut W) -> Result<(), PacError>
        ensures written { (whole : List ℕ) × IsInfo self.now whole
            × MatchResult result (λ _. Appends (W.written writer.old) (W.written writer.new) whole)
            (λ _. (n : ℕ) × Appends (W.written writer.old) (W.written writer.new) (take n whole)) }
        ensures refused { MatchResult result (λ _. W.failed writer.new ≡ W.failed writer.old)
            (IsWriteFault (W.failed writer.old) (W.failed writer.new) (W.last_fault writer.new)) }
        ensures same { W.through writer.new ≡ W.through writer.old }
    {
        match write_whole(writer, &self.bytes()) {
            Ok(()) => Ok(()),
            Err(fault) => Err(write_fault(fault)),
        }
    }

    /// Reads a row of 16 bytes, and leaves what follows it.
    ///
    /// The first fault in the order of the bytes is returned: IoError if they end within the type, PacBufferType, and IoError
    /// if they end after it. If the device fails there, its fault is returned.
    pub fn deserialize<R: Source>(reader: &mut R) -> Result<PacInfoBuffer, PacError>
        ensures found { IfOk result (λ info. (whole : List ℕ) × IsInfo info whole
            × Consumes (R.left reader.old) (R.left reader.new) whole) }
        ensures only { IfSome (R.left reader.old) (λ bytes. (info : PacInfoBuffer) → FitsInfo info → IsInfo info (take 16 bytes)
            → MatchResult result (λ read. read ≡ info)
            (IsRowBroken bytes (R.left reader.new) (R.failed reader.old) (R.failed reader.new) (R.last_fault reader.new))) }
        ensures count { MatchResult result (λ _. R.failed reader.new ≡ R.failed reader.old)
            (TellsRead (info_at None 0) (R.left reader.new) (R.failed reader.old) (R.failed reader.new) (R.last_fault reader.new)) }
        ensures refused { IfErr result (λ e. IfSome (R.left reader.old) (λ bytes.
            IsRowRefusal bytes (R.left reader.new) (R.failed reader.old) (R.failed reader.new) (R.last_fault reader.new) e)) }
        ensures same { R.through reader.new ≡ R.through reader.old }
    {
        let mut bytes = [0; INFO_LEN];
        let front = read_front(reader, &mut bytes);
        match PacInfoBuffer::read(&bytes[..front.count], 0, front.fault) {
            Ok(info) => Ok(info),
            Err(fault) => Err(fault),
        }
    }
}
