//! A buffer of a PAC: its PAC_INFO_BUFFER and its content (MS-PAC, section 2.4).
ghost use Rattle.std.specs.Prelude.{◌≡◌, ◌+◌, ◌≤◌, ◌<◌, ◌^◌, length, None, Ok, Err, IfOk, IfErr, MatchResult};
ghost use Rattle.byte_streams.specs.Parts.{put_all};
ghost use Rattle.microsoft_messages.specs.Buffers.{buffer_of, one_buffer_parts, IsSized};
ghost use Rattle.microsoft_messages.specs.PacWriting.{room_of, is_sized, buffer_put};
ghost use Rattle.microsoft_messages.specs.PacReading.{Gives, content_at, buffer_at};

use crate::pac::error::range_fault;
use crate::pac::info::INFO_LEN;
use crate::pac::{PacError, PacInfoBuffer};
use byte_streams::put_at;
use std::alloc::{AllocError, Global};
use std::io::ErrorKind;

/// A buffer of a PAC: its PAC_INFO_BUFFER, the row of the table, and its content.
#[derive(Debug, Drop, PartialEq, Eq)]
pub struct PacBuffer {
    info_buffer: PacInfoBuffer,
    data: Vec<u8>,
}

impl Clone for PacBuffer {
    ghost is_clone = { λ buffer copy. buffer_of copy ≡ buffer_of buffer };

    fn clone(&self) -> Result<PacBuffer, AllocError> {
        let data = self.data.clone()?;
        Ok(PacBuffer {
            info_buffer: self.info_buffer,
            data,
        })
    }
}

// Reads the content of a row. It may end at the last of the bytes; where it ends past them, `stop` says why.
fn read_content(
    alloc: Global,
    bytes: &[u8],
    info: PacInfoBuffer,
    stop: Option<ErrorKind>,
) -> Result<PacBuffer, PacError>
    ensures { Gives buffer_of result (content_at stop info bytes.now) }
{
    let size = info.cb_buffer_size();
    if (bytes.len() as u128) < u128::from(info.offset()) + u128::from(size) {
        return Err(range_fault(stop));
    }
    let begin = info.offset() as usize;
    let mut data = Vec::new(alloc);
    data.extend_from_slice(&bytes[begin..begin + size as usize])?;
    Ok(PacBuffer {
        info_buffer: info,
        data,
    })
}

impl PacBuffer {
    /// Makes the buffer of this row and this content.
    pub fn new(info_buffer: PacInfoBuffer, bytes: Vec<u8>) -> PacBuffer
        ensures { buffer_of result ≡ record { info = info_buffer; content = bytes.items } }
    {
        PacBuffer {
            info_buffer,
            data: bytes,
        }
    }

    /// The buffer's row.
    pub fn info_buffer(&self) -> PacInfoBuffer
        ensures { result ≡ (buffer_of self.now).info }
    {
        self.info_buffer
    }

    /// The buffer's content.
    pub fn data(&self) -> &[u8]
        ensures { result.now ≡ (buffer_of self.now).content }
    {
        &self.data
    }

    /// Reads the buffer whose row is at `place`, which moves past the row. Where it is refused, `place` stays.
    pub fn deserialize(
        alloc: Global,
        bytes: &[u8],
        place: &mut usize,
    ) -> Result<PacBuffer, PacError>
        ensures exact { Gives buffer_of result (buffer_at None place.old bytes.now) }
        ensures moved { MatchResult result (λ _. place.new ≡ place.old + 16) (λ _. place.new ≡ place.old) }
    {
        let buffer = PacBuffer::read(alloc, bytes, *place, None)?;
        *place += INFO_LEN;
        Ok(buffer)
    }

    /// Writes the row to `place`, which moves past it, and the content to the row's offset. Where it is refused, nothing
    /// is written: IoError where the row has no room, and InvalidRange where the content isn't of the row's size or ends
    /// past the bytes.
    pub fn serialize(&self, bytes: &mut [u8], place: &mut usize) -> Result<(), PacError>
        ensures exact { MatchResult result
            (λ _. buffer_put place.old (buffer_of self.now) bytes.old ≡ Ok bytes.new)
            (λ e. buffer_put place.old (buffer_of self.now) bytes.old ≡ Err e) }
        ensures moved { MatchResult result (λ _. place.new ≡ place.old + 16) (λ _. place.new ≡ place.old) }
        ensures unchanged { IfErr result (λ _. bytes.new ≡ bytes.old) }
    {
        if bytes.len().saturating_sub(*place) < INFO_LEN {
            return Err(PacError::IoError(ErrorKind::WriteZero));
        }
        if !self.is_sized(bytes.len()) {
            return Err(PacError::InvalidRange);
        }
        self.put(bytes, *place);
        *place += INFO_LEN;
        Ok(())
    }

    // Reads the buffer whose row is at `place`.
    pub(crate) fn read(
        alloc: Global,
        bytes: &[u8],
        place: usize,
        stop: Option<ErrorKind>,
    ) -> Result<PacBuffer, PacError>
        ensures exact { Gives buffer_of result (buffer_at stop place bytes.now) }
        ensures room { IfOk result (λ _. place + 16 ≤ length bytes.now) }
    {
        let info = PacInfoBuffer::read(bytes, place, stop)?;
        read_content(alloc, bytes, info, stop)
    }

    // Computes the bytes that the buffer takes: its row, and its size rounded up to 8.
    pub(crate) fn room(&self) -> usize
        ensures size { result ≡ room_of (buffer_of self.now) }
        ensures fit { ((buffer_of self.now).info.cb_buffer_size < 2 ^ 32) × ((buffer_of self.now).info.offset < 2 ^ 64) }
    {
        // The proof looks into the row here: its numbers are of their types.
        let _offset = self.info_buffer.offset();
        INFO_LEN + (self.info_buffer.cb_buffer_size() as usize + 7) / 8 * 8
    }

    // Judges that the content has its row's size, and ends within `size` bytes.
    pub(crate) fn is_sized(&self, size: usize) -> bool
        ensures { result ≡ is_sized size (buffer_of self.now) }
    {
        let end = u128::from(self.info_buffer.offset())
            + u128::from(self.info_buffer.cb_buffer_size());
        self.info_buffer.cb_buffer_size() as usize == self.data.len() && end <= size as u128
    }

    // Writes the row to `place`, and then the content to its own.
    pub(crate) fn put(&self, bytes: &mut [u8], place: usize)
        requires room { place + 16 ≤ length bytes.old }
        requires sized { IsSized (length bytes.old) (buffer_of self.now) }
        ensures { bytes.new ≡ put_all (one_buffer_parts place (buffer_of self.now)) bytes.old }
    {
        self.info_buffer.put(bytes, place);
        put_at(bytes, self.info_buffer.offset() as usize, &self.data);
    }
}
