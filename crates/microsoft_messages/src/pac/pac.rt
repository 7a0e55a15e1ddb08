//! The whole PAC (MS-PAC, section 2.3).
ghost use Rattle.std.specs.Prelude.{◌≡◌, ℕ, ◌+◌, ◌*◌, ◌≤◌, ◌<◌, length, take, Ok, List, [], ◌∷◌, ◌++◌, None, IfOk, IfErr, IfSome, OnOk, MatchResult, map, replicate};
ghost use Rattle.std.specs.List.{list_all};
ghost use Rattle.byte_streams.specs.Parts.{part, put, put_all};
ghost use Rattle.byte_streams.specs.Numbers.{le32};
ghost use Rattle.microsoft_messages.specs.PacReading.{Gives, head_at, pac_at};
ghost use Rattle.microsoft_messages.specs.Buffers.{Buffer, buffer_of, pac_buffers, buffer_parts, AreSized, IsPac, FieldsFit, AllFit};
ghost use Rattle.microsoft_messages.specs.PacWriting.{pac_size, is_sized, counted, pac_bytes, pac_written, ArePlaced};

use crate::pac::error::{short_fault, write_fault};
use crate::pac::info::INFO_LEN;
use crate::pac::{PacBuffer, PacError};
use byte_streams::{Sink, Source, put_at, read_to_stop, u32_le, u32_le_bytes, write_whole};
use std::alloc::{AllocError, Global};
use std::io::ErrorKind;

// The length of the bytes before the table: cBuffers and Version.
const HEAD_LEN: usize = 8;

/// A PAC.
#[derive(Debug, Drop, PartialEq, Eq)]
pub struct Pac {
    buffers: Vec<PacBuffer>,
}

impl Clone for Pac {
    ghost is_clone = { λ pac copy. pac_buffers copy ≡ pac_buffers pac };

    fn clone(&self) -> Result<Pac, AllocError> {
        let buffers = self.buffers.clone()?;
        Ok(Pac { buffers })
    }
}

// Reads cBuffers, the count of buffers.
fn read_head(bytes: &[u8], stop: Option<ErrorKind>) -> Result<u32, PacError>
    ensures exact { result ≡ head_at stop bytes.now }
    ensures room { IfOk result (λ _. 8 ≤ length bytes.now) }
{
    if bytes.len() < HEAD_LEN {
        return Err(short_fault(stop));
    }
    let version = u32_le(bytes, 4);
    if version != 0 {
        return Err(PacError::InvalidVersion(version));
    }
    Ok(u32_le(bytes, 0))
}

fn keep(buffers: &mut Vec<PacBuffer>, buffer: PacBuffer) -> Result<(), AllocError>
    ensures { OnOk result (buffers.new.items ≡ buffers.old.items ++ buffer ∷ []) }
{
    buffers.push(buffer)?;
    Ok(())
}

// Reads the buffers. Room is made for those alone whose rows are there, whatever the count is: for at most one in 16 bytes.
fn read_buffers(
    alloc: Global,
    bytes: &[u8],
    stop: Option<ErrorKind>,
) -> Result<Vec<PacBuffer>, PacError>
    ensures exact { Gives (λ v. map buffer_of v.items) result (pac_at stop bytes.now) }
    ensures room { IfOk result (λ v. 8 + 16 * length v.items ≤ length bytes.now) }
{
    let count = read_head(bytes, stop)?;
    let mut buffers = Vec::new(alloc);
    for i in 0..count {
        let place = HEAD_LEN + INFO_LEN * i as usize;
        let buffer = PacBuffer::read(alloc, bytes, place, stop)?;
        keep(&mut buffers, buffer)?;
    }
    Ok(buffers)
}

// Reads a PAC from these bytes.
fn read_pac(alloc: Global, bytes: &[u8], stop: Option<ErrorKind>) -> Result<Pac, PacError>
    ensures exact { Gives pac_buffers result (pac_at stop bytes.now) }
    ensures laid { IfOk result (λ p. IsPac (pac_buffers p) bytes.now) }
{
    let buffers = read_buffers(alloc, bytes, stop)?;
    Ok(Pac { buffers })
}

// Computes the length of a PAC with these buffers; none where that is past what memory holds.
fn size_of(buffers: &[PacBuffer]) -> Option<usize>
    ensures size { IfSome result (λ n. n ≡ pac_size (map buffer_of buffers.now)) }
    ensures fit { IfSome result (λ _. FieldsFit (map buffer_of buffers.now)) }
{
    let mut size = HEAD_LEN;
    for buffer in buffers {
        size = size.checked_add(buffer.room())?;
    }
    Some(size)
}

fn are_sized(buffers: &[PacBuffer], size: usize) -> bool
    ensures { result ≡ list_all (λ b. is_sized size (buffer_of b)) buffers.now }
{
    buffers.iter().all(|buffer| buffer.is_sized(size))
}

// Counts the buffers, where each is of its size and within `size` bytes.
fn count_sized(buffers: &[PacBuffer], size: usize) -> Result<u32, PacError>
    ensures { result ≡ counted size (map buffer_of buffers.now) }
{
    if (u32::MAX as usize) < buffers.len() {
        return Err(PacError::InvalidRange);
    }
    if !are_sized(buffers, size) {
        return Err(PacError::InvalidRange);
    }
    Ok(buffers.len() as u32)
}

fn put_head(bytes: &mut [u8], count: u32)
    requires { 8 ≤ length bytes.old }
    ensures parts { bytes.new ≡ put (part 4 (le32 0)) (put (part 0 (le32 count)) bytes.old) }
    ensures size { length bytes.new ≡ length bytes.old }
{
    put_at(bytes, 0, &u32_le_bytes(count));
    put_at(bytes, 4, &u32_le_bytes(0));
}

fn put_buffers(bytes: &mut [u8], buffers: &[PacBuffer])
    requires room { 8 + 16 * length buffers.now ≤ length bytes.old }
    requires sized { AreSized (length bytes.old) (map buffer_of buffers.now) }
    ensures { bytes.new ≡ put_all (buffer_parts 8 (map buffer_of buffers.now)) bytes.old }
{
    for (i, buffer) in buffers.iter().enumerate() {
        buffer.put(bytes, HEAD_LEN + INFO_LEN * i);
    }
}

fn zeros(alloc: Global, size: usize) -> Result<Vec<u8>, AllocError>
    ensures { IfOk result (λ v. v.items ≡ replicate size 0) }
{
    Ok(vec![in alloc; 0u8; size]?)
}

// Puts all parts to their places, in their order.
fn put_parts(bytes: &mut [u8], count: u32, buffers: &[PacBuffer])
    requires room { 8 + 16 * length buffers.now ≤ length bytes.old }
    requires sized { AreSized (length bytes.old) (map buffer_of buffers.now) }
    ensures { bytes.new ≡ put_all (buffer_parts 8 (map buffer_of buffers.now)) (put (part 4 (le32 0)) (put (part 0 (le32 count)) bytes.old)) }
{
    put_head(bytes, count);
    put_buffers(bytes, buffers);
}

impl Pac {
    ghost use Rattle.std.specs.Io.KnownBytes.{Consumes, IsAtEnd, Appends};
    ghost use Rattle.microsoft_messages.specs.Refusals.{IsRefusal, IsExcuse, TellsPac};
    ghost use Rattle.microsoft_messages.specs.PacWriting.{IsWriteRefusal};

    /// Makes a PAC of these buffers.
    pub fn new(buffers: Vec<PacBuffer>) -> Pac
        ensures { pac_buffers result ≡ map buffer_of buffers.items }
    {
        Pac { buffers }
    }

    /// The PAC's buffers.
    pub fn buffers(&self) -> &[PacBuffer]
        ensures { map buffer_of result.now ≡ pac_buffers self.now }
    {
        &self.buffers
    }

    // Encodes the PAC.
    fn bytes(&self, alloc: Global) -> Result<Vec<u8>, PacError>
        ensures exact { Gives (λ v. v.items) result (pac_written (pac_buffers self.now)) }
        ensures fit { IfOk result (λ _. AllFit (pac_buffers self.now)) }
    {
        let Some(size) = size_of(&self.buffers) else {
            return Err(PacError::Memory);
        };
        let count = count_sized(&self.buffers, size)?;
        let mut bytes = zeros(alloc, size)?;
        put_parts(&mut bytes, count, &self.buffers);
        Ok(bytes)
    }

    /// Writes the PAC; a front of it where the writer stops. Its buffers' rows are written in turn, and each content at
    /// its row's offset, into zeros: 8 bytes, 16 for each buffer, and each size rounded up to 8.
    ///
    /// A size other than the content's, and a buffer that ends past those bytes, is InvalidRange, and nothing is written.
    pub fn serialize<W: Sink>(&self, alloc: Global, writer: &mut W) -> Result<(), PacError>
        ensures written { MatchResult result
            (λ _. Appends (W.written writer.old) (W.written writer.new) (pac_bytes (pac_buffers self.now)))
            (λ _. (n : ℕ) × Appends (W.written writer.old) (W.written writer.new) (take n (pac_bytes (pac_buffers self.now)))) }
        ensures laid { IfOk result (λ _. ArePlaced (pac_buffers self.now) → IsPac (pac_buffers self.now) (pac_bytes (pac_buffers self.now))) }
        ensures judged { IfOk result (λ _. pac_written (pac_buffers self.now) ≡ Ok (pac_bytes (pac_buffers self.now))) }
        ensures fit { IfOk result (λ _. AllFit (pac_buffers self.now)) }
        ensures refused { MatchResult result (λ _. W.failed writer.new ≡ W.failed writer.old)
            (IsWriteRefusal (pac_buffers self.now) (W.written writer.old) (W.written writer.new)
            (W.failed writer.old) (W.failed writer.new) (W.last_fault writer.new)) }
        ensures same { W.through writer.new ≡ W.through writer.old }
    {
        let bytes = self.bytes(alloc)?;
        match write_whole(writer, &bytes) {
            Ok(()) => Ok(()),
            Err(fault) => Err(write_fault(fault)),
        }
    }

    /// Reads a PAC to the end of `reader`. Bytes after and between its buffers are dropped.
    ///
    /// The first fault in the order of the bytes is returned. It is IoError if they end within the head or the table, and
    /// InvalidVersion for another version than 0. For each buffer in turn it is PacBufferType for an unknown type, and
    /// InvalidRange if it ends past the bytes. If the device fails after bytes in which nothing is wrong, its fault is
    /// returned.
    pub fn deserialize<R: Source>(alloc: Global, reader: &mut R) -> Result<Pac, PacError>
        ensures found { IfOk result (λ p. (whole : List ℕ) × IsPac (pac_buffers p) whole
            × Consumes (R.left reader.old) (R.left reader.new) whole) }
        ensures end { IfOk result (λ _. IsAtEnd (R.left reader.new)) }
        ensures only { IfSome (R.left reader.old) (λ whole. (bs : List Buffer) → AllFit bs → IsPac bs whole
            → MatchResult result (λ p. pac_buffers p ≡ bs)
            (IsExcuse whole (R.left reader.new) (R.failed reader.old) (R.failed reader.new) (R.last_fault reader.new))) }
        ensures count { MatchResult result (λ _. R.failed reader.new ≡ R.failed reader.old)
            (TellsPac (R.left reader.new) (R.failed reader.old) (R.failed reader.new) (R.last_fault reader.new)) }
        ensures refused { IfErr result (λ e. IfSome (R.left reader.old) (λ whole.
            IsRefusal whole (R.left reader.new) (R.failed reader.old) (R.failed reader.new) (R.last_fault reader.new) e)) }
        ensures same { R.through reader.new ≡ R.through reader.old }
    {
        let came = read_to_stop(alloc, reader)?;
        let pac = read_pac(alloc, &came.bytes, came.fault)?;
        match came.fault {
            None => Ok(pac),
            Some(kind) => Err(PacError::IoError(kind)),
        }
    }
}

/// The law that reading gives back what was written, of buffers whose numbers fit their fields and whose contents
/// follow the table, don't overlap and are inside the bytes.
pub fn written_is_read()
    ensures { (bs : List Buffer) (out : List ℕ) → AllFit bs → ArePlaced bs → pac_written bs ≡ Ok out → pac_at None out ≡ Ok bs }
{}
