//! Frames of the sample protocol: an octet of flags, the token's length in four octets, the highest first, and the token.
ghost use Rattle.std.specs.Prelude.{◌≡◌, ◌≤◌, ◌<◌, ◌++◌, ℕ, List, [], length, take, drop, Some, IfOk, OnOk, MatchResult};
ghost use Rattle.std.specs.Int.{w32, to_be_bytes};
ghost use Rattle.std.specs.Io.KnownBytes.{Appends};
ghost use Rattle.example_acceptor.specs.Frames.{IsRead, IsToken, announced, framed};

use byte_streams::{Sink, Source, WholeFault, array_at, read_full, write_whole};
use std::alloc::{AllocError, Global};
use thiserror::Error;

/// How many octets a token may have.
pub(crate) const TOKEN_LIMIT: usize = 65_536;

/// A frame.
#[derive(Drop)]
pub(crate) struct Frame {
    /// What the token is, and what is asked of the receiver.
    pub(crate) flags: u8,
    /// The token.
    pub(crate) token: Vec<u8>,
}

/// Why a frame isn't read or written. It is shown as its name.
#[derive(Clone, Copy, Debug, PartialEq, Eq, Error)]
pub(crate) enum FrameFault {
    /// The stream ends within a frame.
    #[error("Truncated")]
    Truncated,
    /// A token has more than 65,536 octets.
    #[error("TokenTooLong")]
    TokenTooLong,
    /// The reader failed.
    #[error("Read")]
    Read,
    /// The writer failed, or took nothing.
    #[error("Write")]
    Write,
    /// Memory ran out.
    #[error("Memory")]
    Memory,
}

// The length that a frame's first five octets announce.
fn token_len(prefix: &[u8]) -> usize
    requires { length prefix.now ≡ 5 }
    ensures announced { result ≡ announced prefix.now }
    ensures octets { to_be_bytes w32 result ≡ take 4 (drop 1 prefix.now) }
{
    u32::from_be_bytes(array_at::<4>(prefix, 1)) as usize
}

// The next octets of a stream, which has to have so many.
fn read_token<R: Source>(alloc: Global, reader: &mut R, size: usize) -> Result<Vec<u8>, FrameFault>
    ensures taken { (stream : List ℕ) → R.left reader.old ≡ Some stream → IsToken stream (R.left reader.new) size result }
    ensures size { IfOk result (λ token. length token.items ≡ size) }
{
    let mut token = vec![in alloc; 0u8; size].map_err(|_| FrameFault::Memory)?;
    match read_full(reader, &mut token) {
        Ok(count) if count == size => Ok(token),
        Ok(_) => Err(FrameFault::Truncated),
        Err(_) => Err(FrameFault::Read),
    }
}

/// Reads the next frame, or none at the end of the stream.
pub(crate) fn read_frame<R: Source>(
    alloc: Global,
    reader: &mut R,
) -> Result<Option<Frame>, FrameFault>
    ensures { (stream : List ℕ) → R.left reader.old ≡ Some stream → IsRead stream (R.left reader.new) result }
{
    let mut prefix = [0; 5];
    let Ok(count) = read_full(reader, &mut prefix) else {
        return Err(FrameFault::Read);
    };
    if count == 0 {
        return Ok(None);
    }
    if count < prefix.len() {
        return Err(FrameFault::Truncated);
    }
    let size = token_len(&prefix);
    if size > TOKEN_LIMIT {
        return Err(FrameFault::TokenTooLong);
    }
    let token = read_token(alloc, reader, size)?;
    Ok(Some(Frame {
        flags: prefix[0],
        token,
    }))
}

// The octets of a frame.
fn octets_of(alloc: Global, flags: u8, token: &[u8]) -> Result<Vec<u8>, AllocError>
    requires { length token.now ≤ 65536 }
    ensures { IfOk result (λ octets. octets.items ≡ framed flags token.now) }
{
    let size = token.len() as u32;
    let mut octets = Vec::with_capacity(alloc, 5 + token.len())?;
    octets.push(flags)?;
    octets.extend_from_slice(&size.to_be_bytes())?;
    octets.extend_from_slice(token)?;
    Ok(octets)
}

/// Writes a frame, in one write where the writer takes all.
pub(crate) fn write_frame<W: Sink>(
    alloc: Global,
    writer: &mut W,
    frame: &Frame,
) -> Result<(), FrameFault>
    ensures { OnOk result (Appends (W.written writer.old) (W.written writer.new) (framed frame.now.flags frame.now.token.items)) }
{
    if frame.token.len() > TOKEN_LIMIT {
        return Err(FrameFault::TokenTooLong);
    }
    let Ok(octets) = octets_of(alloc, frame.flags, &frame.token) else {
        return Err(FrameFault::Memory);
    };
    match write_whole(writer, &octets) {
        Ok(()) => Ok(()),
        Err(WholeFault::Full | WholeFault::Failed(_)) => Err(FrameFault::Write),
        Err(WholeFault::Memory) => Err(FrameFault::Memory),
    }
}
