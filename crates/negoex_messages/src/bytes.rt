//! Bytes that are appended to others, and places in a message.
ghost use Rattle.std.specs.Prelude.{◌≡◌, ℕ, ◌+◌, ◌*◌, ◌^◌, ◌<◌, ◌≤◌, ◌++◌, take, drop, MatchResult};
ghost use Rattle.std.specs.declared.io.ErrorKind.{ErrorKind};
ghost use Rattle.byte_streams.specs.Numbers.{le32};
ghost use Rattle.negoex_messages.specs.Form.{cut};

use crate::error::NegoexError;
use byte_streams::u32_le_bytes;
use std::io::ErrorKind;

// Returns so many bytes from `place` on; fewer where they end before.
pub(crate) fn cut_of(bytes: &[u8], place: usize, size: usize) -> &[u8]
    ensures { result.now ≡ cut place size bytes.now }
{
    front_of(rest_of(bytes, place), size)
}

/// Returns the first bytes; fewer where they end before.
pub fn front_of(bytes: &[u8], size: usize) -> &[u8]
    ensures { result.now ≡ take size bytes.now }
{
    if size >= bytes.len() {
        return bytes;
    }
    &bytes[..size]
}

// Returns the bytes after the first.
pub(crate) fn rest_of(bytes: &[u8], size: usize) -> &[u8]
    ensures { result.now ≡ drop size bytes.now }
{
    if size >= bytes.len() {
        return &[];
    }
    &bytes[size..]
}

/// Appends bytes to others; `OutOfMemory` where there is no room for them.
pub fn extend(to: &mut Vec<u8>, bytes: &[u8]) -> Result<(), NegoexError>
    ensures { MatchResult result (λ _. to.new.items ≡ to.old.items ++ bytes.now) (λ e. e.kind ≡ ErrorKind.OutOfMemory) }
{
    match to.extend_from_slice(bytes) {
        Ok(()) => Ok(()),
        Err(_) => Err(NegoexError {
            kind: ErrorKind::OutOfMemory,
        }),
    }
}

// Appends a number of four bytes, the lowest first.
pub(crate) fn extend_number(to: &mut Vec<u8>, number: usize) -> Result<(), NegoexError>
    requires { number < 2 ^ 32 }
    ensures { MatchResult result (λ _. to.new.items ≡ to.old.items ++ le32 number) (λ e. e.kind ≡ ErrorKind.OutOfMemory) }
{
    extend(to, &u32_le_bytes(number as u32))
}

/// Computes the place after so many elements of one size, which has to be a number of 32 bits: `InvalidInput` where it isn't.
pub fn place_behind(place: usize, count: usize, size: usize) -> Result<usize, NegoexError>
    ensures { MatchResult result (λ behind. (behind ≡ place + count * size) × (behind < 2 ^ 32))
        (λ e. (e.kind ≡ ErrorKind.InvalidInput) × (2 ^ 32 ≤ place + count * size)) }
{
    let Some(all) = count.checked_mul(size) else {
        return Err(NegoexError {
            kind: ErrorKind::InvalidInput,
        });
    };
    let Some(behind) = place.checked_add(all) else {
        return Err(NegoexError {
            kind: ErrorKind::InvalidInput,
        });
    };
    if behind > u32::MAX as usize {
        return Err(NegoexError {
            kind: ErrorKind::InvalidInput,
        });
    }
    Ok(behind)
}
