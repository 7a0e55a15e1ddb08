//! Numbers and octets of a cache.
ghost use Rattle.std.specs.Prelude.{◌≡◌, ◌+◌, ◌<◌, ◌≤◌, ◌^◌, length, IfOk, MatchResult};
ghost use Rattle.krb_file_formats.specs.Formats.{Gives, IsWriteRefusal, Writes, data32, exactly, number8, number16, number32};

use crate::credential_caches::fault::{CacheFault, CacheWriteFault, Found};
use crate::{u32_be, u32_be_bytes};
use byte_streams::{u16_be, u16_be_bytes};
use std::alloc::Global;

// The greatest number of 16 bits.
const MOST_16: usize = 65_535;

// The greatest number of 32 bits.
const MOST_32: usize = 4_294_967_295;

// Reads the octet at `place`.
pub(crate) fn read_number8(bytes: &[u8], place: usize) -> Found<u8>
    ensures { result ≡ number8.read place bytes.now }
{
    if bytes.len().saturating_sub(place) < 1 {
        return Err(CacheFault::PastEnd(place));
    }
    Ok((bytes[place], place + 1))
}

// Reads the number of two octets at `place`.
pub(crate) fn read_number16(bytes: &[u8], place: usize) -> Found<u16>
    ensures exact { result ≡ number16.read place bytes.now }
    ensures room { IfOk result (λ found. found.1 ≤ length bytes.now) }
{
    if bytes.len().saturating_sub(place) < 2 {
        return Err(CacheFault::PastEnd(place));
    }
    Ok((u16_be(bytes, place), place + 2))
}

// Reads the number of four octets at `place`.
pub(crate) fn read_number32(bytes: &[u8], place: usize) -> Found<u32>
    ensures exact { result ≡ number32.read place bytes.now }
    ensures room { IfOk result (λ found. found.1 ≤ length bytes.now) }
{
    if bytes.len().saturating_sub(place) < 4 {
        return Err(CacheFault::PastEnd(place));
    }
    Ok((u32_be(bytes, place), place + 4))
}

// Reads so many octets from `place` on.
pub(crate) fn read_octets(alloc: Global, bytes: &[u8], place: usize, count: usize) -> Found<Vec<u8>>
    requires { place ≤ length bytes.now }
    ensures { Gives (λ found. (found.0.items, found.1)) result ((exactly count).read place bytes.now) }
{
    if bytes.len() - place < count {
        return Err(CacheFault::PastEnd(place));
    }
    let end = place + count;
    let mut copy = Vec::new(alloc);
    copy.extend_from_slice(&bytes[place..end])?;
    Ok((copy, end))
}

// Reads the octets after the length of 32 bits at `place`.
pub(crate) fn read_data(alloc: Global, bytes: &[u8], place: usize) -> Found<Vec<u8>>
    ensures { Gives (λ found. (found.0.items, found.1)) result (data32.read place bytes.now) }
{
    let (count, begin) = read_number32(bytes, place)?;
    read_octets(alloc, bytes, begin, count as usize)
}

// Returns a count that fits 16 bits.
pub(crate) fn count16(count: usize) -> Result<u16, CacheWriteFault>
    ensures { MatchResult result (λ n. (n ≡ count) × (count < 256 ^ 2)) (IsWriteRefusal (count < 256 ^ 2)) }
{
    if MOST_16 < count {
        return Err(CacheWriteFault::TooLong);
    }
    Ok(count as u16)
}

// Returns a count that fits 32 bits.
pub(crate) fn count32(count: usize) -> Result<u32, CacheWriteFault>
    ensures { MatchResult result (λ n. (n ≡ count) × (count < 256 ^ 4)) (IsWriteRefusal (count < 256 ^ 4)) }
{
    if MOST_32 < count {
        return Err(CacheWriteFault::TooLong);
    }
    Ok(count as u32)
}

// Appends an octet.
pub(crate) fn put_number8(to: &mut Vec<u8>, number: u8) -> Result<(), CacheWriteFault>
    ensures { Writes number8 number result to.old.items to.new.items }
{
    to.extend_from_slice(&[number])?;
    Ok(())
}

// Appends a number of two octets.
pub(crate) fn put_number16(to: &mut Vec<u8>, number: u16) -> Result<(), CacheWriteFault>
    ensures { Writes number16 number result to.old.items to.new.items }
{
    to.extend_from_slice(&u16_be_bytes(number))?;
    Ok(())
}

// Appends a number of four octets.
pub(crate) fn put_number32(to: &mut Vec<u8>, number: u32) -> Result<(), CacheWriteFault>
    ensures { Writes number32 number result to.old.items to.new.items }
{
    to.extend_from_slice(&u32_be_bytes(number))?;
    Ok(())
}

// Appends octets after their length of 32 bits.
pub(crate) fn put_data(to: &mut Vec<u8>, octets: &[u8]) -> Result<(), CacheWriteFault>
    ensures { Writes data32 octets.now result to.old.items to.new.items }
{
    let count = count32(octets.len())?;
    to.extend_from_slice(&u32_be_bytes(count))?;
    to.extend_from_slice(octets)?;
    Ok(())
}
