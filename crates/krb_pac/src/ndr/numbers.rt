//! Numbers, and pointers, which are numbers.
ghost use Rattle.std.specs.Prelude.{◌≡◌, ℕ, ◌+◌, ◌≤◌, ◌<◌, ◌^◌, List, length, Ok, IfOk};
ghost use Rattle.byte_streams.specs.Numbers.{le32};
ghost use Rattle.byte_streams.specs.Parts.{part, Stands};
ghost use Rattle.krb_pac.specs.Places.{IsLaid};
ghost use Rattle.krb_pac.specs.Numbers.{le16, le16_at, u16_at, u32_at, pointer_at};

use crate::error::Found;
use crate::ndr::places::start;
use byte_streams::u32_le;
use byteorder::{ByteOrder, LittleEndian};

/// Returns the number of the two octets at `place`, the lowest first.
#[tactic(auto, unfolding(crate::specs::Numbers::le16_at))]
pub(crate) fn u16_le(bytes: &[u8], place: usize) -> u16
    requires { place + 2 ≤ length bytes.now }
    ensures read { result ≡ le16_at place bytes.now }
    ensures stands { Stands (part place (le16 result)) bytes.now }
{
    LittleEndian::read_u16(&bytes[place..])
}

/// Returns the number of two octets at the first multiple of 2 from `place` on, and the place behind it. It refuses as `Short` if the
/// octets end before.
#[tactic(auto, unfolding(crate::specs::Numbers::u16_at))]
pub(crate) fn u16_at(bytes: &[u8], place: usize) -> Found<u16>
    ensures exact { result ≡ u16_at place bytes.now }
    ensures laid { IfOk result (λ r. IsLaid 2 (le16 r.0) place r.1 bytes.now) }
{
    let at = start(bytes, place, 2)?;
    Ok((u16_le(bytes, at), at + 2))
}

/// Returns the number of four octets at the first multiple of 4 from `place` on, and the place behind it. It refuses as `Short` if the
/// octets end before.
#[tactic(auto, unfolding(crate::specs::Numbers::u32_at))]
pub(crate) fn u32_at(bytes: &[u8], place: usize) -> Found<u32>
    ensures exact { result ≡ u32_at place bytes.now }
    ensures laid { IfOk result (λ r. IsLaid 4 (le32 r.0) place r.1 bytes.now) }
{
    let at = start(bytes, place, 4)?;
    Ok((u32_le(bytes, at), at + 4))
}

/// Returns whether the unique pointer at `place` has a referent, and the place behind the pointer.
#[tactic(auto, unfolding(crate::specs::Numbers::pointer_at))]
pub(crate) fn pointer_at(bytes: &[u8], place: usize) -> Found<bool>
    ensures { result ≡ pointer_at place bytes.now }
{
    let (identifier, end) = u32_at(bytes, place)?;
    Ok((identifier != 0, end))
}

/// The law that a number is read wherever its octets are laid: each number of the type has one spelling at a place.
pub fn numbers_are_read()
    ensures two { (n place end : ℕ) (whole : List ℕ) → n < 2 ^ 16 → IsLaid 2 (le16 n) place end whole → u16_at place whole ≡ Ok (n, end) }
    ensures four { (n place end : ℕ) (whole : List ℕ) → n < 2 ^ 32 → IsLaid 4 (le32 n) place end whole → u32_at place whole ≡ Ok (n, end) }
{}
