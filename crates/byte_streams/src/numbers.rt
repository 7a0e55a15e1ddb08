//! Numbers that are in bytes.
ghost use Rattle.std.specs.Prelude.{◌≡◌, ℕ, ◌+◌, ◌≤◌, length, take, drop};
ghost use Rattle.byte_streams.specs.Numbers.{be16, be16_at, be64, be64_at, le32, le32_at, le64, le64_at};
ghost use Rattle.byte_streams.specs.Parts.{part, Stands};

use byteorder::{BigEndian, ByteOrder, LittleEndian};

/// The bytes at `place`.
pub fn array_at<const N: usize>(bytes: &[u8], place: usize) -> [u8; N]
    requires { place + N ≤ length bytes.now }
    ensures { result ≡ take N (drop place bytes.now) }
{
    let mut array = [0; N];
    array.copy_from_slice(&bytes[place..place + N]);
    array
}

/// The number of the two bytes at `place`, the highest first.
#[tactic(auto, unfolding(crate::specs::Numbers::be16_at))]
pub fn u16_be(bytes: &[u8], place: usize) -> u16
    requires { place + 2 ≤ length bytes.now }
    ensures read { result ≡ be16_at place bytes.now }
    ensures stands { Stands (part place (be16 result)) bytes.now }
{
    BigEndian::read_u16(&bytes[place..])
}

/// The number of the eight bytes at `place`, the highest first.
#[tactic(auto, unfolding(crate::specs::Numbers::be64_at))]
pub fn u64_be(bytes: &[u8], place: usize) -> u64
    requires { place + 8 ≤ length bytes.now }
    ensures read { result ≡ be64_at place bytes.now }
    ensures stands { Stands (part place (be64 result)) bytes.now }
{
    BigEndian::read_u64(&bytes[place..])
}

/// The number of the four bytes at `place`, the lowest first.
#[tactic(auto, unfolding(crate::specs::Numbers::le32_at))]
pub fn u32_le(bytes: &[u8], place: usize) -> u32
    requires { place + 4 ≤ length bytes.now }
    ensures read { result ≡ le32_at place bytes.now }
    ensures stands { Stands (part place (le32 result)) bytes.now }
{
    LittleEndian::read_u32(&bytes[place..])
}

/// The number of the eight bytes at `place`, the lowest first.
#[tactic(auto, unfolding(crate::specs::Numbers::le64_at))]
pub fn u64_le(bytes: &[u8], place: usize) -> u64
    requires { place + 8 ≤ length bytes.now }
    ensures read { result ≡ le64_at place bytes.now }
    ensures stands { Stands (part place (le64 result)) bytes.now }
{
    LittleEndian::read_u64(&bytes[place..])
}

/// A number's two bytes, the highest first.
#[tactic(auto, unfolding(crate::specs::Numbers::be16))]
pub fn u16_be_bytes(number: u16) -> [u8; 2]
    ensures bytes { result ≡ be16 number }
    ensures size { length result ≡ 2 }
{
    let mut bytes = [0; 2];
    BigEndian::write_u16(&mut bytes, number);
    bytes
}

/// A number's eight bytes, the highest first.
#[tactic(auto, unfolding(crate::specs::Numbers::be64))]
pub fn u64_be_bytes(number: u64) -> [u8; 8]
    ensures bytes { result ≡ be64 number }
    ensures size { length result ≡ 8 }
{
    let mut bytes = [0; 8];
    BigEndian::write_u64(&mut bytes, number);
    bytes
}

/// A number's four bytes, the lowest first.
#[tactic(auto, unfolding(crate::specs::Numbers::le32))]
pub fn u32_le_bytes(number: u32) -> [u8; 4]
    ensures bytes { result ≡ le32 number }
    ensures size { length result ≡ 4 }
{
    let mut bytes = [0; 4];
    LittleEndian::write_u32(&mut bytes, number);
    bytes
}

/// A number's eight bytes, the lowest first.
#[tactic(auto, unfolding(crate::specs::Numbers::le64))]
pub fn u64_le_bytes(number: u64) -> [u8; 8]
    ensures bytes { result ≡ le64 number }
    ensures size { length result ≡ 8 }
{
    let mut bytes = [0; 8];
    LittleEndian::write_u64(&mut bytes, number);
    bytes
}
