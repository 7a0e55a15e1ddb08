//! Numbers of four octets, the highest first.
ghost use Rattle.std.specs.Prelude.{◌≡◌, ◌+◌, ◌≤◌, length};
ghost use Rattle.krb_file_formats.specs.Numbers.{be32, be32_at};

use byteorder::{BigEndian, ByteOrder};

/// Returns the number of the four octets at `place`, the highest first.
#[tactic(auto, unfolding(crate::specs::Numbers::be32_at))]
pub fn u32_be(bytes: &[u8], place: usize) -> u32
    requires { place + 4 ≤ length bytes.now }
    ensures { result ≡ be32_at place bytes.now }
{
    BigEndian::read_u32(&bytes[place..])
}

/// Returns a number's four octets, the highest first.
#[tactic(auto, unfolding(crate::specs::Numbers::be32))]
pub fn u32_be_bytes(number: u32) -> [u8; 4]
    ensures { result ≡ be32 number }
{
    let mut bytes = [0; 4];
    BigEndian::write_u32(&mut bytes, number);
    bytes
}
