//! The headers before a value, and the padding behind it (MS-RPCE, sections 2.2.6.1 and 2.2.6.2).
ghost use Rattle.std.specs.Prelude.{◌≡◌};
ghost use Rattle.krb_pac.specs.Headers.{value_place, ended_at};

use crate::error::PacFault;
use crate::ndr::places::gap;
use byte_streams::u32_le;

/// The octets of both headers.
const HEADER_SIZE: usize = 16;

/// Version 1, Endianness 0x10 and CommonHeaderLength 8, as one number of four octets.
const COMMON_HEADER: u32 = 0x0008_1001;

/// Returns the place of the value behind the headers. It refuses as `Header` if they aren't those of version 1 in little endian, and as
/// `ObjectBufferLength` if they state another length than that of the octets behind them.
#[tactic(auto, unfolding(crate::specs::Headers::value_place))]
pub(crate) fn value_place(bytes: &[u8]) -> Result<usize, PacFault>
    ensures { result ≡ value_place bytes.now }
{
    if bytes.len() < HEADER_SIZE {
        return Err(PacFault::Short);
    }
    if u32_le(bytes, 0) != COMMON_HEADER {
        return Err(PacFault::Header);
    }
    if u32_le(bytes, 8) as usize != bytes.len() - HEADER_SIZE {
        return Err(PacFault::ObjectBufferLength);
    }
    Ok(HEADER_SIZE)
}

/// Judges that a value that ends at `place` is the last: the octets end at the next multiple of 8. It refuses as `Trailing` otherwise.
#[tactic(auto, unfolding(crate::specs::Headers::ended_at))]
pub(crate) fn ended_at(bytes: &[u8], place: usize) -> Result<(), PacFault>
    ensures { result ≡ ended_at place bytes.now }
{
    let padding = gap(place, 8);
    if bytes.len() as u128 != place as u128 + padding as u128 {
        return Err(PacFault::Trailing);
    }
    Ok(())
}
