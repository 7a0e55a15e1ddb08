//! PAC_ATTRIBUTES_INFO (MS-PAC, section 2.14).
ghost use Rattle.std.specs.Prelude.{◌≡◌};
ghost use Rattle.krb_pac.specs.Attributes.{pac_attributes};

use crate::error::PacFault;
use byte_streams::u32_le;

/// The octets of both fields.
const ATTRIBUTES_SIZE: usize = 8;

/// How many bits one word of flags has.
const WORD_BITS: u32 = 32;

/// Whether the client asked for a PAC.
#[derive(Clone, Copy, Debug, PartialEq, Eq)]
pub struct PacAttributes {
    /// How many bits of the flags are in use: 2 by MS-PAC.
    pub flags_length: u32,
    /// 1: a PAC was requested. 2: a PAC was given without being requested.
    pub flags: u32,
}

impl PacAttributes {
    /// Reads the buffer's content: a length of 1 to 32 bits, and one word of flags.
    #[tactic(auto, unfolding(crate::specs::Attributes::pac_attributes))]
    pub fn read(bytes: &[u8]) -> Result<PacAttributes, PacFault>
        ensures { result ≡ pac_attributes bytes.now }
    {
        if bytes.len() < ATTRIBUTES_SIZE {
            return Err(PacFault::Short);
        }
        let flags_length = u32_le(bytes, 0);
        if flags_length == 0 || flags_length > WORD_BITS {
            return Err(PacFault::Lengths);
        }
        if bytes.len() != ATTRIBUTES_SIZE {
            return Err(PacFault::Trailing);
        }
        Ok(PacAttributes {
            flags_length,
            flags: u32_le(bytes, 4),
        })
    }
}
