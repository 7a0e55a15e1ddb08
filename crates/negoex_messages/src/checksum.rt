//! A checksum over messages (MS-NEGOEX, section 2.2.5.1.3).
ghost use Rattle.std.specs.Prelude.{◌≡◌};

use crate::error::NegoexError;
use crate::fields::ChecksumScheme;
use crate::laid::{Laid, Wide};
use crate::leaves::ByteVector;
use crate::pairs::put_both;
use std::alloc::{AllocError, Global};

/// A checksum over messages.
#[derive(Debug, Drop, PartialEq, Eq)]
pub struct Checksum {
    /// cbHeaderLength: the length of the checksum's own header, 20. It isn't judged.
    pub header_len: u32,
    /// [`CHECKSUM_SCHEME_RFC3961`](crate::fields::CHECKSUM_SCHEME_RFC3961). Another is written, and not read.
    pub checksum_scheme: u32,
    /// The type of the checksum, by its number of RFC 3961.
    pub checksum_type: u32,
    /// The checksum.
    pub checksum_value: ByteVector,
}

// The fields before the checksum's value.
impl Wide for (u32, (ChecksumScheme, u32)) {
    fn width() -> usize {
        12
    }
}

impl Clone for Checksum {
    ghost is_clone = { λ checksum copy. ⟦<Checksum as Laid>⟧.view copy ≡ ⟦<Checksum as Laid>⟧.view checksum };

    fn clone(&self) -> Result<Checksum, AllocError> {
        let checksum_value = self.checksum_value.clone()?;
        Ok(Checksum {
            header_len: self.header_len,
            checksum_scheme: self.checksum_scheme,
            checksum_type: self.checksum_type,
            checksum_value,
        })
    }
}

impl Laid for Checksum {
    ghost use Rattle.std.specs.Prelude.{map};
    ghost use Rattle.negoex_messages.specs.Structs.{ChecksumValue, checksum_layout};
    ghost use Rattle.negoex_messages.specs.StructLaws.{checksum_laws};

    ghost Value = { ChecksumValue };

    ghost view = { λ c. ((c.header_len, (c.checksum_scheme, c.checksum_type)), map (λ b. b) c.checksum_value.items) };

    ghost layout = { checksum_layout };

    ghost laws = { checksum_laws };

    fn from_header(alloc: Global, header: &[u8], message: &[u8]) -> Result<Self, NegoexError> {
        let ((header_len, (ChecksumScheme(checksum_scheme), checksum_type)), checksum_value): (
            (u32, (ChecksumScheme, u32)),
            ByteVector,
        ) = Laid::from_header(alloc, header, message)?;
        Ok(Checksum {
            header_len,
            checksum_scheme,
            checksum_type,
            checksum_value,
        })
    }

    fn put(
        &self,
        alloc: Global,
        offset: usize,
        header: &mut Vec<u8>,
        payload: &mut Vec<u8>,
    ) -> Result<(), NegoexError> {
        let kind = (ChecksumScheme(self.checksum_scheme), self.checksum_type);
        let fields = (self.header_len, kind);
        put_both(
            alloc,
            &fields,
            &self.checksum_value,
            offset,
            header,
            payload,
        )
    }

    fn payload_size(&self) -> usize {
        self.checksum_value.payload_size()
    }
}

impl Wide for Checksum {
    fn width() -> usize {
        20
    }
}
