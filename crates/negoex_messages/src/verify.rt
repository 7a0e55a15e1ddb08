//! A checksum over all messages so far (MS-NEGOEX, section 2.2.6.5).
ghost use Rattle.std.specs.Prelude.{◌≡◌};

use crate::made_header::header_of;
use crate::{
    AuthScheme, ByteVector, CHECKSUM_SCHEME_RFC3961, Checksum, ConversationId, Laid, MessageHeader,
    MessageType, NegoexError, Wide, put_both,
};
use std::alloc::{AllocError, Global};

/// A checksum over all messages so far.
#[derive(Debug, Drop, PartialEq, Eq)]
pub struct Verify {
    /// The header that the message begins with.
    pub header: MessageHeader,
    /// The scheme whose key the checksum is made with.
    pub auth_scheme: AuthScheme,
    /// The checksum.
    pub checksum: Checksum,
}

impl Verify {
    ghost use Rattle.std.specs.Prelude.{◌+◌, ◌^◌, ◌≤◌, length, MatchResult};
    ghost use Rattle.std.specs.declared.io.ErrorKind.{ErrorKind};
    ghost use Rattle.negoex_messages.specs.MessageStructs.{made_header};

    /// A message of this checksum, with its true lengths; `InvalidInput` where it has 2^32 bytes or more.
    pub fn new(
        message_type: MessageType,
        conversation_id: ConversationId,
        sequence_num: u32,
        auth_scheme: AuthScheme,
        checksum_type: u32,
        checksum_value: ByteVector,
    ) -> Result<Verify, NegoexError>
        ensures { MatchResult result
            (λ m. m ≡ record {
              header = made_header message_type conversation_id sequence_num 80 (length checksum_value.items);
              auth_scheme = auth_scheme;
              checksum = record { header_len = 20; checksum_scheme = 1; checksum_type = checksum_type; checksum_value = checksum_value };
            })
            (λ e. (e.kind ≡ ErrorKind.InvalidInput) × (2 ^ 32 ≤ 80 + length checksum_value.items)) }
    {
        let header = header_of(
            message_type,
            conversation_id,
            sequence_num,
            80,
            checksum_value.len(),
        )?;
        Ok(Verify {
            header,
            auth_scheme,
            checksum: Checksum {
                header_len: 20,
                checksum_scheme: CHECKSUM_SCHEME_RFC3961,
                checksum_type,
                checksum_value,
            },
        })
    }
}

impl Clone for Verify {
    ghost is_clone = { λ message copy. ⟦<Verify as Laid>⟧.view copy ≡ ⟦<Verify as Laid>⟧.view message };

    fn clone(&self) -> Result<Verify, AllocError> {
        let checksum = self.checksum.clone()?;
        Ok(Verify {
            header: self.header,
            auth_scheme: self.auth_scheme,
            checksum,
        })
    }
}

impl Laid for Verify {
    ghost use Rattle.negoex_messages.specs.MessageStructs.{VerifyValue, verify_layout};
    ghost use Rattle.negoex_messages.specs.MessageStructLaws.{verify_laws};

    ghost Value = { VerifyValue };

    ghost view = { λ v. ((⟦<MessageHeader as Laid>⟧.view v.header, v.auth_scheme), ⟦<Checksum as Laid>⟧.view v.checksum) };

    ghost layout = { verify_layout };

    ghost laws = { verify_laws };

    fn from_header(alloc: Global, header: &[u8], message: &[u8]) -> Result<Self, NegoexError> {
        let ((header, auth_scheme), checksum): ((MessageHeader, AuthScheme), Checksum) =
            Laid::from_header(alloc, header, message)?;
        Ok(Verify {
            header,
            auth_scheme,
            checksum,
        })
    }

    fn put(
        &self,
        alloc: Global,
        offset: usize,
        header: &mut Vec<u8>,
        payload: &mut Vec<u8>,
    ) -> Result<(), NegoexError> {
        let fields = (self.header, self.auth_scheme);
        put_both(alloc, &fields, &self.checksum, offset, header, payload)
    }

    fn payload_size(&self) -> usize {
        self.checksum.payload_size()
    }
}

impl Wide for Verify {
    fn width() -> usize {
        76
    }
}
