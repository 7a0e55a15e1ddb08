//! The schemes that a party offers (MS-NEGOEX, section 2.2.6.3).
ghost use Rattle.std.specs.Prelude.{◌≡◌, ◌+◌, MatchResult};
ghost use Rattle.negoex_messages.specs.Form.{IsPut, IsTooLong};
ghost use Rattle.negoex_messages.specs.Pairs.{pair_layout};

use crate::made_header::header_of;
use crate::{
    AuthScheme, AuthSchemeVector, ConversationId, Extension, ExtensionVector, Laid, MessageHeader,
    MessageType, NegoexError, RANDOM_ARRAY_SIZE, Wide, place_behind, put_both,
};
use std::alloc::{AllocError, Global};

/// The only version of the protocol (MS-NEGOEX, section 2.2.6.3).
pub const PROTOCOL_VERSION: u64 = 0;

/// The schemes that a party offers.
#[derive(Debug, Drop, PartialEq, Eq)]
pub struct Nego {
    /// The header that the message begins with.
    pub header: MessageHeader,
    /// Random bytes.
    pub random: [u8; RANDOM_ARRAY_SIZE],
    /// [`PROTOCOL_VERSION`]. It isn't judged.
    pub protocol_version: u64,
    /// The schemes, the preferred one first.
    pub auth_schemes: AuthSchemeVector,
    /// The extensions of the message.
    pub extensions: ExtensionVector,
}

impl Nego {
    ghost use Rattle.std.specs.Prelude.{◌^◌, ◌≤◌, map};
    ghost use Rattle.std.specs.declared.io.ErrorKind.{ErrorKind};
    ghost use Rattle.negoex_messages.specs.Leaves.{guid_layout};
    ghost use Rattle.negoex_messages.specs.Structs.{extension_layout};
    ghost use Rattle.negoex_messages.specs.Vectors.{vector_layout};
    ghost use Rattle.negoex_messages.specs.MessageStructs.{made_header};

    /// A message of these schemes and extensions, with its true lengths; `InvalidInput` where it has 2^32 bytes or more.
    pub fn new(
        message_type: MessageType,
        conversation_id: ConversationId,
        sequence_num: u32,
        random: [u8; RANDOM_ARRAY_SIZE],
        auth_schemes: AuthSchemeVector,
        extensions: ExtensionVector,
    ) -> Result<Nego, NegoexError>
        ensures { MatchResult result
            (λ m. m ≡ record {
              header = made_header message_type conversation_id sequence_num 96
                  ((vector_layout guid_layout).payload (map (λ s. s) auth_schemes.items)
                  + (vector_layout extension_layout).payload (map ⟦<Extension as Laid>⟧.view extensions.items));
              random = random;
              protocol_version = 0;
              auth_schemes = auth_schemes;
              extensions = extensions;
            })
            (λ e. (e.kind ≡ ErrorKind.InvalidInput) × (2 ^ 32 ≤ 96 + (vector_layout guid_layout).payload (map (λ s. s) auth_schemes.items)
            + (vector_layout extension_layout).payload (map ⟦<Extension as Laid>⟧.view extensions.items))) }
    {
        let payload = auth_schemes
            .payload_size()
            .saturating_add(extensions.payload_size());
        let header = header_of(message_type, conversation_id, sequence_num, 96, payload)?;
        Ok(Nego {
            header,
            random,
            protocol_version: PROTOCOL_VERSION,
            auth_schemes,
            extensions,
        })
    }
}

/// Appends two fields, and then the third.
pub fn put_three<A: Laid, B: Laid, C: Laid>(
    alloc: Global,
    first: &A,
    second: &B,
    third: &C,
    offset: usize,
    header: &mut Vec<u8>,
    payload: &mut Vec<u8>,
) -> Result<(), NegoexError>
    ensures { MatchResult result
        (λ _. IsPut (pair_layout (pair_layout A.layout B.layout) C.layout) ((A.view first.now, B.view second.now), C.view third.now) offset
        header.old.items header.new.items payload.old.items payload.new.items)
        (IsTooLong offset (A.layout.payload (A.view first.now) + B.layout.payload (B.view second.now) + C.layout.payload (C.view third.now))) }
{
    let before = payload.len();
    put_both(alloc, first, second, offset, header, payload)?;
    let behind = place_behind(offset, payload.len() - before, 1)?;
    third.put(alloc, behind, header, payload)
}

type Fixed = (MessageHeader, ([u8; RANDOM_ARRAY_SIZE], u64));

impl Clone for Nego {
    ghost is_clone = { λ message copy. ⟦<Nego as Laid>⟧.view copy ≡ ⟦<Nego as Laid>⟧.view message };

    fn clone(&self) -> Result<Nego, AllocError> {
        let auth_schemes = self.auth_schemes.clone()?;
        let extensions = self.extensions.clone()?;
        Ok(Nego {
            header: self.header,
            random: self.random,
            protocol_version: self.protocol_version,
            auth_schemes,
            extensions,
        })
    }
}

impl Laid for Nego {
    ghost use Rattle.std.specs.Prelude.{map};
    ghost use Rattle.negoex_messages.specs.MessageStructs.{NegoValue, nego_layout};
    ghost use Rattle.negoex_messages.specs.MessageStructLaws.{nego_laws};

    ghost Value = { NegoValue };

    ghost view = { λ n. (
      ((⟦<MessageHeader as Laid>⟧.view n.header, (n.random, n.protocol_version)), map (λ s. s) n.auth_schemes.items),
      map ⟦<Extension as Laid>⟧.view n.extensions.items,
    ) };

    ghost layout = { nego_layout };

    ghost laws = { nego_laws };

    fn from_header(alloc: Global, header: &[u8], message: &[u8]) -> Result<Self, NegoexError> {
        let (front, extensions): ((Fixed, AuthSchemeVector), ExtensionVector) = Laid::from_header(
            alloc, header, message,
        )?;
        let (fixed, auth_schemes) = front;
        let (header, (random, protocol_version)) = fixed;
        Ok(Nego {
            header,
            random,
            protocol_version,
            auth_schemes,
            extensions,
        })
    }

    fn put(
        &self,
        alloc: Global,
        offset: usize,
        header: &mut Vec<u8>,
        payload: &mut Vec<u8>,
    ) -> Result<(), NegoexError> {
        let fixed = (self.header, (self.random, self.protocol_version));
        put_three(
            alloc,
            &fixed,
            &self.auth_schemes,
            &self.extensions,
            offset,
            header,
            payload,
        )
    }

    fn payload_size(&self) -> usize {
        self.auth_schemes
            .payload_size()
            .saturating_add(self.extensions.payload_size())
    }
}

impl Wide for Nego {
    fn width() -> usize {
        96
    }
}
