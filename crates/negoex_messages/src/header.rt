//! MESSAGE_HEADER, which each message begins with (MS-NEGOEX, section 2.2.6.2).
ghost use Rattle.std.specs.Prelude.{◌≡◌};

use crate::error::NegoexError;
use crate::fields::{RANDOM_ARRAY_SIZE, Signature};
use crate::laid::{Laid, Wide};
use crate::leaves::{AuthScheme, AuthSchemeVector, ConversationId};
use crate::message_type::MessageType;
use std::alloc::Global;

/// MESSAGE_HEADER: the fields that each message begins with.
#[derive(Clone, Copy, Debug, PartialEq, Eq)]
pub struct MessageHeader {
    /// [`NEGOEXTS_MESSAGE_SIGNATURE`](crate::fields::NEGOEXTS_MESSAGE_SIGNATURE). Another is written, and not read.
    pub signature: u64,
    /// MessageType: the type of the message.
    pub message_type: MessageType,
    /// The message's number in its conversation.
    pub sequence_num: u32,
    /// cbHeaderLength: the count of the bytes before the message's payload. It isn't judged.
    pub header_len: u32,
    /// cbMessageLength: the count of the message's bytes. It isn't judged.
    pub message_len: u32,
    /// ConversationId: the identifier of the conversation.
    pub conversation_id: ConversationId,
}

impl Laid for MessageHeader {
    ghost use Rattle.negoex_messages.specs.Structs.{HeaderValue, header_layout};
    ghost use Rattle.negoex_messages.specs.StructLaws.{header_laws};

    ghost Value = { HeaderValue };

    ghost view = { λ h. (h.signature, (h.message_type, (h.sequence_num, (h.header_len, (h.message_len, h.conversation_id))))) };

    ghost layout = { header_layout };

    ghost laws = { header_laws };

    fn from_header(alloc: Global, header: &[u8], message: &[u8]) -> Result<Self, NegoexError> {
        let (
            Signature(signature),
            (message_type, (sequence_num, (header_len, (message_len, conversation_id)))),
        ): (
            Signature,
            (MessageType, (u32, (u32, (u32, ConversationId)))),
        ) = Laid::from_header(alloc, header, message)?;
        Ok(MessageHeader {
            signature,
            message_type,
            sequence_num,
            header_len,
            message_len,
            conversation_id,
        })
    }

    fn put(
        &self,
        alloc: Global,
        offset: usize,
        header: &mut Vec<u8>,
        payload: &mut Vec<u8>,
    ) -> Result<(), NegoexError> {
        let lengths = (self.header_len, (self.message_len, self.conversation_id));
        let fields = (self.message_type, (self.sequence_num, lengths));
        (Signature(self.signature), fields).put(alloc, offset, header, payload)
    }

    fn payload_size(&self) -> usize {
        0
    }
}

impl Wide for MessageHeader {
    fn width() -> usize {
        40
    }
}

// Header and scheme, with which an exchange and a verification begin.
impl Wide for (MessageHeader, AuthScheme) {
    fn width() -> usize {
        56
    }
}

// The fields before the vectors of an offer.
impl Wide for (MessageHeader, ([u8; RANDOM_ARRAY_SIZE], u64)) {
    fn width() -> usize {
        80
    }
}

// The fields before the extensions.
impl Wide
    for (
        (MessageHeader, ([u8; RANDOM_ARRAY_SIZE], u64)),
        AuthSchemeVector,
    ) {
    fn width() -> usize {
        88
    }
}
