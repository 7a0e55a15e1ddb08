//! The header of a message that is made.
ghost use Rattle.std.specs.Prelude.{◌≡◌, ◌+◌, ◌^◌, ◌≤◌, MatchResult};
ghost use Rattle.std.specs.declared.io.ErrorKind.{ErrorKind};
ghost use Rattle.negoex_messages.specs.MessageStructs.{made_header};

use crate::{
    ConversationId, MessageHeader, MessageType, NEGOEXTS_MESSAGE_SIGNATURE, NegoexError,
    place_behind,
};

// Makes the header of a message with so many bytes before its payload, and so many of payload; `InvalidInput` for 2^32 bytes or more.
pub(crate) fn header_of(
    message_type: MessageType,
    conversation_id: ConversationId,
    sequence_num: u32,
    header_len: u32,
    payload: usize,
) -> Result<MessageHeader, NegoexError>
    ensures { MatchResult result
        (λ header. header ≡ made_header message_type conversation_id sequence_num header_len payload)
        (λ e. (e.kind ≡ ErrorKind.InvalidInput) × (2 ^ 32 ≤ header_len + payload)) }
{
    let message_len = place_behind(header_len as usize, payload, 1)? as u32;
    Ok(MessageHeader {
        signature: NEGOEXTS_MESSAGE_SIGNATURE,
        message_type,
        sequence_num,
        header_len,
        message_len,
        conversation_id,
    })
}
