//! The types of messages (MS-NEGOEX, section 2.2.6.1).
ghost use Rattle.std.specs.Prelude.{◌≡◌};

use crate::bytes::extend;
use crate::error::NegoexError;
use crate::laid::{Laid, Wide};
use byte_streams::{u32_le, u32_le_bytes};
use std::alloc::Global;
use std::io::ErrorKind;

/// The type of a message. The types are numbered from 0 to 7, in this order.
#[derive(Clone, Copy, Debug, PartialEq, Eq)]
pub enum MessageType {
    /// The initiator's schemes.
    InitiatorNego,
    /// The acceptor's schemes.
    AcceptorNego,
    /// The initiator's metadata for a scheme, before the exchange.
    InitiatorMetaData,
    /// The acceptor's metadata for a scheme, before the exchange.
    AcceptorMetaData,
    /// A token of the acceptor.
    Challenge,
    /// A token of the initiator.
    ApRequest,
    /// A checksum over the messages so far.
    Verify,
    /// An alert: the negotiation went wrong.
    Alert,
}

/// The type's number.
impl From<&MessageType> for u32 {
    ghost use Rattle.negoex_messages.specs.Types.{type_number};

    ghost from_gives = { λ message_type number. number ≡ type_number message_type.now };

    fn from(message_type: &MessageType) -> u32 {
        match message_type {
            MessageType::InitiatorNego => 0,
            MessageType::AcceptorNego => 1,
            MessageType::InitiatorMetaData => 2,
            MessageType::AcceptorMetaData => 3,
            MessageType::Challenge => 4,
            MessageType::ApRequest => 5,
            MessageType::Verify => 6,
            MessageType::Alert => 7,
        }
    }
}

/// The type that has this number; of another number `InvalidData`.
impl TryFrom<u32> for MessageType {
    ghost use Rattle.negoex_messages.specs.Types.{type_of};
    ghost use Rattle.negoex_messages.specs.Form.{AnswersExactly};

    type Error = NegoexError;

    ghost try_from_gives = { λ number result. AnswersExactly (type_of number) result };

    fn try_from(number: u32) -> Result<MessageType, NegoexError> {
        match number {
            0 => Ok(MessageType::InitiatorNego),
            1 => Ok(MessageType::AcceptorNego),
            2 => Ok(MessageType::InitiatorMetaData),
            3 => Ok(MessageType::AcceptorMetaData),
            4 => Ok(MessageType::Challenge),
            5 => Ok(MessageType::ApRequest),
            6 => Ok(MessageType::Verify),
            7 => Ok(MessageType::Alert),
            _ => Err(NegoexError {
                kind: ErrorKind::InvalidData,
            }),
        }
    }
}

impl Laid for MessageType {
    ghost use Rattle.negoex_messages.specs.Types.{type_layout};
    ghost use Rattle.negoex_messages.specs.TypeLaws.{type_laws};
    ghost use Rattle.negoex_messages.specs.declared.message_type.MessageType.{MessageType};

    ghost Value = { MessageType };

    ghost view = { λ t. t };

    ghost layout = { type_layout };

    ghost laws = { type_laws };

    fn from_header(_alloc: Global, header: &[u8], _message: &[u8]) -> Result<Self, NegoexError> {
        if header.len() < 4 {
            return Err(NegoexError {
                kind: ErrorKind::UnexpectedEof,
            });
        }
        MessageType::try_from(u32_le(header, 0))
    }

    fn put(
        &self,
        _alloc: Global,
        _offset: usize,
        header: &mut Vec<u8>,
        _payload: &mut Vec<u8>,
    ) -> Result<(), NegoexError> {
        extend(header, &u32_le_bytes(u32::from(self)))
    }

    fn payload_size(&self) -> usize {
        0
    }
}

impl Wide for MessageType {
    fn width() -> usize {
        4
    }
}
