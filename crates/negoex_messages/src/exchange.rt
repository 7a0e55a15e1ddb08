//! A token of a scheme (MS-NEGOEX, section 2.2.6.4).
ghost use Rattle.std.specs.Prelude.{◌≡◌};

use crate::made_header::header_of;
use crate::{
    AuthScheme, ByteVector, ConversationId, Laid, MessageHeader, MessageType, NegoexError, Wide,
    put_both,
};
use std::alloc::{AllocError, Global};

/// A token of a scheme, or its metadata before the exchange.
#[derive(Debug, Drop, PartialEq, Eq)]
pub struct Exchange {
    /// The header that the message begins with.
    pub header: MessageHeader,
    /// The scheme.
    pub auth_scheme: AuthScheme,
    /// The token.
    pub exchange: ByteVector,
}

impl Exchange {
    ghost use Rattle.std.specs.Prelude.{◌+◌, ◌^◌, ◌≤◌, length, MatchResult};
    ghost use Rattle.std.specs.declared.io.ErrorKind.{ErrorKind};
    ghost use Rattle.negoex_messages.specs.MessageStructs.{made_header};

    /// A message of this scheme, with its true lengths; `InvalidInput` where it has 2^32 bytes or more.
    pub fn new(
        message_type: MessageType,
        conversation_id: ConversationId,
        sequence_num: u32,
        auth_scheme: AuthScheme,
        exchange: ByteVector,
    ) -> Result<Exchange, NegoexError>
        ensures { MatchResult result
            (λ m. m ≡ record {
              header = made_header message_type conversation_id sequence_num 64 (length exchange.items);
              auth_scheme = auth_scheme;
              exchange = exchange;
            })
            (λ e. (e.kind ≡ ErrorKind.InvalidInput) × (2 ^ 32 ≤ 64 + length exchange.items)) }
    {
        let header = header_of(
            message_type,
            conversation_id,
            sequence_num,
            64,
            exchange.len(),
        )?;
        Ok(Exchange {
            header,
            auth_scheme,
            exchange,
        })
    }
}

impl Clone for Exchange {
    ghost is_clone = { λ message copy. ⟦<Exchange as Laid>⟧.view copy ≡ ⟦<Exchange as Laid>⟧.view message };

    fn clone(&self) -> Result<Exchange, AllocError> {
        let exchange = self.exchange.clone()?;
        Ok(Exchange {
            header: self.header,
            auth_scheme: self.auth_scheme,
            exchange,
        })
    }
}

impl Laid for Exchange {
    ghost use Rattle.std.specs.Prelude.{map};
    ghost use Rattle.negoex_messages.specs.MessageStructs.{ExchangeValue, exchange_layout};
    ghost use Rattle.negoex_messages.specs.MessageStructLaws.{exchange_laws};

    ghost Value = { ExchangeValue };

    ghost view = { λ e. ((⟦<MessageHeader as Laid>⟧.view e.header, e.auth_scheme), map (λ b. b) e.exchange.items) };

    ghost layout = { exchange_layout };

    ghost laws = { exchange_laws };

    fn from_header(alloc: Global, header: &[u8], message: &[u8]) -> Result<Self, NegoexError> {
        let ((header, auth_scheme), exchange): ((MessageHeader, AuthScheme), ByteVector) =
            Laid::from_header(alloc, header, message)?;
        Ok(Exchange {
            header,
            auth_scheme,
            exchange,
        })
    }

    fn put(
        &self,
        alloc: Global,
        offset: usize,
        header: &mut Vec<u8>,
        payload: &mut Vec<u8>,
    ) -> Result<(), NegoexError> {
        let fields = (self.header, self.auth_scheme);
        put_both(alloc, &fields, &self.exchange, offset, header, payload)
    }

    fn payload_size(&self) -> usize {
        self.exchange.payload_size()
    }
}

impl Wide for Exchange {
    fn width() -> usize {
        64
    }
}
