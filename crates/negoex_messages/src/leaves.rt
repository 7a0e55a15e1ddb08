//! Types with no payload.
ghost use Rattle.std.specs.Prelude.{◌≡◌};

use crate::bytes::extend;
use crate::error::NegoexError;
use crate::laid::{Laid, Wide};
use byte_streams::array_at;
use std::alloc::Global;
use std::io::ErrorKind;
use uuid::Uuid;

impl Laid for u8 {
    ghost use Rattle.std.specs.Prelude.{ℕ};
    ghost use Rattle.negoex_messages.specs.Leaves.{byte_layout};
    ghost use Rattle.negoex_messages.specs.LeafLaws.{byte_laws};

    ghost Value = { ℕ };

    ghost view = { λ b. b };

    ghost layout = { byte_layout };

    ghost laws = { byte_laws };

    fn from_header(_alloc: Global, header: &[u8], _message: &[u8]) -> Result<Self, NegoexError> {
        if header.len() < 1 {
            return Err(NegoexError {
                kind: ErrorKind::UnexpectedEof,
            });
        }
        Ok(header[0])
    }

    fn put(
        &self,
        _alloc: Global,
        _offset: usize,
        header: &mut Vec<u8>,
        _payload: &mut Vec<u8>,
    ) -> Result<(), NegoexError> {
        extend(header, &[*self])
    }

    fn payload_size(&self) -> usize {
        0
    }
}

impl Wide for u8 {
    fn width() -> usize {
        1
    }
}

/// GUID: the identifier of a conversation or of an authentication scheme (MS-NEGOEX, section 2.2.2).
pub type Guid = Uuid;

/// CONVERSATION_ID: the identifier of a conversation.
pub type ConversationId = Guid;

/// AUTH_SCHEME: the identifier of an authentication scheme.
pub type AuthScheme = Guid;

/// Schemes, as an offset and a count.
pub type AuthSchemeVector = Vec<AuthScheme>;

/// Bytes, as an offset and a count.
pub type ByteVector = Vec<u8>;

impl Laid for Uuid {
    ghost use Rattle.std.specs.Prelude.{ℕ, List};
    ghost use Rattle.negoex_messages.specs.Leaves.{guid_layout};
    ghost use Rattle.negoex_messages.specs.LeafLaws.{guid_laws};

    ghost Value = { List ℕ };

    ghost view = { λ g. g };

    ghost layout = { guid_layout };

    ghost laws = { guid_laws };

    fn from_header(_alloc: Global, header: &[u8], _message: &[u8]) -> Result<Self, NegoexError> {
        if header.len() < 16 {
            return Err(NegoexError {
                kind: ErrorKind::UnexpectedEof,
            });
        }
        Ok(Uuid::from_bytes_le(array_at::<16>(header, 0)))
    }

    fn put(
        &self,
        _alloc: Global,
        _offset: usize,
        header: &mut Vec<u8>,
        _payload: &mut Vec<u8>,
    ) -> Result<(), NegoexError> {
        extend(header, &self.to_bytes_le())
    }

    fn payload_size(&self) -> usize {
        0
    }
}

impl Wide for Uuid {
    fn width() -> usize {
        16
    }
}
