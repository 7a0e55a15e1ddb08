//! Messages of the negotiation of NEGOEX (MS-NEGOEX, section 2.2), read from and written to devices: the schemes that a party offers, a
//! token of a scheme, and a checksum, with the layouts and the types of which they are made up.
//!
//! A type has a header of fixed size, in which its fields follow one another, and a payload, to which vectors
//! in the header point by an offset from the message's start. Pairs of fields and vectors join layouts; a struct is a row
//! of pairs.
//!
//! Each type of [`Laid`] is read as its layout says, or refused for its first fault in the order of the bytes (`from_header`). `put`
//! appends the header and the payload that the layout says, and refuses a payload that ends past 32 bits. A vector's element is kept only
//! once it is read: no more than the message has bytes, whatever the count is. `new` makes a message with its true lengths, and refuses
//! one of 2^32 bytes or more. `NegoexMessage::decode` answers the message that is laid out in the bytes (`IsMessage`), or the first fault
//! in field order. `to_bytes` and `encode` write `message_bytes`, and nothing where the payload ends past 32 bits. Of any device
//! `NegoexDataType::decode` answers the value, its first fault or the device's own counted fault. A message that fits its fields, and gives
//! its payload's true offset, is read again once it is written (law `written_is_read`).
#![tactic(auto)]

mod bytes;
mod checksum;
mod data_type;
mod error;
mod exchange;
mod extension;
mod fields;
mod header;
mod laid;
mod leaves;
mod made_header;
mod message;
mod message_type;
mod nego;
mod pairs;
mod reading;
mod vectors;
mod verify;
mod writing;

pub use bytes::{extend, front_of, place_behind};
pub use checksum::Checksum;
pub use data_type::NegoexDataType;
pub use error::NegoexError;
pub use exchange::Exchange;
pub use extension::{Extension, ExtensionVector};
pub use fields::{CHECKSUM_SCHEME_RFC3961, NEGOEXTS_MESSAGE_SIGNATURE, RANDOM_ARRAY_SIZE};
pub use header::MessageHeader;
pub use laid::{Laid, Wide};
pub use leaves::{AuthScheme, AuthSchemeVector, ByteVector, ConversationId, Guid};
pub use message::{NegoexMessage, written_is_read};
pub use message_type::MessageType;
pub use nego::{Nego, PROTOCOL_VERSION, put_three};
pub use pairs::put_both;
pub use verify::Verify;
