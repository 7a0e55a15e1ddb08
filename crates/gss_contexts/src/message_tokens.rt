//! Tokens of the GSS-API mechanism of Kerberos (RFC 4121, section 4.2.6), and the record by which a service learns
//! a process's integrity level (MS-KILE, section 2.2.5).
//!
//! A token that is read or written is laid out in the bytes that were taken or given (`IsMicToken`, `IsWrapToken`), and the first wrong
//! field decides the refusal. Of any device an I/O error is the end of the bytes or the device's own counted fault. No clause says that a
//! token's checksum is right: it isn't computed here. `LsapTokenInfoIntegrity::{encode, decode}` write and read the record of 40 octets.

mod error;
mod integrity;
mod kind;
mod mic;
mod token;
mod wrap;

pub use error::GssApiMessageError;
pub use integrity::{LsapTokenInfoIntegrity, LsapTokenInfoIntegrityError, MACHINE_ID_LENGTH};
pub use kind::HEADER_LEN;
pub use mic::MicToken;
pub use wrap::WrapToken;
