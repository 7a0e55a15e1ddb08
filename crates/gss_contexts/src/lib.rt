//! GSS-API contexts of Kerberos: the tokens that establish one (RFC 2743, section 3.1; RFC 4121, section 4.1; RFC 4178; IAKERB), and
//! per-message tokens (RFC 4121, section 4.2). And the record by which a service learns a process's integrity level (MS-KILE, section
//! 2.2.5).
//!
//! The modules `context_tokens` and `message_tokens` have the tokens as they are read and written. A [`Context`] makes and takes them under
//! its keys. Triple DES has no tokens here: its contexts use those of RFC 1964.
//!
//! `KrbMessage` and `IAKerbProxyMessage` are read if and only if a token of theirs begins the bytes (laws `one_krb_message`,
//! `one_proxy_message`). What is written of these is read again (law `written_is_read`). The tokens of SPNEGO are read if and only if the bytes are their one encoding, and are written as it. A MIC or
//! wrap token that is read or written is laid out in the bytes that were taken or given (`IsMicToken`, `IsWrapToken`), and the first wrong
//! field decides the refusal. `Context::get_mic` and `Context::wrap` make a token
//! of the message under the key, with the next number. `Context::verify_mic` and `Context::unwrap` take a token if it is the peer's, under
//! the key, with a number that isn't old, and no other. The last number of 64 bits is refused. Where the initiator asked for sequencing it
//! is the next number. The first reason against a token decides the refusal (`IsMicRefusal`, `IsWrapRefusal`), and a refused call changes
//! nothing. What one end makes, the other takes as that message, unless memory runs out (laws `mic_is_taken`, `wrap_is_taken`,
//! `unwraps_to_its_message`). `Context::check_end` refuses a context that is over.
#![tactic(auto)]

mod context;
mod context_tokens;
mod header;
pub mod laws;
mod message_tokens;
mod octets;
mod reading;
mod refusal;
mod sender;
mod side;
mod terms;

pub use context::{Context, Unwrapped};
pub use context_tokens::{
    ApplicationTag0, GssApiNegInit, IAKerbCookie, IAKerbHeader, IAKerbProxyMessage, KrbMessage,
    MechType, MechTypeList, NegTokenInit, NegTokenTarg, NegTokenTarg1, TokenSequence,
    message_is_value, one_krb_message, one_proxy_message, written_is_read,
};
pub use message_tokens::{
    GssApiMessageError, HEADER_LEN, LsapTokenInfoIntegrity, LsapTokenInfoIntegrityError,
    MACHINE_ID_LENGTH, MicToken, WrapToken,
};
pub use refusal::TokenRefusal;
pub use side::{Protection, Side};
pub use terms::{ContextTerms, SequenceNumbers};
