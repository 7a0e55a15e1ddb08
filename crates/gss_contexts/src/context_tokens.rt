//! Tokens that establish a context. They carry a mechanism's messages, framed as the GSS-API frames first tokens (RFC 2743,
//! section 3.1; RFC 4121, section 4.1). A service may forward them (IAKERB).
//!
//! The token id of a message is two bare octets, not an element. A token is read if and only if its one spelling begins
//! the bytes, and is written as that spelling.
//!
//! `KrbMessage` and `IAKerbProxyMessage` are read if and only if a token of theirs begins the bytes (laws `one_krb_message`,
//! `one_proxy_message`). What is written is read again (law `written_is_read`). Of an IAKERB header, elements after the known ones are
//! ignored. The tokens of SPNEGO (RFC 4178) are read if and only if the bytes are their one encoding, and are written as it.

mod application_tag0;
mod content;
mod front;
mod gss_api_neg_init;
mod iakerb_header;
mod iakerb_proxy_message;
mod krb_message;
mod laws;
mod mech_type;
mod neg_token_init;
mod neg_token_targ;
mod proxy_value;
mod writing;

pub use application_tag0::ApplicationTag0;
pub use gss_api_neg_init::GssApiNegInit;
pub use iakerb_header::{IAKerbCookie, IAKerbHeader};
pub use iakerb_proxy_message::IAKerbProxyMessage;
pub use krb_message::KrbMessage;
pub use laws::{message_is_value, one_krb_message, one_proxy_message, written_is_read};
pub use mech_type::{MechType, MechTypeList};
pub use neg_token_init::NegTokenInit;
pub use neg_token_targ::{NegTokenTarg, NegTokenTarg1};
pub use writing::TokenSequence;
