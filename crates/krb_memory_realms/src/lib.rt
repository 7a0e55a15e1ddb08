//! Realms whose accounts are in memory, over `krb_kdc`.
//!
//! A [`Realm`] has a name, settings and accounts. [`Realm::answer`] gives the reply to a message at a moment, and [`serve`] answers the
//! frames of a stream. A realm grants by password, and by certificate where its settings have an anchor and an own certificate
//! (RFC 4556). Its signatures and key agreements are the caller's [`KeyFunctions`](x509_keys::KeyFunctions).
//!
//! A reply is what `Replies` allows, or `Unreadable`. `Memory` is returned only for bytes that begin with the identifier octet of an
//! AS-REQ or of a TGS-REQ (`BeginsRequest`). Each request has exactly one reply at each moment (`has_reply`, law `one_reply`). Making a
//! realm, adding, removing and rekeying accounts follow the rules of names and keys, as in a finite map. A refused command changes
//! nothing, and `Memory` hides no other refusal. Every realm has the account of its ticket-granting service, and each account's key is
//! one of its suite.
#![tactic(auto)]

pub mod laws;
mod realm;
mod respond;
mod settings;

pub use realm::{Realm, words_needed};
pub use respond::{Answering, serve, serve_bytes};
pub use settings::{Settings, is_certificate};
