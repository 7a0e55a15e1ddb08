//! Clients with algorithm agility (RFC 8636): they list key derivation functions and the algorithms of replies, and take signed replies as
//! KDCs send them.

mod asking;
mod means;
mod pack;
mod reading;
mod reply;
mod signer;

pub use means::AgileCertificate;
