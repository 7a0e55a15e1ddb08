//! Key functions of RSA and Diffie-Hellman, for logins by certificate (RFC 4556). Diffie-Hellman public values as SubjectPublicKeyInfo
//! (RFC 3279, section 2.3.3; RFC 4556, section 3.2.1).
//!
//! [`RsaKeys`] verifies RSASSA-PKCS1-v1_5 with SHA-256, SHA-384 and SHA-512, and signs with SHA-256 if it has an [`OwnKey`]. It agrees on
//! secrets in one [`Group`](public_key_cryptography::Group). [`check_signature`] is what it verifies by, and names why a signature is
//! refused. What it signs verifies under the party's public key (law `signed_is_verified`), and the key of a right private key signs each
//! text (law `right_key_signs`). Two parties of one group come to one secret (law `one_secret`), and who replies to a client does so in its
//! group (law `reply_in_group`). A [`DhPublicValue`] is a number of 2 to the prime less 2, and its group. [`DhPublicValue::read`] takes a
//! whole SubjectPublicKeyInfo exactly where it is the one DER encoding of such a value, with the group's p, g and q and nothing else as
//! parameters. [`DhPublicValue::read_bits`] takes the bits alone, as a KDC sends them. Else each answers a named fault.
//! [`DhPublicValue::to_element`] writes the encoding.
#![tactic(auto)]

mod agreement;
mod algorithm;
mod fault;
mod key_info;
pub mod laws;
mod own_key;
mod public_value;
mod refusal;
mod rsa_keys;
mod signature;

pub use fault::DhFault;
pub use own_key::OwnKey;
pub use public_value::{DhPublicValue, is_natural};
pub use refusal::{RsaKeyRefusal, SignatureRefusal};
pub use rsa_keys::RsaKeys;
pub use signature::check_signature;
