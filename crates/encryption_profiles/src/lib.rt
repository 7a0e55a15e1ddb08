//! Encryption algorithm profiles, by which the suites of Kerberos differ, and encryption by one (RFC 3961, sections 3 and 5). The laws of
//! sealing are stated here for any of them. And the three families of suites, each a module with its keys, sealing, opening and checksums:
//! `aes` with HMAC-SHA1 cut to 96 bits (RFC 3962), `aes_sha2` with HMAC-SHA-256 cut to 128 bits and HMAC-SHA-384 cut to 192 bits
//! (RFC 8009), both by the size of the keys, and `des3`, `des3-cbc-sha1-kd` with `hmac-sha1-des3-kd` (RFC 3961, section 6.3).
//!
//! [`n_fold`] and [`five_fold`] are the n-fold of RFC 3961. [`hmac`] is RFC 2104's, [`pbkdf2_hmac`] RFC 8018's and [`kdf_hmac_sha2`] RFC
//! 8009's, of each [`BlockHash`]: SHA-1, SHA-256 and SHA-384 of the kit. [`usage_ke`], [`usage_kc`] and [`usage_ki`] are the constants of a
//! usage. By the lemmas of proofs/Sealed a profile with the laws `HasLaws` seals confounder and text to one ciphertext, and a ciphertext
//! has one confounder, and one text up to padding. `derive_key`, `derive_key_from_password` and the checksums of a family answer what its
//! profile defines (`aes_profile`, `aes_sha2_profile`, `des3_profile`). Its `encrypt_message` seals confounder and text as that profile
//! says (`IsSealedAs`). Its `decrypt_message` answers the text that is sealed to the bytes and refuses bytes to which none is, for triple
//! DES with the text's padding. Refusals come in order: least size, key length, checksum; for triple DES key length, least size, whole
//! blocks, checksum.
#![tactic(auto)]

pub mod aes;
pub mod aes_sha2;
pub mod des3;
mod fold;
mod hash;
mod kdf;
mod mac;
mod pbkdf2;
mod place;
mod strings;
mod unchecked;
mod usage;
mod whole_copies;

pub use fold::n_fold;
pub use hash::BlockHash;
pub use kdf::kdf_hmac_sha2;
pub use mac::{hmac, hmac_sha1, hmac_sha1_code};
pub use pbkdf2::{pbkdf2_hmac, pbkdf2_hmac_sha1};
pub use strings::{joined, same_bytes};
pub use unchecked::{DecryptWithoutChecksum, EncryptWithoutChecksum};
pub use usage::{usage_kc, usage_ke, usage_ki};
pub use whole_copies::five_fold;

/// The constant of keys that are made from passwords (RFC 3962, section 4; RFC 3961, section 6.3.1).
pub const KERBEROS: &[u8; 8] = b"kerberos";
