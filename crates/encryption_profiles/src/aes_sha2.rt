//! The suites of AES with HMAC-SHA-256 cut to 128 bits and HMAC-SHA-384 cut to 192 bits (RFC 8009): keys, sealing, opening,
//! checksums, by the size of the keys.
//!
//! [`derive_key`], [`derive_key_from_password`] and [`checksum_sha2`] answer what `aes_sha2_profile` defines. [`encrypt_message`] seals
//! confounder and text as `aes_sha2_profile` says (`IsSealedAs`). [`decrypt_message`] answers the text that is sealed to the bytes and
//! refuses bytes to which none is. Refusals come in order: 32 or 40 bytes, key length, checksum.

mod derivation;
mod mac;
mod opening;
mod sealing;

pub use derivation::{AES_SHA2_ITERATIONS, derive_key, derive_key_from_password, random_to_key};
pub use opening::{decrypt_message, decrypt_message_no_checksum};
pub use sealing::{
    checksum_sha2, encrypt_message, encrypt_message_no_checksum, encryption_checksum,
};
