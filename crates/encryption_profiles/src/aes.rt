//! The suites of AES with HMAC-SHA1 cut to 96 bits (RFC 3962): keys, sealing, opening, checksums, by the size of the keys.
//!
//! [`derive_key`], [`derive_key_from_password`] and [`checksum_sha_aes`] answer what `aes_profile` defines. [`encrypt_message`] seals
//! confounder and text as `aes_profile` says (`IsSealedAs`). [`decrypt_message`] answers the text that is sealed to the bytes and refuses
//! bytes to which none is. Refusals come in order: 28 bytes, key length, checksum.

mod derivation;
mod opening;
mod sealing;

pub use derivation::{AES_ITERATIONS, derive_key, derive_key_from_password, random_to_key};
pub use opening::{decrypt_message, decrypt_message_no_checksum};
pub use sealing::{
    checksum_sha_aes, encrypt_message, encrypt_message_no_checksum, encryption_checksum,
};

/// The bytes of a checksum (RFC 3962, section 6).
pub const AES_MAC_SIZE: usize = 12;
