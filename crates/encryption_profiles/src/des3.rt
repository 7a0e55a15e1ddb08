//! The suite of triple DES, `des3-cbc-sha1-kd`, and its checksum `hmac-sha1-des3-kd` (RFC 3961, section 6.3): keys, sealing,
//! opening, checksums.
//!
//! [`derive_key`], [`derive_key_from_password`] and [`checksum_sha_des3`] answer what `des3_profile` defines. [`encrypt_message`] seals
//! confounder and text as `des3_profile` says (`IsSealedAs`). [`decrypt_message`] answers the text that is sealed to the bytes, with its
//! padding, and refuses bytes to which none is. Refusals come in order: key length, 28 bytes, whole blocks, checksum.

mod derivation;
mod opening;
mod sealing;

pub use derivation::{derive_key, derive_key_from_password, random_to_key};
pub use opening::{decrypt_message, decrypt_message_no_checksum};
pub use sealing::{
    checksum_sha_des3, encrypt_message, encrypt_message_no_checksum, encryption_checksum,
};
