//! The block ciphers of Kerberos, each in a chain of blocks: AES (FIPS 197) with ciphertext stealing (RFC 3962, section 5), and the Triple
//! Data Encryption Algorithm (FIPS 46-3) with the keys that Kerberos makes for it (RFC 3961, section 6.3).
//! The calls of `aes` take the key; the ciphers of single blocks are reached through their chains, and AES by its round keys too.
//!
//! AES-128 and AES-256 are as FIPS 197 defines them by polynomials, and the inverse cipher undoes the cipher. [`encrypt_aes_cbc`] and
//! [`decrypt_aes_cbc`] chain it from an initial vector of zeros. [`encrypt_aes_cts`] and [`decrypt_aes_cts`] steal ciphertext at every
//! length, and a ciphertext of 16 bytes or more has one plaintext of its length. A [`KeySchedule`] holds the round keys of its key. Triple
//! DES is that of the tables of FIPS 46-3, and its inverse undoes it for every key. [`encrypt_des`] and [`decrypt_des`] chain it from an
//! initial vector of zeros; encryption fills the last block with zeros. [`random_to_key`] makes the key of 21 bytes, of odd parity and with
//! no weak part. Each refusal comes exactly where its clause says.
#![tactic(auto)]

pub mod aes;
mod des3;
pub mod error;

pub use aes::{
    AES_BLOCK_SIZE, AES128_KEY_SIZE, AES256_KEY_SIZE, AesSize, KeySchedule, decrypt_aes_cbc,
    decrypt_aes_cts, encrypt_aes_cbc, encrypt_aes_cts, swap_two_last_blocks,
};
pub use des3::{
    DES3_BLOCK_SIZE, DES3_KEY_SIZE, DES3_MAC_SIZE, DES3_SEED_LEN, decrypt_des, encrypt_des,
    is_weak, random_to_key,
};
pub use error::{KerberosCryptoError, KerberosCryptoResult};
