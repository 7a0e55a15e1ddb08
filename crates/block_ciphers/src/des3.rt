//! The Triple Data Encryption Algorithm (FIPS 46-3) in a chain of blocks, and the keys that Kerberos makes for it
//! (RFC 3961, section 6.3). The cipher of single blocks is reached through its chain alone.
//!
//! The cipher is that of the tables of FIPS 46-3, and its inverse undoes it for every key. [`encrypt_des`] and [`decrypt_des`] chain it
//! from an initial vector of zeros; encryption fills the last block with zeros. [`random_to_key`] makes the key of 21 bytes, of odd parity
//! and with no weak part.

ghost use Rattle.std.specs.Prelude.{◌≡◌, ◌≢◌, length, IsOk, OnOk, Err};
ghost use Rattle.block_ciphers.specs.declared.error.KerberosCryptoError.TheVariants.{KeyLength};

mod decrypt;
mod encrypt;
mod permute;
mod round;
mod schedule;
mod seed;

use crate::{KerberosCryptoError, KerberosCryptoResult};
pub use decrypt::decrypt_des;
pub use encrypt::encrypt_des;
pub use seed::{is_weak, random_to_key};

/// The bytes of a block (RFC 3961, section 6.3).
pub const DES3_BLOCK_SIZE: usize = 8;

/// The bytes of a key (RFC 3961, section 6.3).
pub const DES3_KEY_SIZE: usize = 24;

/// The bytes of a checksum (RFC 3961, section 6.3).
pub const DES3_MAC_SIZE: usize = 20;

/// The bytes that a key is made from (RFC 3961, section 6.3).
pub const DES3_SEED_LEN: usize = 21;

/// Refuses a key that hasn't 24 bytes.
fn check_key_length(key: &[u8]) -> KerberosCryptoResult<()>
    ensures sized { OnOk result (length key.now ≡ 24) }
    ensures right { length key.now ≡ 24 → IsOk result }
    ensures wrong { length key.now ≢ 24 → result ≡ Err (KeyLength (length key.now) 24) }
{
    if key.len() != DES3_KEY_SIZE {
        return Err(KerberosCryptoError::KeyLength(key.len(), DES3_KEY_SIZE));
    }
    Ok(())
}
