//! AES (FIPS 197) in a chain of blocks, with ciphertext stealing (RFC 3962).

ghost use Rattle.std.specs.Prelude.{◌≡◌, ◌*◌, ◌<◌, ◌≤◌, ◌≢◌, length, IsOk, OnOk, Err};
ghost use Rattle.block_ciphers.specs.Chains.{swapped};
ghost use Rattle.block_ciphers.specs.AesSize.{key_length_of};
ghost use Rattle.block_ciphers.specs.declared.error.KerberosCryptoError.TheVariants.{KeyLength, CipherLength};

mod block;
mod bytes;
mod columns;
mod decrypt;
mod encrypt;
mod mixing;
mod schedule;

use crate::error::{KerberosCryptoError, KerberosCryptoResult};
pub use decrypt::{decrypt_aes_cbc, decrypt_aes_cts};
pub use encrypt::{encrypt_aes_cbc, encrypt_aes_cts};
pub use schedule::KeySchedule;

/// The bytes of a block (RFC 3962, section 6).
pub const AES_BLOCK_SIZE: usize = 16;

/// The bytes of a key of AES-128 (RFC 3962, section 6).
pub const AES128_KEY_SIZE: usize = 16;

/// The bytes of a key of AES-256 (RFC 3962, section 6).
pub const AES256_KEY_SIZE: usize = 32;

/// The sizes of AES keys that Kerberos uses (RFC 3962, section 6).
#[derive(Clone, Copy, Debug, PartialEq, Eq)]
pub enum AesSize {
    /// Keys of 32 bytes.
    Aes256,
    /// Keys of 16 bytes.
    Aes128,
}

impl AesSize {
    ghost use Rattle.block_ciphers.specs.AesSize.{key_length_of};

    /// The bytes of a key.
    pub fn key_length(&self) -> usize
        ensures { result ≡ key_length_of self.now }
    {
        match self {
            AesSize::Aes256 => AES256_KEY_SIZE,
            AesSize::Aes128 => AES128_KEY_SIZE,
        }
    }

    /// The bits of a block.
    pub fn block_bit_len(&self) -> usize
        ensures { result ≡ 128 }
    {
        match self {
            AesSize::Aes256 => AES_BLOCK_SIZE * 8,
            AesSize::Aes128 => AES_BLOCK_SIZE * 8,
        }
    }

    /// The bits that a key is made from (RFC 3962, section 6).
    pub fn seed_bit_len(&self) -> usize
        ensures { result ≡ 8 * key_length_of self.now }
    {
        self.key_length() * 8
    }
}

/// Exchanges the last two runs of 16 bytes. Fewer bytes than these are refused (`CipherLength`), and stay
/// as they are.
pub fn swap_two_last_blocks(data: &mut [u8]) -> KerberosCryptoResult<()>
    ensures succeeds { 32 ≤ length «data».old → IsOk result }
    ensures swapped { 32 ≤ length «data».old → «data».new ≡ swapped 16 «data».old }
    ensures short { length «data».old < 32 → result ≡ Err (CipherLength (length «data».old) 32) }
    ensures unchanged { length «data».old < 32 → «data».new ≡ «data».old }
{
    if data.len() < AES_BLOCK_SIZE * 2 {
        return Err(KerberosCryptoError::CipherLength(data.len(), AES_BLOCK_SIZE * 2));
    }
    let (front, last) = data.split_at_mut(data.len() - AES_BLOCK_SIZE);
    let start = front.len() - AES_BLOCK_SIZE;
    front[start..].swap_with_slice(last);
    Ok(())
}

/// Refuses a key that isn't of this size.
fn check_key_length(key: &[u8], aes_size: &AesSize) -> KerberosCryptoResult<()>
    ensures sized { OnOk result (length key.now ≡ key_length_of aes_size.now) }
    ensures right { length key.now ≡ key_length_of aes_size.now → IsOk result }
    ensures wrong { length key.now ≢ key_length_of aes_size.now
        → result ≡ Err (KeyLength (length key.now) (key_length_of aes_size.now)) }
{
    let wanted = aes_size.key_length();
    if key.len() != wanted {
        return Err(KerberosCryptoError::KeyLength(key.len(), wanted));
    }
    Ok(())
}
