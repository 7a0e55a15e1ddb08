//! Decryption by AES (RFC 3961, section 5.3; RFC 3962).

ghost use Rattle.std.specs.Prelude.{◌≡◌, ◌≢◌, ◌⊎◌, ◌-◌, ◌<◌, ◌≤◌, ℕ, List, ◌++◌, length, take, drop, vec_len, Err, IfOk, IfErr, OnOk};
ghost use Rattle.std.specs.Int.{cast_unsigned, w32};
ghost use Rattle.block_ciphers.specs.AesSize.{key_length_of};
ghost use Rattle.block_ciphers.specs.Bytes.{IsBytes};
ghost use Rattle.block_ciphers.specs.declared.error.KerberosCryptoError.TheVariants.{CipherLength, KeyLength, Memory};
ghost use Rattle.encryption_profiles.specs.Profile.{ki_of};
ghost use Rattle.encryption_profiles.specs.Sealing.{IsEncryptedAs, IsNothingSealedAs, IsOpeningAs};
ghost use Rattle.encryption_profiles.specs.AesSuites.{IsAesRefusal, aes_profile};

use crate::aes::AES_MAC_SIZE;
use crate::aes::derivation::derived_by;
use crate::aes::sealing::tag_of_parts;
use crate::{DecryptWithoutChecksum, usage_ke, usage_ki};
use block_ciphers::{
    AES_BLOCK_SIZE, AesSize, KerberosCryptoError, KerberosCryptoResult, KeySchedule,
    decrypt_aes_cts,
};
use std::alloc::Global;

// The fewest octets of an encrypted message: a confounder and a checksum.
const LEAST_LEN: usize = AES_BLOCK_SIZE + AES_MAC_SIZE;

/// Decrypts a message and verifies its checksum. The message is 28 bytes shorter. The refusals, in this order: fewer
/// than 28 bytes (`CipherLength`), a key of another length (`KeyLength`), a checksum that isn't the text's
/// (`IntegrityCheck`).
pub fn decrypt_message(
    alloc: Global,
    key: &[u8],
    key_usage: i32,
    cipher_data: &[u8],
    aes_size: &AesSize,
) -> KerberosCryptoResult<Vec<u8>>
    ensures opened { IfOk result (λ p.
        IsOpeningAs (aes_profile aes_size.now) key.now (cast_unsigned w32 key_usage) p.items cipher_data.now) }
    ensures refusals { IfErr result
        (λ e. IsAesRefusal (key_length_of aes_size.now) (length key.now) (length cipher_data.now) e) }

    // Where the refusal isn't memory, no message is encrypted to these bytes.
    ensures refused { IfErr result (λ e. (e ≡ Memory)
        ⊎ IsNothingSealedAs (aes_profile aes_size.now) key.now (cast_unsigned w32 key_usage) cipher_data.now) }
{
    let opened = decrypt_message_no_checksum(alloc, key, key_usage, cipher_data, aes_size)?;
    let tag = tag_of_parts(&opened.ki, &opened.confounder, &opened.plaintext);
    opened.verified(&tag)
}

/// Decrypts a message. Its checksum isn't verified. The refusals, in this order: fewer than 28 bytes
/// (`CipherLength`), a key of another length (`KeyLength`).
pub fn decrypt_message_no_checksum(
    alloc: Global,
    key: &[u8],
    key_usage: i32,
    cipher_data: &[u8],
    aes_size: &AesSize,
) -> KerberosCryptoResult<DecryptWithoutChecksum>
    ensures decrypted { IfOk result (λ d. IsEncryptedAs (aes_profile aes_size.now) key.now (cast_unsigned w32 key_usage)
        (d.confounder.items ++ d.plaintext.items) (take (length cipher_data.now - AES_MAC_SIZE) cipher_data.now)) }
    ensures only { IfOk result (λ d. (q : List ℕ) → IsBytes q → AES_BLOCK_SIZE ≤ length q
        → IsEncryptedAs (aes_profile aes_size.now) key.now (cast_unsigned w32 key_usage) q
        (take (length cipher_data.now - AES_MAC_SIZE) cipher_data.now)
        → q ≡ d.confounder.items ++ d.plaintext.items) }
    ensures sized { IfOk result (λ d. (vec_len d.confounder ≡ AES_BLOCK_SIZE)
        × (vec_len d.plaintext ≡ length cipher_data.now - LEAST_LEN) × (vec_len d.checksum ≡ AES_MAC_SIZE)) }
    ensures bytes { IfOk result (λ d. IsBytes d.confounder.items × IsBytes d.plaintext.items) }
    ensures checksum { IfOk result (λ d. d.checksum.items ≡ drop (length cipher_data.now - AES_MAC_SIZE) cipher_data.now) }
    ensures ki { IfOk result (λ d. d.ki.items ≡ ki_of (aes_profile aes_size.now) key.now (cast_unsigned w32 key_usage)) }
    ensures ki_sized { IfOk result (λ d. vec_len d.ki ≡ key_length_of aes_size.now) }
    ensures key_sized { OnOk result (length key.now ≡ key_length_of aes_size.now) }
    ensures long { OnOk result (LEAST_LEN ≤ length cipher_data.now) }

    // The refusals, the first that holds.
    ensures short { length cipher_data.now < LEAST_LEN → result ≡ Err (CipherLength (length cipher_data.now) LEAST_LEN) }
    ensures key_length { LEAST_LEN ≤ length cipher_data.now → length key.now ≢ key_length_of aes_size.now
        → result ≡ Err (KeyLength (length key.now) (key_length_of aes_size.now)) }
    ensures memory { LEAST_LEN ≤ length cipher_data.now → length key.now ≡ key_length_of aes_size.now
        → IfErr result (λ e. e ≡ Memory) }
{
    if cipher_data.len() < LEAST_LEN {
        return Err(KerberosCryptoError::CipherLength(cipher_data.len(), LEAST_LEN));
    }
    let (encrypted, checksum) = cipher_data.split_at(cipher_data.len() - AES_MAC_SIZE);
    let keys = KeySchedule::of_size(key, aes_size)?;
    let ke = derived_by(alloc, &keys, key, &usage_ke(key_usage))?;
    let text = decrypt_aes_cts(alloc, &ke, encrypted, aes_size)?;
    let ki = derived_by(alloc, &keys, key, &usage_ki(key_usage))?;
    let opened = DecryptWithoutChecksum::of_text(alloc, &text, AES_BLOCK_SIZE, checksum, ki)?;
    Ok(opened)
}
