//! Decryption by triple DES (RFC 3961, sections 5.3 and 6.3).

ghost use Rattle.std.specs.Prelude.{◌≡◌, ◌≢◌, ◌⊎◌, ◌-◌, ◌%◌, ◌<◌, ◌≤◌, ℕ, List, ◌++◌, length, take, drop, vec_len, Err, IfOk, IfErr, OnOk};
ghost use Rattle.std.specs.Int.{cast_unsigned, w32};
ghost use Rattle.block_ciphers.specs.Bytes.{IsBytes};
ghost use Rattle.block_ciphers.specs.Chains.{zero_filled};
ghost use Rattle.block_ciphers.specs.declared.error.KerberosCryptoError.TheVariants.{CipherLength, CipherUnpad, KeyLength, Memory};
ghost use Rattle.encryption_profiles.specs.Profile.{ki_of};
ghost use Rattle.encryption_profiles.specs.Sealing.{IsEncryptedAs, IsNothingSealedAs, IsOpeningAs};
ghost use Rattle.encryption_profiles.specs.Suite.{HasDes3Lengths, IsDes3Refusal, des3_profile};

use crate::des3::derivation::derive_key;
use crate::{DecryptWithoutChecksum, hmac, usage_ke, usage_ki};
use block_ciphers::{
    DES3_BLOCK_SIZE, DES3_KEY_SIZE, DES3_MAC_SIZE, KerberosCryptoError, KerberosCryptoResult,
    decrypt_des,
};
use sha1::Sha1;
use std::alloc::Global;

// The fewest octets of an encrypted message: a confounder and a checksum.
const LEAST_LEN: usize = DES3_BLOCK_SIZE + DES3_MAC_SIZE;

/// Decrypts a message and verifies its checksum. The message is returned with its padding: 28 bytes shorter. Refusals
/// come in this order: a key that doesn't have 24 bytes (`KeyLength`), fewer than 28 bytes (`CipherLength`), no whole
/// blocks of encrypted text (`CipherUnpad`), another checksum than the text's (`IntegrityCheck`).
pub fn decrypt_message(
    alloc: Global,
    key: &[u8],
    key_usage: i32,
    cipher_data: &[u8],
) -> KerberosCryptoResult<Vec<u8>>
    ensures opened { IfOk result (λ p.
        IsOpeningAs des3_profile key.now (cast_unsigned w32 key_usage) p.items cipher_data.now) }
    ensures refusals { IfErr result (λ e. IsDes3Refusal (length key.now) (length cipher_data.now) e) }

    // Where the refusal isn't memory, no message is encrypted to these bytes.
    ensures refused { IfErr result (λ e. (e ≡ Memory)
        ⊎ IsNothingSealedAs des3_profile key.now (cast_unsigned w32 key_usage) cipher_data.now) }
{
    let opened = decrypt_message_no_checksum(alloc, key, key_usage, cipher_data)?;
    let tag = hmac::<Sha1, 20, 64>(&opened.ki, &opened.confounder, &opened.plaintext);
    opened.verified(&tag)
}

/// Decrypts a message with its padding. Its checksum isn't verified. Refusals come in this order: a key
/// that doesn't have 24 bytes (`KeyLength`), fewer than 28 bytes (`CipherLength`), no whole blocks of encrypted text
/// (`CipherUnpad`). All come before any memory is taken.
pub fn decrypt_message_no_checksum(
    alloc: Global,
    key: &[u8],
    key_usage: i32,
    cipher_data: &[u8],
) -> KerberosCryptoResult<DecryptWithoutChecksum>
    ensures decrypted { IfOk result (λ d. IsEncryptedAs des3_profile key.now (cast_unsigned w32 key_usage)
        (d.confounder.items ++ d.plaintext.items) (take (length cipher_data.now - DES3_MAC_SIZE) cipher_data.now)) }
    ensures only { IfOk result (λ d. (q : List ℕ) → IsBytes q → IsEncryptedAs des3_profile key.now
        (cast_unsigned w32 key_usage) q (take (length cipher_data.now - DES3_MAC_SIZE) cipher_data.now)
        → zero_filled DES3_BLOCK_SIZE q ≡ d.confounder.items ++ d.plaintext.items) }
    ensures sized { IfOk result (λ d. (vec_len d.confounder ≡ DES3_BLOCK_SIZE)
        × (vec_len d.plaintext ≡ length cipher_data.now - LEAST_LEN) × (vec_len d.checksum ≡ DES3_MAC_SIZE)) }
    ensures bytes { IfOk result (λ d. IsBytes d.confounder.items × IsBytes d.plaintext.items) }
    ensures checksum { IfOk result
        (λ d. d.checksum.items ≡ drop (length cipher_data.now - DES3_MAC_SIZE) cipher_data.now) }
    ensures ki { IfOk result (λ d. d.ki.items ≡ ki_of des3_profile key.now (cast_unsigned w32 key_usage)) }
    ensures lengths { OnOk result (HasDes3Lengths (length key.now) (length cipher_data.now)) }

    // The refusals, the first that holds.
    ensures key_length { length key.now ≢ DES3_KEY_SIZE → result ≡ Err (KeyLength (length key.now) DES3_KEY_SIZE) }
    ensures short { length key.now ≡ DES3_KEY_SIZE → length cipher_data.now < LEAST_LEN
        → result ≡ Err (CipherLength (length cipher_data.now) LEAST_LEN) }
    ensures ragged { length key.now ≡ DES3_KEY_SIZE → LEAST_LEN ≤ length cipher_data.now
        → (length cipher_data.now - DES3_MAC_SIZE) % DES3_BLOCK_SIZE ≢ 0 → result ≡ Err CipherUnpad }
    ensures memory { HasDes3Lengths (length key.now) (length cipher_data.now) → IfErr result (λ e. e ≡ Memory) }
{
    if key.len() != DES3_KEY_SIZE {
        return Err(KerberosCryptoError::KeyLength(key.len(), DES3_KEY_SIZE));
    }
    if cipher_data.len() < LEAST_LEN {
        return Err(KerberosCryptoError::CipherLength(cipher_data.len(), LEAST_LEN));
    }
    let (encrypted, checksum) = cipher_data.split_at(cipher_data.len() - DES3_MAC_SIZE);
    if encrypted.len() % DES3_BLOCK_SIZE != 0 {
        return Err(KerberosCryptoError::CipherUnpad);
    }
    let ke = derive_key(alloc, key, &usage_ke(key_usage))?;
    let text = decrypt_des(alloc, &ke, encrypted)?;
    let ki = derive_key(alloc, key, &usage_ki(key_usage))?;
    let opened = DecryptWithoutChecksum::of_text(alloc, &text, DES3_BLOCK_SIZE, checksum, ki)?;
    Ok(opened)
}
