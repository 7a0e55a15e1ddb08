//! Decryption by AES with SHA-2 (RFC 8009, section 5).

ghost use Rattle.std.specs.Prelude.{◌≡◌, ◌≢◌, ◌⊎◌, ◌-◌, ◌<◌, ◌≤◌, ℕ, List, ◌++◌, length, take, drop, vec_len, Err, IfOk, IfErr, OnOk};
ghost use Rattle.std.specs.Int.{cast_unsigned, w32};
ghost use Rattle.block_ciphers.specs.AesSize.{key_length_of};
ghost use Rattle.block_ciphers.specs.Bytes.{IsBytes};
ghost use Rattle.block_ciphers.specs.declared.error.KerberosCryptoError.TheVariants.{CipherLength, KeyLength, Memory};
ghost use Rattle.encryption_profiles.specs.Profile.{ki_of};
ghost use Rattle.encryption_profiles.specs.Sealing.{IsEncryptedAs, IsNothingSealedAs, IsOpeningAs};
ghost use Rattle.encryption_profiles.specs.AesSha2Derivation.{tag_size_of};
ghost use Rattle.encryption_profiles.specs.AesSha2Suites.{IsSha2Refusal, aes_sha2_profile, least_of};

use crate::aes_sha2::mac::{check_key_length, derived, tag, tag_size};
use crate::aes_sha2::sealing::INITIAL_VECTOR;
use crate::{DecryptWithoutChecksum, usage_ke, usage_ki};
use block_ciphers::{
    AES_BLOCK_SIZE, AesSize, KerberosCryptoError, KerberosCryptoResult, decrypt_aes_cts,
};
use std::alloc::Global;

/// Decrypts a message and verifies its checksum. The message is 32 or 40 bytes shorter. The refusals, in this order:
/// fewer bytes than these (`CipherLength`), a key of another length (`KeyLength`), a checksum that isn't the encrypted
/// text's (`IntegrityCheck`).
pub fn decrypt_message(
    alloc: Global,
    key: &[u8],
    key_usage: i32,
    cipher_data: &[u8],
    aes_size: &AesSize,
) -> KerberosCryptoResult<Vec<u8>>
    ensures opened { IfOk result (λ p. IsOpeningAs (aes_sha2_profile aes_size.now) key.now
        (cast_unsigned w32 key_usage) p.items cipher_data.now) }
    ensures refusals { IfErr result (λ e. IsSha2Refusal (key_length_of aes_size.now) (least_of aes_size.now)
        (length key.now) (length cipher_data.now) e) }

    // Where the refusal isn't memory, no message is encrypted to these bytes.
    ensures refused { IfErr result (λ e. (e ≡ Memory)
        ⊎ IsNothingSealedAs (aes_sha2_profile aes_size.now) key.now (cast_unsigned w32 key_usage) cipher_data.now) }
{
    let opened = decrypt_message_no_checksum(alloc, key, key_usage, cipher_data, aes_size)?;
    let encrypted = &cipher_data[..cipher_data.len() - tag_size(aes_size)];
    let tag = tag(alloc, &opened.ki, &INITIAL_VECTOR, encrypted, aes_size)?;
    opened.verified(&tag)
}

/// Decrypts a message. Its checksum isn't verified. The refusals, in this order: fewer bytes than a
/// confounder and a checksum (`CipherLength`), a key of another length (`KeyLength`).
pub fn decrypt_message_no_checksum(
    alloc: Global,
    key: &[u8],
    key_usage: i32,
    cipher_data: &[u8],
    aes_size: &AesSize,
) -> KerberosCryptoResult<DecryptWithoutChecksum>
    ensures decrypted { IfOk result (λ d. IsEncryptedAs (aes_sha2_profile aes_size.now) key.now
        (cast_unsigned w32 key_usage) (d.confounder.items ++ d.plaintext.items)
        (take (length cipher_data.now - tag_size_of aes_size.now) cipher_data.now)) }
    ensures only { IfOk result (λ d. (q : List ℕ) → IsBytes q → 16 ≤ length q
        → IsEncryptedAs (aes_sha2_profile aes_size.now) key.now (cast_unsigned w32 key_usage) q
        (take (length cipher_data.now - tag_size_of aes_size.now) cipher_data.now)
        → q ≡ d.confounder.items ++ d.plaintext.items) }
    ensures sized { IfOk result (λ d. (vec_len d.confounder ≡ 16)
        × (vec_len d.plaintext ≡ length cipher_data.now - least_of aes_size.now)
        × (vec_len d.checksum ≡ tag_size_of aes_size.now)) }
    ensures bytes { IfOk result (λ d. IsBytes d.confounder.items × IsBytes d.plaintext.items) }
    ensures checksum { IfOk result
        (λ d. d.checksum.items ≡ drop (length cipher_data.now - tag_size_of aes_size.now) cipher_data.now) }
    ensures ki { IfOk result
        (λ d. d.ki.items ≡ ki_of (aes_sha2_profile aes_size.now) key.now (cast_unsigned w32 key_usage)) }
    ensures key_sized { OnOk result (length key.now ≡ key_length_of aes_size.now) }
    ensures long { OnOk result (least_of aes_size.now ≤ length cipher_data.now) }

    // The refusals, the first that holds.
    ensures short { length cipher_data.now < least_of aes_size.now
        → result ≡ Err (CipherLength (length cipher_data.now) (least_of aes_size.now)) }
    ensures key_length { least_of aes_size.now ≤ length cipher_data.now → length key.now ≢ key_length_of aes_size.now
        → result ≡ Err (KeyLength (length key.now) (key_length_of aes_size.now)) }
    ensures memory { least_of aes_size.now ≤ length cipher_data.now → length key.now ≡ key_length_of aes_size.now
        → IfErr result (λ e. e ≡ Memory) }
{
    let tag_size = tag_size(aes_size);
    let least = AES_BLOCK_SIZE + tag_size;
    if cipher_data.len() < least {
        return Err(KerberosCryptoError::CipherLength(cipher_data.len(), least));
    }
    check_key_length(key, aes_size)?;
    let (encrypted, checksum) = cipher_data.split_at(cipher_data.len() - tag_size);
    let ke = derived(
        alloc,
        key,
        &usage_ke(key_usage),
        aes_size.key_length(),
        aes_size,
    )?;
    let text = decrypt_aes_cts(alloc, &ke, encrypted, aes_size)?;
    let ki = derived(alloc, key, &usage_ki(key_usage), tag_size, aes_size)?;
    let opened = DecryptWithoutChecksum::of_text(alloc, &text, AES_BLOCK_SIZE, checksum, ki)?;
    Ok(opened)
}
