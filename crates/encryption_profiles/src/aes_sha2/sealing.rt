//! Encryption, and keyed checksums (RFC 8009, sections 5 and 6).

ghost use Rattle.std.specs.Prelude.{◌≡◌, ◌≢◌, List, ℕ, ◌++◌, length, Err, IfOk, IfErr};
ghost use Rattle.std.specs.Int.{cast_unsigned, w32};
ghost use Rattle.block_ciphers.specs.AesSize.{key_length_of};
ghost use Rattle.block_ciphers.specs.declared.error.KerberosCryptoError.TheVariants.{KeyLength, Memory};
ghost use Rattle.encryption_profiles.specs.Profile.{ki_of};
ghost use Rattle.encryption_profiles.specs.Sealing.{IsEncryptedAs, IsSealedAs, encryption_tag_of, tag_alone_of};
ghost use Rattle.encryption_profiles.specs.AesSha2Suites.{aes_sha2_profile};

use crate::aes_sha2::mac::{check_key_length, derived, tag, tag_size};
use crate::{EncryptWithoutChecksum, joined, usage_kc, usage_ke, usage_ki};
use block_ciphers::{AES_BLOCK_SIZE, AesSize, KerberosCryptoResult, encrypt_aes_cts};
use std::alloc::Global;

/// The block of zeros that the chain begins with, and that a checksum covers before the encrypted text.
pub(crate) const INITIAL_VECTOR: [u8; AES_BLOCK_SIZE] = [0; AES_BLOCK_SIZE];

/// Encrypts confounder and message, and adds the checksum of the initial vector and the ciphertext: 32 bytes more than
/// the message, or 40. A key of another length is refused (`KeyLength`).
pub fn encrypt_message(
    alloc: Global,
    key: &[u8],
    key_usage: i32,
    payload: &[u8],
    aes_size: &AesSize,
    confounder: [u8; AES_BLOCK_SIZE],
) -> KerberosCryptoResult<Vec<u8>>
    ensures sealed { IfOk result (λ c.
        IsSealedAs (aes_sha2_profile aes_size.now) key.now (cast_unsigned w32 key_usage) confounder payload.now c.items) }
    ensures only { IfOk result (λ c. (b : List ℕ)
        → IsSealedAs (aes_sha2_profile aes_size.now) key.now (cast_unsigned w32 key_usage) confounder payload.now b
        → b ≡ c.items) }

    // No other confounder or message is encrypted to the same bytes.
    ensures one_text { IfOk result (λ c. (d q : List ℕ)
        → IsSealedAs (aes_sha2_profile aes_size.now) key.now (cast_unsigned w32 key_usage) d q c.items
        → (d ≡ confounder) × (q ≡ payload.now)) }

    // The refusals.
    ensures key_length { length key.now ≢ key_length_of aes_size.now
        → result ≡ Err (KeyLength (length key.now) (key_length_of aes_size.now)) }
    ensures memory { length key.now ≡ key_length_of aes_size.now → IfErr result (λ e. e ≡ Memory) }
{
    let sealed = encrypt_message_no_checksum(alloc, key, key_usage, payload, aes_size, confounder)?;
    let tag = tag(
        alloc,
        &sealed.ki,
        &INITIAL_VECTOR,
        &sealed.encrypted,
        aes_size,
    )?;
    let bytes = sealed.with_checksum(&tag)?;
    Ok(bytes)
}

/// Encrypts confounder and message, and returns the key of the checksum that is still to be made. A key of another
/// length is refused (`KeyLength`).
pub fn encrypt_message_no_checksum(
    alloc: Global,
    key: &[u8],
    key_usage: i32,
    payload: &[u8],
    aes_size: &AesSize,
    confounder: [u8; AES_BLOCK_SIZE],
) -> KerberosCryptoResult<EncryptWithoutChecksum>
    ensures encrypted { IfOk result (λ e. IsEncryptedAs (aes_sha2_profile aes_size.now) key.now
        (cast_unsigned w32 key_usage) (confounder ++ payload.now) e.encrypted.items) }
    ensures confounder { IfOk result (λ e. e.confounder.items ≡ confounder) }
    ensures ki { IfOk result
        (λ e. e.ki.items ≡ ki_of (aes_sha2_profile aes_size.now) key.now (cast_unsigned w32 key_usage)) }

    // The refusals.
    ensures key_length { length key.now ≢ key_length_of aes_size.now
        → result ≡ Err (KeyLength (length key.now) (key_length_of aes_size.now)) }
    ensures memory { length key.now ≡ key_length_of aes_size.now → IfErr result (λ e. e ≡ Memory) }
{
    check_key_length(key, aes_size)?;
    let ke = derived(
        alloc,
        key,
        &usage_ke(key_usage),
        aes_size.key_length(),
        aes_size,
    )?;
    let text = joined(alloc, &confounder, payload)?;
    let encrypted = encrypt_aes_cts(alloc, &ke, &text, aes_size)?;
    let ki = derived(
        alloc,
        key,
        &usage_ki(key_usage),
        tag_size(aes_size),
        aes_size,
    )?;
    let confounder = Vec::from_slice(alloc, &confounder)?;
    Ok(EncryptWithoutChecksum {
        encrypted,
        confounder,
        ki,
    })
}

/// The checksum that follows an encrypted text. It covers what the caller hands in: 16 zero bytes and the encrypted text.
/// A key of another length is refused (`KeyLength`).
pub fn encryption_checksum(
    alloc: Global,
    key: &[u8],
    key_usage: i32,
    payload: &[u8],
    aes_size: &AesSize,
) -> KerberosCryptoResult<Vec<u8>>
    ensures checksum { IfOk result (λ c. c.items
        ≡ encryption_tag_of (aes_sha2_profile aes_size.now) key.now (cast_unsigned w32 key_usage) payload.now) }

    // The refusals.
    ensures key_length { length key.now ≢ key_length_of aes_size.now
        → result ≡ Err (KeyLength (length key.now) (key_length_of aes_size.now)) }
    ensures memory { length key.now ≡ key_length_of aes_size.now → IfErr result (λ e. e ≡ Memory) }
{
    check_key_length(key, aes_size)?;
    let ki = derived(
        alloc,
        key,
        &usage_ki(key_usage),
        tag_size(aes_size),
        aes_size,
    )?;
    let checksum = tag(alloc, &ki, &[], payload, aes_size)?;
    Ok(checksum)
}

/// The keyed checksum of a text, 16 or 24 bytes. A key of another length is refused (`KeyLength`).
pub fn checksum_sha2(
    alloc: Global,
    key: &[u8],
    key_usage: i32,
    payload: &[u8],
    aes_size: &AesSize,
) -> KerberosCryptoResult<Vec<u8>>
    ensures checksum { IfOk result (λ c. c.items
        ≡ tag_alone_of (aes_sha2_profile aes_size.now) key.now (cast_unsigned w32 key_usage) payload.now) }

    // The refusals.
    ensures key_length { length key.now ≢ key_length_of aes_size.now
        → result ≡ Err (KeyLength (length key.now) (key_length_of aes_size.now)) }
    ensures memory { length key.now ≡ key_length_of aes_size.now → IfErr result (λ e. e ≡ Memory) }
{
    check_key_length(key, aes_size)?;
    let kc = derived(
        alloc,
        key,
        &usage_kc(key_usage),
        tag_size(aes_size),
        aes_size,
    )?;
    let checksum = tag(alloc, &kc, &[], payload, aes_size)?;
    Ok(checksum)
}
