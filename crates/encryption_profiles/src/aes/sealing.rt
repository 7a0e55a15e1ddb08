//! Encryption by AES, and keyed checksums (RFC 3961, sections 5.3 and 5.4; RFC 3962).

ghost use Rattle.std.specs.Prelude.{◌≡◌, ◌≢◌, ◌≤◌, ℕ, List, ◌++◌, length, vec_len, Err, IfOk, IfErr};
ghost use Rattle.std.specs.Int.{cast_unsigned, w32};
ghost use Rattle.block_ciphers.specs.AesSize.{key_length_of};
ghost use Rattle.block_ciphers.specs.declared.error.KerberosCryptoError.TheVariants.{KeyLength, Memory};
ghost use Rattle.encryption_profiles.specs.Profile.{ki_of};
ghost use Rattle.encryption_profiles.specs.Sealing.{IsEncryptedAs, IsSealedAs, encryption_tag_of, tag_alone_of};
ghost use Rattle.encryption_profiles.specs.AesSuites.{aes_profile, aes_tag_of};

use crate::aes::AES_MAC_SIZE;
use crate::aes::derivation::{derive_key, derived_by};
use crate::{
    EncryptWithoutChecksum, hmac_sha1, hmac_sha1_code, joined, usage_kc, usage_ke, usage_ki,
};
use block_ciphers::{AES_BLOCK_SIZE, AesSize, KerberosCryptoResult, KeySchedule, encrypt_aes_cts};
use std::alloc::{AllocError, Global};

/// Encrypts confounder and message, and adds the checksum of both: 28 bytes more than the message. A key of
/// another length is refused (`KeyLength`).
pub fn encrypt_message(
    alloc: Global,
    key: &[u8],
    key_usage: i32,
    payload: &[u8],
    aes_size: &AesSize,
    confounder: [u8; AES_BLOCK_SIZE],
) -> KerberosCryptoResult<Vec<u8>>
    ensures sealed { IfOk result (λ c.
        IsSealedAs (aes_profile aes_size.now) key.now (cast_unsigned w32 key_usage) confounder payload.now c.items) }
    ensures only { IfOk result (λ c. (b : List ℕ)
        → IsSealedAs (aes_profile aes_size.now) key.now (cast_unsigned w32 key_usage) confounder payload.now b
        → b ≡ c.items) }

    // No other confounder or message is encrypted to the same bytes.
    ensures one_text { IfOk result (λ c. (d q : List ℕ)
        → IsSealedAs (aes_profile aes_size.now) key.now (cast_unsigned w32 key_usage) d q c.items
        → (d ≡ confounder) × (q ≡ payload.now)) }

    // The refusals.
    ensures key_length { length key.now ≢ key_length_of aes_size.now
        → result ≡ Err (KeyLength (length key.now) (key_length_of aes_size.now)) }
    ensures memory { length key.now ≡ key_length_of aes_size.now → IfErr result (λ e. e ≡ Memory) }
{
    let sealed = encrypt_message_no_checksum(alloc, key, key_usage, payload, aes_size, confounder)?;
    let tag = tag_of_parts(&sealed.ki, &sealed.confounder, payload);
    let bytes = sealed.with_checksum(&tag)?;
    Ok(bytes)
}

/// Encrypts confounder and message, and returns the key of the checksum that is still to be made. A key of another
/// length is refused (`KeyLength`).
pub fn encrypt_message_no_checksum(
    alloc: Global,
    key: &[u8],
    key_usage: i32,
    payload: &[u8],
    aes_size: &AesSize,
    confounder: [u8; AES_BLOCK_SIZE],
) -> KerberosCryptoResult<EncryptWithoutChecksum>
    ensures encrypted { IfOk result (λ e. IsEncryptedAs (aes_profile aes_size.now) key.now
        (cast_unsigned w32 key_usage) (confounder ++ payload.now) e.encrypted.items) }
    ensures confounder { IfOk result (λ e. e.confounder.items ≡ confounder) }
    ensures ki { IfOk result (λ e. e.ki.items ≡ ki_of (aes_profile aes_size.now) key.now (cast_unsigned w32 key_usage)) }
    ensures ki_sized { IfOk result (λ e. vec_len e.ki ≡ key_length_of aes_size.now) }

    // The refusals.
    ensures key_length { length key.now ≢ key_length_of aes_size.now
        → result ≡ Err (KeyLength (length key.now) (key_length_of aes_size.now)) }
    ensures memory { length key.now ≡ key_length_of aes_size.now → IfErr result (λ e. e ≡ Memory) }
{
    let keys = KeySchedule::of_size(key, aes_size)?;
    let ke = derived_by(alloc, &keys, key, &usage_ke(key_usage))?;
    let text = joined(alloc, &confounder, payload)?;
    let encrypted = encrypt_aes_cts(alloc, &ke, &text, aes_size)?;
    let ki = derived_by(alloc, &keys, key, &usage_ki(key_usage))?;
    let confounder = Vec::from_slice(alloc, &confounder)?;
    Ok(EncryptWithoutChecksum {
        encrypted,
        confounder,
        ki,
    })
}

/// The checksum that follows an encrypted text, 12 bytes. A key of another length is refused (`KeyLength`).
pub fn encryption_checksum(
    alloc: Global,
    key: &[u8],
    key_usage: i32,
    payload: &[u8],
    aes_size: &AesSize,
) -> KerberosCryptoResult<Vec<u8>>
    ensures checksum { IfOk result
        (λ c. c.items ≡ encryption_tag_of (aes_profile aes_size.now) key.now (cast_unsigned w32 key_usage) payload.now) }

    // The refusals.
    ensures key_length { length key.now ≢ key_length_of aes_size.now
        → result ≡ Err (KeyLength (length key.now) (key_length_of aes_size.now)) }
    ensures memory { length key.now ≡ key_length_of aes_size.now → IfErr result (λ e. e ≡ Memory) }
{
    let ki = derive_key(alloc, key, &usage_ki(key_usage), aes_size)?;
    let checksum = tag_of_text(alloc, &ki, payload)?;
    Ok(checksum)
}

/// The keyed checksum of a text, 12 bytes. A key of another length is refused (`KeyLength`).
pub fn checksum_sha_aes(
    alloc: Global,
    key: &[u8],
    key_usage: i32,
    payload: &[u8],
    aes_size: &AesSize,
) -> KerberosCryptoResult<Vec<u8>>
    ensures checksum { IfOk result
        (λ c. c.items ≡ tag_alone_of (aes_profile aes_size.now) key.now (cast_unsigned w32 key_usage) payload.now) }

    // The refusals.
    ensures key_length { length key.now ≢ key_length_of aes_size.now
        → result ≡ Err (KeyLength (length key.now) (key_length_of aes_size.now)) }
    ensures memory { length key.now ≡ key_length_of aes_size.now → IfErr result (λ e. e ≡ Memory) }
{
    let kc = derive_key(alloc, key, &usage_kc(key_usage), aes_size)?;
    let checksum = tag_of_text(alloc, &kc, payload)?;
    Ok(checksum)
}

// HMAC-SHA1 cut to 96 bits, of a text in two parts.
pub(crate) fn tag_of_parts(key: &[u8], front: &[u8], back: &[u8]) -> [u8; AES_MAC_SIZE]
    ensures { result ≡ aes_tag_of key.now (front.now ++ back.now) }
{
    let code = hmac_sha1_code(key, front, back);
    let mut tag = [0; AES_MAC_SIZE];
    tag.copy_from_slice(&code[..AES_MAC_SIZE]);
    tag
}

// HMAC-SHA1 cut to 96 bits.
fn tag_of_text(alloc: Global, key: &[u8], text: &[u8]) -> Result<Vec<u8>, AllocError>
    requires { length key.now ≤ 64 }
    ensures { IfOk result (λ tag. tag.items ≡ aes_tag_of key.now text.now) }
{
    let tag = hmac_sha1(alloc, key, text, AES_MAC_SIZE)?;
    Ok(tag)
}
