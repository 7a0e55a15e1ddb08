//! Encryption by triple DES, and keyed checksums (RFC 3961, sections 5.3, 5.4 and 6.3).

ghost use Rattle.std.specs.Prelude.{◌≡◌, ◌≢◌, ◌%◌, ℕ, List, ◌++◌, length, Err, IfOk, IfErr};
ghost use Rattle.std.specs.Int.{cast_unsigned, w32};
ghost use Rattle.block_ciphers.specs.Chains.{zero_filled};
ghost use Rattle.block_ciphers.specs.declared.error.KerberosCryptoError.TheVariants.{KeyLength, Memory};
ghost use Rattle.encryption_profiles.specs.Profile.{ki_of};
ghost use Rattle.encryption_profiles.specs.Sealing.{IsEncryptedAs, IsSealedAs, encryption_tag_of, tag_alone_of};
ghost use Rattle.encryption_profiles.specs.Suite.{des3_profile};

use crate::des3::derivation::derive_key;
use crate::{EncryptWithoutChecksum, hmac, joined, usage_kc, usage_ke, usage_ki};
use block_ciphers::{DES3_BLOCK_SIZE, DES3_KEY_SIZE, KerberosCryptoResult, encrypt_des};
use sha1::Sha1;
use std::alloc::{AllocError, Global};

/// Encrypts confounder, message and padding of zeros, and adds the checksum of these three: 28 bytes more than the padded
/// message. A key that doesn't have 24 bytes is refused (`KeyLength`).
pub fn encrypt_message(
    alloc: Global,
    key: &[u8],
    key_usage: i32,
    payload: &[u8],
    confounder: [u8; DES3_BLOCK_SIZE],
) -> KerberosCryptoResult<Vec<u8>>
    ensures sealed { IfOk result (λ c.
        IsSealedAs des3_profile key.now (cast_unsigned w32 key_usage) confounder payload.now c.items) }
    ensures only { IfOk result (λ c. (b : List ℕ)
        → IsSealedAs des3_profile key.now (cast_unsigned w32 key_usage) confounder payload.now b → b ≡ c.items) }

    // No other confounder is encrypted to the same bytes, nor a message that differs in more than its padding.
    ensures one_text { IfOk result (λ c. (d q : List ℕ)
        → IsSealedAs des3_profile key.now (cast_unsigned w32 key_usage) d q c.items
        → (d ≡ confounder) × (zero_filled DES3_BLOCK_SIZE q ≡ zero_filled DES3_BLOCK_SIZE payload.now)) }

    // The refusals.
    ensures key_length { length key.now ≢ DES3_KEY_SIZE → result ≡ Err (KeyLength (length key.now) DES3_KEY_SIZE) }
    ensures memory { length key.now ≡ DES3_KEY_SIZE → IfErr result (λ e. e ≡ Memory) }
{
    let sealed = encrypt_message_no_checksum(alloc, key, key_usage, payload, confounder)?;
    let text = filled_text(alloc, &sealed.confounder, payload)?;
    let tag = hmac::<Sha1, 20, 64>(&sealed.ki, &[], &text);
    let bytes = sealed.with_checksum(&tag)?;
    Ok(bytes)
}

/// Encrypts confounder, message and padding of zeros, and returns the key of the checksum that is still to be made. A
/// key that doesn't have 24 bytes is refused (`KeyLength`).
pub fn encrypt_message_no_checksum(
    alloc: Global,
    key: &[u8],
    key_usage: i32,
    payload: &[u8],
    confounder: [u8; DES3_BLOCK_SIZE],
) -> KerberosCryptoResult<EncryptWithoutChecksum>
    ensures encrypted { IfOk result (λ e. IsEncryptedAs des3_profile key.now (cast_unsigned w32 key_usage)
        (confounder ++ payload.now) e.encrypted.items) }
    ensures confounder { IfOk result (λ e. e.confounder.items ≡ confounder) }
    ensures ki { IfOk result (λ e. e.ki.items ≡ ki_of des3_profile key.now (cast_unsigned w32 key_usage)) }

    // The refusals.
    ensures key_length { length key.now ≢ DES3_KEY_SIZE → result ≡ Err (KeyLength (length key.now) DES3_KEY_SIZE) }
    ensures memory { length key.now ≡ DES3_KEY_SIZE → IfErr result (λ e. e ≡ Memory) }
{
    let ke = derive_key(alloc, key, &usage_ke(key_usage))?;
    let text = filled_text(alloc, &confounder, payload)?;
    let encrypted = encrypt_des(alloc, &ke, &text)?;
    let ki = derive_key(alloc, key, &usage_ki(key_usage))?;
    let confounder = Vec::from_slice(alloc, &confounder)?;
    Ok(EncryptWithoutChecksum {
        encrypted,
        confounder,
        ki,
    })
}

/// The checksum that follows an encrypted text, 20 bytes. It covers confounder, message and padding.
pub fn encryption_checksum(
    alloc: Global,
    key: &[u8],
    key_usage: i32,
    payload: &[u8],
) -> KerberosCryptoResult<Vec<u8>>
    ensures checksum { IfOk result
        (λ c. c.items ≡ encryption_tag_of des3_profile key.now (cast_unsigned w32 key_usage) payload.now) }

    // The refusals.
    ensures key_length { length key.now ≢ DES3_KEY_SIZE → result ≡ Err (KeyLength (length key.now) DES3_KEY_SIZE) }
    ensures memory { length key.now ≡ DES3_KEY_SIZE → IfErr result (λ e. e ≡ Memory) }
{
    let ki = derive_key(alloc, key, &usage_ki(key_usage))?;
    let checksum = Vec::from_slice(alloc, &hmac::<Sha1, 20, 64>(&ki, &[], payload))?;
    Ok(checksum)
}

/// The keyed checksum of a text, 20 bytes. A key that doesn't have 24 bytes is refused (`KeyLength`).
pub fn checksum_sha_des3(
    alloc: Global,
    key: &[u8],
    key_usage: i32,
    payload: &[u8],
) -> KerberosCryptoResult<Vec<u8>>
    ensures key_length { length key.now ≢ DES3_KEY_SIZE → result ≡ Err (KeyLength (length key.now) DES3_KEY_SIZE) }
    ensures memory { length key.now ≡ DES3_KEY_SIZE → IfErr result (λ e. e ≡ Memory) }
    ensures checksum { IfOk result
        (λ c. c.items ≡ tag_alone_of des3_profile key.now (cast_unsigned w32 key_usage) payload.now) }
{
    let kc = derive_key(alloc, key, &usage_kc(key_usage))?;
    let checksum = Vec::from_slice(alloc, &hmac::<Sha1, 20, 64>(&kc, &[], payload))?;
    Ok(checksum)
}

// Joins confounder and message, and adds zeros up to whole blocks.
fn filled_text(alloc: Global, confounder: &[u8], payload: &[u8]) -> Result<Vec<u8>, AllocError>
    ensures filled { IfOk result (λ v. v.items ≡ zero_filled DES3_BLOCK_SIZE (confounder.now ++ payload.now)) }
    ensures whole { IfOk result (λ v. length v.items % DES3_BLOCK_SIZE ≡ 0) }
{
    let mut text = joined(alloc, confounder, payload)?;
    let missing = (DES3_BLOCK_SIZE - text.len() % DES3_BLOCK_SIZE) % DES3_BLOCK_SIZE;
    text.resize(text.len() + missing, 0)?;
    Ok(text)
}
