//! HMAC of the two suites: with SHA-256 for AES-128, with SHA-384 for AES-256 (RFC 8009, section 5).

ghost use Rattle.std.specs.Prelude.{◌≡◌, ◌≢◌, ◌≤◌, ◌++◌, length, vec_len, Err, IfOk, IsOk, OnOk};
ghost use Rattle.block_ciphers.specs.AesSize.{key_length_of};
ghost use Rattle.block_ciphers.specs.declared.error.KerberosCryptoError.TheVariants.{KeyLength};
ghost use Rattle.encryption_profiles.specs.AesSha2Derivation.{hmac_sha2_of, sha2_derived_key_of, tag_size_of};
ghost use Rattle.encryption_profiles.specs.AesSha2Suites.{sha2_tag_of};

use crate::{hmac, kdf_hmac_sha2};
use block_ciphers::{AesSize, KerberosCryptoError, KerberosCryptoResult};
use sha2::{Sha256, Sha384};
use std::alloc::{AllocError, Global};

/// The bytes of a checksum, and of the keys Ki and Kc.
pub(crate) fn tag_size(aes_size: &AesSize) -> usize
    ensures { result ≡ tag_size_of aes_size.now }
{
    match aes_size {
        AesSize::Aes128 => 16,
        AesSize::Aes256 => 24,
    }
}

/// The checksum of a text in two parts.
#[tactic(auto, unfolding(crate::specs::AesSha2Derivation::hmac_sha2_of))]
pub(crate) fn tag(
    alloc: Global,
    key: &[u8],
    front: &[u8],
    back: &[u8],
    aes_size: &AesSize,
) -> Result<Vec<u8>, AllocError>
    ensures tag { IfOk result (λ v. v.items ≡ sha2_tag_of aes_size.now key.now (front.now ++ back.now)) }
{
    match aes_size {
        AesSize::Aes128 => {
            let mac = hmac::<Sha256, 32, 64>(key, front, back);
            Vec::from_slice(alloc, &mac[..16])
        }
        AesSize::Aes256 => {
            let mac = hmac::<Sha384, 48, 128>(key, front, back);
            Vec::from_slice(alloc, &mac[..24])
        }
    }
}

/// The key of `size` bytes that is derived from a key and a label.
#[tactic(auto, unfolding(crate::specs::AesSha2Derivation::hmac_sha2_of))]
pub(crate) fn derived(
    alloc: Global,
    key: &[u8],
    label: &[u8],
    size: usize,
    aes_size: &AesSize,
) -> Result<Vec<u8>, AllocError>
    requires { size ≤ 32 }
    ensures derived { IfOk result (λ k. k.items ≡ sha2_derived_key_of aes_size.now size key.now label.now) }
    ensures sized { IfOk result (λ k. vec_len k ≡ size) }
{
    match aes_size {
        AesSize::Aes128 => kdf_hmac_sha2::<Sha256, 32, 64>(alloc, key, label, size),
        AesSize::Aes256 => kdf_hmac_sha2::<Sha384, 48, 128>(alloc, key, label, size),
    }
}

/// Refuses a key that isn't of this size.
pub(crate) fn check_key_length(key: &[u8], aes_size: &AesSize) -> KerberosCryptoResult<()>
    ensures sized { OnOk result (length key.now ≡ key_length_of aes_size.now) }
    ensures right { length key.now ≡ key_length_of aes_size.now → IsOk result }
    ensures wrong { length key.now ≢ key_length_of aes_size.now
        → result ≡ Err (KeyLength (length key.now) (key_length_of aes_size.now)) }
{
    let wanted = aes_size.key_length();
    if key.len() != wanted {
        return Err(KerberosCryptoError::KeyLength(key.len(), wanted));
    }
    Ok(())
}
