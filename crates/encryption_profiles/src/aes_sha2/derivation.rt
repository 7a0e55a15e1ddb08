//! Keys that are derived from keys and from passwords (RFC 8009, sections 3 and 4).

ghost use Rattle.std.specs.Prelude.{◌≡◌, ◌≢◌, [], ◌∷◌, ◌++◌, length, vec_len, Err, IfOk, IfErr};
ghost use Rattle.block_ciphers.specs.AesSize.{key_length_of};
ghost use Rattle.block_ciphers.specs.declared.error.KerberosCryptoError.TheVariants.{KeyLength, Memory};
ghost use Rattle.encryption_profiles.specs.Pbkdf2.{pbkdf2_of};
ghost use Rattle.encryption_profiles.specs.declared.aes_sha2.derivation.TheConstants.{AES_SHA2_ITERATIONS};
ghost use Rattle.encryption_profiles.specs.AesSha2Derivation.{hmac_sha2_of, hmac_size_of, name_of, sha2_derived_key_of, sha2_password_key_of};

use crate::aes_sha2::mac::{check_key_length, derived};
use crate::{KERBEROS, pbkdf2_hmac};
use block_ciphers::{AES128_KEY_SIZE, AES256_KEY_SIZE, AesSize, KerberosCryptoResult};
use sha2::{Sha256, Sha384};
use std::alloc::{AllocError, Global};

/// The iteration count of string-to-key where no s2kparams are given (RFC 8009, section 4).
pub const AES_SHA2_ITERATIONS: u32 = 32_768;

/// The key that is derived from another one and a label: as long as the key. A key of another length is refused
/// (`KeyLength`).
pub fn derive_key(
    alloc: Global,
    key: &[u8],
    label: &[u8],
    aes_size: &AesSize,
) -> KerberosCryptoResult<Vec<u8>>
    ensures derived { IfOk result
        (λ k. k.items ≡ sha2_derived_key_of aes_size.now (key_length_of aes_size.now) key.now label.now) }
    ensures sized { IfOk result (λ k. vec_len k ≡ key_length_of aes_size.now) }

    // The refusals.
    ensures key_length { length key.now ≢ key_length_of aes_size.now
        → result ≡ Err (KeyLength (length key.now) (key_length_of aes_size.now)) }
    ensures memory { length key.now ≡ key_length_of aes_size.now → IfErr result (λ e. e ≡ Memory) }
{
    check_key_length(key, aes_size)?;
    let derived = derived(alloc, key, label, aes_size.key_length(), aes_size)?;
    Ok(derived)
}

/// The key of a password and a salt: PBKDF2 with 32,768 rounds over the suite's name, a zero byte and the salt, and a
/// derivation with the label `kerberos`.
#[tactic(auto, unfolding(crate::specs::AesSha2Derivation::sha2_password_key_of))]
pub fn derive_key_from_password(
    alloc: Global,
    password: &[u8],
    salt: &[u8],
    aes_size: &AesSize,
) -> KerberosCryptoResult<Vec<u8>>
    ensures derived { IfOk result (λ k. k.items ≡ sha2_password_key_of aes_size.now password.now salt.now) }
    ensures sized { IfOk result (λ k. vec_len k ≡ key_length_of aes_size.now) }
    ensures memory { IfErr result (λ e. e ≡ Memory) }
{
    let salt = named_salt(alloc, salt, aes_size)?;
    let seed = password_seed(alloc, password, &salt, aes_size)?;
    let key = derived(alloc, &seed, KERBEROS, aes_size.key_length(), aes_size)?;
    Ok(key)
}

// The suite's name, a zero byte and the salt.
fn named_salt(alloc: Global, salt: &[u8], aes_size: &AesSize) -> Result<Vec<u8>, AllocError>
    ensures { IfOk result (λ s. s.items ≡ name_of aes_size.now ++ 0 ∷ salt.now) }
{
    let name = name_and_zero(aes_size);
    let mut both = Vec::from_slice(alloc, name)?;
    both.extend_from_slice(salt)?;
    Ok(both)
}

fn name_and_zero(aes_size: &AesSize) -> &'static [u8]
    ensures { result.now ≡ name_of aes_size.now ++ 0 ∷ [] }
{
    match aes_size {
        AesSize::Aes128 => b"aes128-cts-hmac-sha256-128\0",
        AesSize::Aes256 => b"aes256-cts-hmac-sha384-192\0",
    }
}

#[tactic(auto, unfolding(crate::specs::AesSha2Derivation::hmac_sha2_of))]
fn password_seed(
    alloc: Global,
    password: &[u8],
    salt: &[u8],
    aes_size: &AesSize,
) -> Result<Vec<u8>, AllocError>
    ensures { IfOk result (λ v. v.items ≡ pbkdf2_of (hmac_sha2_of aes_size.now) (hmac_size_of aes_size.now)
        password.now salt.now AES_SHA2_ITERATIONS (key_length_of aes_size.now)) }
{
    match aes_size {
        AesSize::Aes128 => pbkdf2_hmac::<Sha256, 32, 64>(
            alloc,
            password,
            salt,
            AES_SHA2_ITERATIONS,
            AES128_KEY_SIZE,
        ),
        AesSize::Aes256 => pbkdf2_hmac::<Sha384, 48, 128>(
            alloc,
            password,
            salt,
            AES_SHA2_ITERATIONS,
            AES256_KEY_SIZE,
        ),
    }
}

/// The key of random bytes: they themselves (RFC 8009, section 5).
pub fn random_to_key(alloc: Global, seed: &[u8]) -> Result<Vec<u8>, AllocError>
    ensures { IfOk result (λ k. k.items ≡ seed.now) }
{
    let key = Vec::from_slice(alloc, seed)?;
    Ok(key)
}
