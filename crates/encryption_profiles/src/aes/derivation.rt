//! Keys that are derived from keys and from passwords (RFC 3961, section 5.1; RFC 3962, section 4).

ghost use Rattle.std.specs.Prelude.{◌≡◌, ◌≢◌, ◌<◌, length, vec_len, Err, IfOk, IfErr};
ghost use Rattle.block_ciphers.specs.AesSize.{key_length_of};
ghost use Rattle.block_ciphers.specs.Expanded.{IsScheduleOf};
ghost use Rattle.block_ciphers.specs.declared.error.KerberosCryptoError.TheVariants.{KeyLength, Memory};
ghost use Rattle.encryption_profiles.specs.NFold.{n_fold_of};
ghost use Rattle.encryption_profiles.specs.AesDerivation.{aes_derived_key_of, aes_password_key_of};

use crate::{KERBEROS, five_fold, n_fold, pbkdf2_hmac_sha1};
use block_ciphers::{AES_BLOCK_SIZE, AesSize, KerberosCryptoResult, KeySchedule};
use std::alloc::{AllocError, Global};

/// The iteration count of string-to-key where no s2kparams are given (RFC 3962, section 4).
pub const AES_ITERATIONS: u32 = 4096;

// The bytes of a usage's constant (RFC 3961, section 5.3).
const USAGE_LEN: usize = 5;

/// The key that is derived from another one and a constant, which isn't empty: as long as the key (DK; RFC 3961, section
/// 5.1). A key of another length is refused (`KeyLength`).
pub fn derive_key(
    alloc: Global,
    key: &[u8],
    well_known: &[u8],
    aes_size: &AesSize,
) -> KerberosCryptoResult<Vec<u8>>
    requires { 0 < length well_known.now }
    ensures derived { IfOk result (λ k. k.items ≡ aes_derived_key_of key.now well_known.now) }
    ensures sized { IfOk result (λ k. vec_len k ≡ key_length_of aes_size.now) }

    // The refusals.
    ensures key_length { length key.now ≢ key_length_of aes_size.now
        → result ≡ Err (KeyLength (length key.now) (key_length_of aes_size.now)) }
    ensures memory { length key.now ≡ key_length_of aes_size.now → IfErr result (λ e. e ≡ Memory) }
{
    let keys = KeySchedule::of_size(key, aes_size)?;
    let derived = derived_by(alloc, &keys, key, well_known)?;
    Ok(derived)
}

/// The key that is derived from a key and a constant by the key's round keys, so that several are derived with one expansion.
pub(crate) fn derived_by(
    alloc: Global,
    keys: &KeySchedule,
    key: &[u8],
    well_known: &[u8],
) -> Result<Vec<u8>, AllocError>
    requires expanded { IsScheduleOf keys.now key.now }
    requires has_data { 0 < length well_known.now }
    ensures derived { IfOk result (λ k. k.items ≡ aes_derived_key_of key.now well_known.now) }
    ensures sized { IfOk result (λ k. vec_len k ≡ length key.now) }
{
    let mut block = folded_block(alloc, well_known)?;
    let mut derived = Vec::with_capacity(alloc, key.len())?;
    for _ in 0..key.len() / AES_BLOCK_SIZE {
        block = keys.encrypt_block(&block);
        derived.extend_from_slice(&block)?;
    }
    Ok(derived)
}

// The constant, folded to a block: a usage's constant, which has five bytes, at once.
fn folded_block(alloc: Global, well_known: &[u8]) -> Result<[u8; AES_BLOCK_SIZE], AllocError>
    requires { 0 < length well_known.now }
    ensures folded { IfOk result (λ block. block ≡ n_fold_of well_known.now 128) }
    ensures sized { IfOk result (λ block. length block ≡ AES_BLOCK_SIZE) }
{
    if well_known.len() == USAGE_LEN {
        return Ok(five_fold(well_known));
    }
    let folded = n_fold(alloc, well_known, 8 * AES_BLOCK_SIZE)?;
    let mut block = [0; AES_BLOCK_SIZE];
    block.copy_from_slice(&folded);
    Ok(block)
}

/// The key of a password and a salt: PBKDF2 with 4,096 rounds, and a derivation with the constant `kerberos`.
pub fn derive_key_from_password(
    alloc: Global,
    password: &[u8],
    salt: &[u8],
    aes_size: &AesSize,
) -> KerberosCryptoResult<Vec<u8>>
    ensures derived { IfOk result
        (λ k. k.items ≡ aes_password_key_of (key_length_of aes_size.now) password.now salt.now) }
    ensures sized { IfOk result (λ k. vec_len k ≡ key_length_of aes_size.now) }
    ensures memory { IfErr result (λ e. e ≡ Memory) }
{
    let seed = pbkdf2_hmac_sha1(alloc, password, salt, AES_ITERATIONS, aes_size.key_length())?;
    let seed = random_to_key(alloc, &seed)?;
    let key = derive_key(alloc, &seed, KERBEROS, aes_size)?;
    Ok(key)
}

/// The key of random bytes: they themselves (RFC 3962, section 6).
pub fn random_to_key(alloc: Global, seed: &[u8]) -> Result<Vec<u8>, AllocError>
    ensures { IfOk result (λ k. k.items ≡ seed.now) }
{
    let key = Vec::from_slice(alloc, seed)?;
    Ok(key)
}
