//! Keys that are derived from keys and from passwords (RFC 3961, sections 5.1 and 6.3.1).

ghost use Rattle.std.specs.Prelude.{◌≡◌, ◌≢◌, ◌+◌, ◌<◌, ◌≤◌, ◌++◌, length, vec_len, Err, IfOk, IfErr};
ghost use Rattle.block_ciphers.specs.declared.error.KerberosCryptoError.TheVariants.{KeyLength, Memory};
ghost use Rattle.encryption_profiles.specs.Derivation.{derived_octets_of};
ghost use Rattle.block_ciphers.specs.Des.{triple_des_cipher};
ghost use Rattle.block_ciphers.specs.Seeds.{random_to_key};
ghost use Rattle.encryption_profiles.specs.Des3Derivation.{des3_derived_key_of, des3_password_key_of};

use crate::{KERBEROS, joined, n_fold};
use block_ciphers::{
    DES3_BLOCK_SIZE, DES3_KEY_SIZE, DES3_SEED_LEN, KerberosCryptoError, KerberosCryptoResult,
    encrypt_des,
};
use std::alloc::{AllocError, Global};

/// The key that is derived from another one and a constant, which isn't empty (DK; RFC 3961, section 5.1). A key that
/// doesn't have 24 bytes is refused (`KeyLength`).
pub fn derive_key(alloc: Global, key: &[u8], well_known: &[u8]) -> KerberosCryptoResult<Vec<u8>>
    requires { 0 < length well_known.now }
    ensures derived { IfOk result (λ k. k.items ≡ des3_derived_key_of key.now well_known.now) }
    ensures sized { IfOk result (λ k. vec_len k ≡ DES3_KEY_SIZE) }

    // The refusals.
    ensures key_length { length key.now ≢ DES3_KEY_SIZE → result ≡ Err (KeyLength (length key.now) DES3_KEY_SIZE) }
    ensures memory { length key.now ≡ DES3_KEY_SIZE → IfErr result (λ e. e ≡ Memory) }
{
    if key.len() != DES3_KEY_SIZE {
        return Err(KerberosCryptoError::KeyLength(key.len(), DES3_KEY_SIZE));
    }
    let octets = derived_octets(alloc, key, well_known)?;
    let derived = random_to_key(alloc, &octets)?;
    Ok(derived)
}

// DR: the iterated ciphers of the folded constant. A chain over zeros is just these.
fn derived_octets(alloc: Global, key: &[u8], well_known: &[u8]) -> KerberosCryptoResult<Vec<u8>>
    requires keyed { length key.now ≡ DES3_KEY_SIZE }
    requires has_data { 0 < length well_known.now }
    ensures derived { IfOk result
        (λ v. v.items ≡ derived_octets_of (triple_des_cipher key.now) DES3_BLOCK_SIZE DES3_SEED_LEN well_known.now) }
    ensures sized { IfOk result (λ v. vec_len v ≡ DES3_SEED_LEN) }
    ensures memory { IfErr result (λ e. e ≡ Memory) }
{
    let mut start = n_fold(alloc, well_known, 8 * DES3_BLOCK_SIZE)?;
    start.resize(3 * DES3_BLOCK_SIZE, 0)?;
    let mut octets = encrypt_des(alloc, key, &start)?;
    octets.truncate(DES3_SEED_LEN);
    Ok(octets)
}

/// The key of a password and a salt (RFC 3961, section 6.3.1). Where both are empty it is
/// refused (`KeyLength` with 0 bytes found and 1 required).
pub fn derive_key_from_password(
    alloc: Global,
    password: &[u8],
    salt: &[u8],
) -> KerberosCryptoResult<Vec<u8>>
    ensures derived { IfOk result (λ k. k.items ≡ des3_password_key_of password.now salt.now) }
    ensures sized { IfOk result (λ k. vec_len k ≡ DES3_KEY_SIZE) }

    // The refusals.
    ensures empty { length password.now + length salt.now ≡ 0 → result ≡ Err (KeyLength 0 1) }
    ensures memory { 0 < length password.now + length salt.now → IfErr result (λ e. e ≡ Memory) }
{
    if password.is_empty() && salt.is_empty() {
        return Err(KerberosCryptoError::KeyLength(0, 1));
    }
    let secret = joined(alloc, password, salt)?;
    let seed = n_fold(alloc, &secret, 8 * DES3_SEED_LEN)?;
    let key = block_ciphers::random_to_key(&seed);
    let derived = derive_key(alloc, &key, KERBEROS)?;
    Ok(derived)
}

/// The key that the first 21 bytes of a seed make (RFC 3961, section 6.3.1).
pub fn random_to_key(alloc: Global, seed: &[u8]) -> Result<Vec<u8>, AllocError>
    requires { DES3_SEED_LEN ≤ length seed.now }
    ensures made { IfOk result (λ k. k.items ≡ random_to_key seed.now) }
    ensures sized { IfOk result (λ k. vec_len k ≡ DES3_KEY_SIZE) }
{
    let key = Vec::from_slice(alloc, &block_ciphers::random_to_key(seed))?;
    Ok(key)
}
