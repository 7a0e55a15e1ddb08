//! What triple DES makes in a chain, and the keys that it derives.

use crate::row::Vector;
use crate::sealing::is;
use krb_crypto::des::{decrypt_des, derive_key, encrypt_des, random_to_key};
use std::alloc::Global;

/// Key, text, what it is enciphered to, and what that is deciphered to.
pub(crate) fn is_chained(alloc: Global, row: &Vector<'_>) -> bool {
    let [key, text, cipher, padded] = row.columns.as_slice() else {
        return false;
    };
    is(encrypt_des(alloc, key, text), cipher) && is(decrypt_des(alloc, key, cipher), padded)
}

/// Seed and key.
pub(crate) fn is_seeded(alloc: Global, row: &Vector<'_>) -> bool {
    let [seed, key] = row.columns.as_slice() else {
        return false;
    };
    is_stretched(alloc, seed, key)
}

fn is_stretched(alloc: Global, seed: &[u8], key: &[u8]) -> bool {
    seed.len() >= 21 && is(random_to_key(alloc, seed), key)
}

/// Key, constant, the octets that they make, and the key made from these.
pub(crate) fn is_derived(alloc: Global, row: &Vector<'_>) -> bool {
    let [key, constant, octets, derived] = row.columns.as_slice() else {
        return false;
    };
    !constant.is_empty()
        && is_stretched(alloc, octets, derived)
        && is(derive_key(alloc, key, constant), derived)
}
