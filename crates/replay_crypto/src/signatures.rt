//! Keys and signatures.

use crate::numbers;
use crate::row::Vector;
use public_key_cryptography::{HashFunction, KeyRefusal, PrivateKey, PublicKey, PublicNumbers};
use std::alloc::Global;

pub(crate) fn key_of(modulus: &[u8], exponent: &[u8]) -> Result<PublicKey, KeyRefusal> {
    PublicKey::new(&PublicNumbers { modulus, exponent })
}

/// Modulus and exponent of a key that is taken, or refused by name.
pub(crate) fn is_refused(row: &Vector<'_>) -> bool {
    match row.columns.as_slice() {
        [modulus, exponent] => match key_of(modulus, exponent) {
            Ok(_) => row.first == "taken",
            Err(refusal) => name_of(refusal) == row.first,
        },
        _ => false,
    }
}

fn name_of(refusal: KeyRefusal) -> &'static str {
    match refusal {
        KeyRefusal::Modulus(refusal) => numbers::name_of(refusal),
        KeyRefusal::KeyTooWeak => "KeyTooWeak",
        KeyRefusal::ExponentTooLong => "ExponentTooLong",
        KeyRefusal::ExponentTooSmall => "ExponentTooSmall",
        KeyRefusal::ExponentZeroInFront => "ExponentZeroInFront",
        KeyRefusal::EvenExponent => "EvenExponent",
    }
}

pub(crate) fn hash_of(name: &str) -> Option<HashFunction> {
    match name {
        "sha256" => Some(HashFunction::Sha256),
        "sha384" => Some(HashFunction::Sha384),
        "sha512" => Some(HashFunction::Sha512),
        _ => None,
    }
}

/// Modulus, exponent, message, and a signature that is valid or isn't.
pub(crate) fn is_verified(row: &Vector<'_>) -> bool {
    let (Some(hash), [modulus, exponent, message, signature]) = (
        hash_of(row.first),
        row.columns.as_slice(),
    ) else {
        return false;
    };
    match key_of(modulus, exponent) {
        Ok(key) => key.verifies(hash, message, signature) == (row.second == "yes"),
        Err(_) => false,
    }
}

/// Modulus, both exponents, message, and the signature, which is empty if there is none.
pub(crate) fn is_signed(alloc: Global, row: &Vector<'_>) -> bool {
    let (Some(hash), [modulus, exponent, private_exponent, message, signature]) = (
        hash_of(row.first),
        row.columns.as_slice(),
    ) else {
        return false;
    };
    let Ok(public) = key_of(modulus, exponent) else {
        return false;
    };
    let Ok(private_exponent) = Vec::from_slice(alloc, private_exponent) else {
        return false;
    };
    match PrivateKey::new(public, private_exponent).sign(alloc, hash, message) {
        Ok(Some(made)) => made.as_slice() == signature.as_slice(),
        Ok(None) => signature.is_empty(),
        Err(_) => false,
    }
}
