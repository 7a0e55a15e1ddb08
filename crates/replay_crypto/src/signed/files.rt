//! Files of certificates and private keys.

use crate::signed::key_rows::KeyRow;
use std::alloc::Global;
use x509_certificates::{FileFault, certificate_in, private_key_in};
use x509_keys::RsaPrivateKey;

/// The name of a fault, and its place.
fn name_of(fault: FileFault) -> (&'static str, Option<usize>) {
    match fault {
        FileFault::NotFound => ("NotFound", None),
        FileFault::NotEnded(place) => ("NotEnded", Some(place)),
        FileFault::NotBase64(place) => ("NotBase64", Some(place)),
        FileFault::Encrypted(place) => ("Encrypted", Some(place)),
        FileFault::NotRead(place) => ("NotRead", Some(place)),
        FileFault::NotRsa(place) => ("NotRsa", Some(place)),
        FileFault::Memory => ("Memory", None),
    }
}

fn is_fault(fault: FileFault, row: &KeyRow<'_>) -> bool {
    name_of(fault) == (row.first, row.second.parse::<usize>().ok())
}

/// A file, and the DER of the certificate in it.
pub(crate) fn is_certificate(alloc: Global, row: &KeyRow<'_>) -> Option<bool> {
    let [file, ..] = row.columns.as_slice() else {
        return None;
    };
    match certificate_in(alloc, file) {
        Ok(found) => Some(row.first == "read" && row.columns.get(1) == Some(&found)),
        Err(fault) => Some(is_fault(fault, row)),
    }
}

/// A file, and the modulus and the private exponent of the key in it.
pub(crate) fn is_key(alloc: Global, row: &KeyRow<'_>) -> Option<bool> {
    let [file, numbers @ ..] = row.columns.as_slice() else {
        return None;
    };
    match private_key_in(alloc, file) {
        Ok(key) => Some(row.first == "read" && has_numbers(&key, numbers)),
        Err(fault) => Some(is_fault(fault, row)),
    }
}

fn has_numbers(key: &RsaPrivateKey, numbers: &[Vec<u8>]) -> bool {
    let [modulus, exponent] = numbers else {
        return false;
    };
    key.modulus.as_unsigned_bytes_be() == modulus.as_slice()
        && key.private_exponent.as_unsigned_bytes_be() == exponent.as_slice()
}
