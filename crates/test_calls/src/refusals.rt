//! What calls refuse, and how refusals print.

use crate::sealing::{KEY, SEALED, is};
use krb_crypto::aes::{AesSize, decrypt_aes_cts, decrypt_message};
use krb_crypto::{Cipher, CipherSuite, KerberosCryptoError, KerberosCryptoResult, des};
use std::alloc::Global;

const SIZE: AesSize = AesSize::Aes128;

const DES3: CipherSuite = CipherSuite::Des3CbcSha1Kd;

// The bytes of the ciphertext and those wanted, where these are refused.
fn refused_length(decrypted: KerberosCryptoResult<Vec<u8>>) -> Option<(usize, usize)> {
    match decrypted {
        Err(KerberosCryptoError::CipherLength(found, wanted)) => Some((found, wanted)),
        _ => None,
    }
}

// The bytes of the key, or of password and salt, and those wanted, where these are refused.
fn refused_key(made: KerberosCryptoResult<Vec<u8>>) -> Option<(usize, usize)> {
    match made {
        Err(KerberosCryptoError::KeyLength(found, wanted)) => Some((found, wanted)),
        _ => None,
    }
}

// The number of a refusal.
fn number_of(decrypted: KerberosCryptoResult<Vec<u8>>) -> Option<u8> {
    match decrypted {
        Ok(_) => None,
        Err(refusal) => Some(refusal.number()),
    }
}

// Fewer bytes than a block are refused before the key is looked at, and no bytes give none.
#[test]
fn short_stolen(rt: HostRuntime) {
    let alloc = rt.alloc();
    assert!(rt; refused_length(decrypt_aes_cts(alloc, KEY, &[7; 15], &SIZE)) == Some((15, 16)));
    assert!(rt; refused_length(decrypt_aes_cts(alloc, &[], &[7; 15], &SIZE)) == Some((15, 16)));
    assert!(rt; refused_length(decrypt_aes_cts(alloc, &[], &[7], &SIZE)) == Some((1, 16)));
    assert!(rt; is(decrypt_aes_cts(alloc, KEY, &[], &SIZE), &[]));
    assert!(rt; is(decrypt_aes_cts(alloc, &[], &[], &SIZE), &[]));
    assert!(rt; refused_key(decrypt_aes_cts(alloc, &[7; 15], &[7; 16], &SIZE)) == Some((15, 16)));
}

// So are fewer bytes than a confounder and a checksum.
#[test]
fn short_message(rt: HostRuntime) {
    let alloc = rt.alloc();
    let wanted = Some((27, 28));
    assert!(rt; refused_length(decrypt_message(alloc, KEY, 5, &[7; 27], &SIZE)) == wanted);
    assert!(rt; refused_length(decrypt_message(alloc, &[7; 32], 5, &[7; 27], &SIZE)) == wanted);
    assert!(rt; refused_key(decrypt_message(alloc, &[7; 32], 5, SEALED, &SIZE)) == Some((32, 16)));
}

// Triple DES looks at the key first, then at the length, the blocks and the checksum.
#[test]
fn triple_des(rt: HostRuntime) {
    let alloc = rt.alloc();
    let key = &[7; 24];
    assert!(rt; refused_key(DES3.decrypt(alloc, &[7; 23], 5, &[7; 27])) == Some((23, 24)));
    assert!(rt; refused_length(DES3.decrypt(alloc, key, 5, &[7; 27])) == Some((27, 28)));
    assert!(rt; number_of(DES3.decrypt(alloc, key, 5, &[7; 29])) == Some(7));
    assert!(rt; number_of(DES3.decrypt(alloc, key, 5, &[7; 36])) == Some(5));
}

// It folds password and salt, which gives no key where both are empty.
#[test]
fn empty_password(rt: HostRuntime) {
    let alloc = rt.alloc();
    assert!(rt; refused_key(des::derive_key_from_password(alloc, &[], &[])) == Some((0, 1)));
    assert!(rt; refused_key(DES3.generate_key_from_password(alloc, &[], &[])) == Some((0, 1)));
}

fn is_printed(alloc: Global, refusal: KerberosCryptoError, text: &str) -> bool {
    match format!(in alloc; "{refusal}") {
        Ok(printed) => printed.as_str() == text,
        Err(_) => false,
    }
}

#[test]
fn refusals_in_words(rt: HostRuntime) {
    for (refusal, text) in [
        (
            KerberosCryptoError::KeyLength(15, 16),
            "invalid key length: 15 bytes, expected 16",
        ),
        (
            KerberosCryptoError::CipherLength(27, 28),
            "invalid cipher text length: 27 bytes, expected at least 28",
        ),
        (
            KerberosCryptoError::AlgorithmIdentifier(99),
            "invalid algorithm identifier: 99",
        ),
        (KerberosCryptoError::Memory, "out of memory"),
    ] {
        assert!(rt; is_printed(rt.alloc(), refusal, text), "{text}");
    }
}
