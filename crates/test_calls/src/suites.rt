//! The same message through the suites, each by its type and as any suite.

use crate::sealing::{CHECKSUM, CONFOUNDER, KEY, SEALED, TEXT, WITHIN, is};
use krb_crypto::aes::{Aes128CtsHmacSha196, HmacSha196Aes128};
use krb_crypto::{
    Checksum, ChecksumSuite, Cipher, CipherSuite, KerberosCryptoError, KerberosCryptoResult,
};
use std::alloc::Global;

const AES128: CipherSuite = CipherSuite::Aes128CtsHmacSha196;

fn sealed_by(alloc: Global, cipher: &dyn Cipher) -> KerberosCryptoResult<Vec<u8>> {
    if cipher.confounder_size() != 16 {
        return Err(KerberosCryptoError::IntegrityCheck);
    }
    cipher.encrypt(alloc, KEY, 5, TEXT, CONFOUNDER)
}

#[test]
fn sealed(rt: HostRuntime) {
    assert!(rt; is(sealed_by(rt.alloc(), AES128.cipher()), SEALED));
    assert!(rt; is(sealed_by(rt.alloc(), &Aes128CtsHmacSha196::new()), SEALED));
}

#[test]
fn opened(rt: HostRuntime) {
    assert!(rt; is(AES128.decrypt(rt.alloc(), KEY, 5, SEALED), TEXT));
    assert!(rt; is_opened_in_parts(rt.alloc()));
}

fn is_opened_in_parts(alloc: Global) -> bool {
    match AES128.decrypt_no_checksum(alloc, KEY, 5, SEALED) {
        Ok(parts) => parts.plaintext.as_slice() == TEXT.as_slice(),
        Err(_) => false,
    }
}

// The checksum within a sealed message is that of the confounder and the text, and its key comes with both halves.
#[test]
fn checksum_within(rt: HostRuntime) {
    let text = b"\xA1\x34\x9D\x21\xEE\xE8\xB9\x5D\xA7\x82\x5B\xB4\xA7\xA5\xE0\x4Eaes256_cts_";
    assert!(rt; is(AES128.encryption_checksum(rt.alloc(), KEY, 5, text), WITHIN));
}

#[test]
fn keys_within(rt: HostRuntime) {
    assert!(rt; are_keys_alike(rt.alloc()));
}

fn are_keys_alike(alloc: Global) -> bool {
    match (
        AES128.encrypt_no_checksum(alloc, KEY, 5, TEXT, CONFOUNDER),
        AES128.decrypt_no_checksum(alloc, KEY, 5, SEALED),
    ) {
        (Ok(front), Ok(parts)) => front.ki == parts.ki,
        _ => false,
    }
}

// The key of `test1` in EXAMPLE.COM.
#[test]
fn password_key(rt: HostRuntime) {
    let key = AES128.generate_key_from_password(rt.alloc(), b"5hYYSAfFJp", b"EXAMPLE.COMtest1");
    let wanted = b"\xBB\x43\xD0\x02\xE3\x77\x43\x16\x12\x56\xAE\xC9\x06\x81\xCF\xDC";
    assert!(rt; is(key, wanted));
}

fn summed_by(alloc: Global, hasher: &dyn Checksum) -> KerberosCryptoResult<Vec<u8>> {
    hasher.checksum(alloc, KEY, 6, b"body")
}

#[test]
fn checksums(rt: HostRuntime) {
    assert!(rt;
        is(
            summed_by(rt.alloc(), AES128.checksum_type().hasher()),
            CHECKSUM
        )
    );
    assert!(rt; is(summed_by(rt.alloc(), &HmacSha196Aes128), CHECKSUM));
}

// The numbers that RFC 3962, section 7, gives the suites.
#[test]
fn numbers(rt: HostRuntime) {
    let suite = CipherSuite::Aes256CtsHmacSha196;
    assert!(rt; CipherSuite::try_from(18).ok() == Some(suite));
    assert!(rt; usize::from(suite) == 18 && u8::from(&suite) == 18 && u32::from(&suite) == 18);
    let sum = ChecksumSuite::HmacSha196Aes128;
    assert!(rt; ChecksumSuite::try_from(15).ok() == Some(sum));
    assert!(rt; usize::from(sum) == 15 && u8::from(&sum) == 15 && u32::from(sum) == 15);
}
