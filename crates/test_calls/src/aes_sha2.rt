//! The suites of AES with SHA-2, each by its type and as any suite. The values are those of RFC 8009, appendix A.

use crate::sealing::is;
use krb_crypto::aes_sha2::{
    Aes128CtsHmacSha256128, Aes256CtsHmacSha384192, HmacSha256128Aes128, HmacSha384192Aes256,
};
use krb_crypto::{
    Checksum, ChecksumSuite, Cipher, CipherSuite, KerberosCryptoError, KerberosCryptoResult,
};
use std::alloc::Global;

const AES128: CipherSuite = CipherSuite::Aes128CtsHmacSha256128;

const AES256: CipherSuite = CipherSuite::Aes256CtsHmacSha384192;

const KEY: &[u8; 16] = b"\x37\x05\xD9\x60\x80\xC1\x77\x28\xA0\xE8\x00\xEA\xB6\xE0\xD2\x3C";

const CONFOUNDER: &[u8; 16] = b"\x7B\xCA\x28\x5E\x2F\xD4\x13\x0F\xB5\x5B\x1A\x5C\x83\xBC\x5B\x24";

const TEXT: &[u8; 6] = b"\0\x01\x02\x03\x04\x05";

// 16 zero bytes, and what confounder and text are encrypted to, with usage 2.
const COVERED: &[u8; 38] = b"\
    \0\0\0\0\0\0\0\0\0\0\0\0\0\0\0\0\
    \x84\xD7\xF3\x07\x54\xED\x98\x7B\xAB\x0B\xF3\x50\x6B\xEB\x09\xCF\
    \xB5\x54\x02\xCE\xF7\xE6";

// The checksum of these.
const WITHIN: &[u8; 16] = b"\x87\x7C\xE9\x9E\x24\x7E\x52\xD1\x6E\xD4\x42\x1D\xFD\xF8\x97\x6C";

fn sealed_by(alloc: Global, cipher: &dyn Cipher) -> KerberosCryptoResult<Vec<u8>> {
    if cipher.confounder_size() != 16 {
        return Err(KerberosCryptoError::IntegrityCheck);
    }
    cipher.encrypt(alloc, KEY, 2, TEXT, CONFOUNDER)
}

fn is_text_and_checksum(sealed: KerberosCryptoResult<Vec<u8>>) -> bool {
    match sealed {
        Ok(bytes) => match bytes.strip_suffix(WITHIN) {
            Some(encrypted) => COVERED.ends_with(encrypted) && encrypted.len() == 22,
            None => false,
        },
        Err(_) => false,
    }
}

#[test]
fn sealed(rt: HostRuntime) {
    assert!(rt; is_text_and_checksum(sealed_by(rt.alloc(), AES128.cipher())));
    assert!(rt; is_text_and_checksum(sealed_by(rt.alloc(), &Aes128CtsHmacSha256128::new())));
}

// The caller hands in the initial vector and the encrypted text.
#[test]
fn checksum_within(rt: HostRuntime) {
    assert!(rt;
        is(
            AES128.encryption_checksum(rt.alloc(), KEY, 2, COVERED),
            WITHIN
        )
    );
}

fn sealed_length(alloc: Global, cipher: &dyn Cipher, key: &[u8]) -> usize {
    if cipher.confounder_size() != 16 {
        return 0;
    }
    match cipher.encrypt(alloc, key, 5, b"aes256_cts_", CONFOUNDER) {
        Ok(sealed) => sealed.len(),
        Err(_) => 0,
    }
}

// 11 bytes after a confounder of 16 bytes, with a checksum of 16 or 24 bytes.
#[test]
fn lengths(rt: HostRuntime) {
    assert!(rt; sealed_length(rt.alloc(), AES128.cipher(), KEY) == 43);
    assert!(rt; sealed_length(rt.alloc(), &Aes256CtsHmacSha384192::new(), &[7; 32]) == 51);
}

fn is_too_short(opened: KerberosCryptoResult<Vec<u8>>, least: usize) -> bool {
    match opened {
        Err(KerberosCryptoError::CipherLength(_, wanted)) => wanted == least,
        _ => false,
    }
}

// Too few bytes are refused before the key is looked at.
#[test]
fn too_short(rt: HostRuntime) {
    assert!(rt; is_too_short(AES128.decrypt(rt.alloc(), &[], 2, &[0; 31]), 32));
    assert!(rt; is_too_short(AES256.decrypt(rt.alloc(), &[], 2, &[0; 39]), 40));
}

fn summed_by(alloc: Global, hasher: &dyn Checksum) -> KerberosCryptoResult<Vec<u8>> {
    hasher.checksum(
        alloc,
        KEY,
        2,
        b"\0\x01\x02\x03\x04\x05\x06\x07\x08\x09\x0A\x0B\x0C\x0D\x0E\x0F\x10\x11\x12\x13\x14",
    )
}

#[test]
fn checksums(rt: HostRuntime) {
    let wanted = b"\xD7\x83\x67\x18\x66\x43\xD6\x7B\x41\x1C\xBA\x91\x39\xFC\x1D\xEE";
    assert!(rt;
        is(
            summed_by(rt.alloc(), AES128.checksum_type().hasher()),
            wanted
        )
    );
    assert!(rt; is(summed_by(rt.alloc(), &HmacSha256128Aes128), wanted));
    assert!(rt; HmacSha384192Aes256.checksum_type() == AES256.checksum_type());
}

// The numbers that RFC 8009, section 7, gives the suites and their checksums.
#[test]
fn numbers(rt: HostRuntime) {
    assert!(rt; CipherSuite::try_from(19).ok() == Some(AES128) && u8::from(AES128) == 19);
    assert!(rt;
        CipherSuite::try_from([20].as_slice()).ok() == Some(AES256) && u8::from(AES256) == 20
    );
    let sums = (
        ChecksumSuite::try_from(19).ok(),
        ChecksumSuite::try_from(20).ok(),
    );
    assert!(rt; sums == (Some(AES128.checksum_type()), Some(AES256.checksum_type())));
}
