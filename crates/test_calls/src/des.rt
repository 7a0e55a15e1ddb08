//! A message through the suite of triple DES, by its type, as any suite. The values are lines of `replay_crypto` too.

use crate::sealing::is;
use krb_crypto::des::{Des3CbcSha1Kd, HmacSha1Des3Kd};
use krb_crypto::{
    Checksum, ChecksumSuite, Cipher, CipherSuite, KerberosCryptoError, KerberosCryptoResult,
};
use std::alloc::Global;

const DES3: CipherSuite = CipherSuite::Des3CbcSha1Kd;

const KEY: &[u8; 24] = b"\
    \xD6\xF2\x46\x8F\x8C\xAB\x26\x0B\x62\x4C\x73\x29\x45\x10\xB6\x02\
    \x92\xE9\x97\xBA\xF8\xA2\xD0\xE3";

const CONFOUNDER: &[u8; 8] = b"\x4E\xF6\x16\xF8\x4C\xFC\x5F\x5F";

const TEXT: &[u8; 1] = b"\xEC";

// The text under this key and confounder, with usage 5.
const SEALED: &[u8; 36] = b"\
    \x26\x7C\x13\xC4\x6D\x83\x95\x42\x04\xD7\x43\x02\x1E\xD7\xD0\x27\
    \x51\xFE\x53\x05\x0A\x66\x22\x6E\xE8\xA7\xA5\xD5\x37\x81\xA3\x72\
    \x35\x2C\x27\x93";

fn sealed_by(alloc: Global, cipher: &dyn Cipher) -> KerberosCryptoResult<Vec<u8>> {
    if cipher.confounder_size() != 8 {
        return Err(KerberosCryptoError::IntegrityCheck);
    }
    cipher.encrypt(alloc, KEY, 5, TEXT, CONFOUNDER)
}

#[test]
fn sealed(rt: HostRuntime) {
    assert!(rt; is(sealed_by(rt.alloc(), DES3.cipher()), SEALED));
    assert!(rt; is(sealed_by(rt.alloc(), &Des3CbcSha1Kd::new()), SEALED));
}

// What is opened has its padding.
#[test]
fn opened(rt: HostRuntime) {
    let padded = b"\xEC\0\0\0\0\0\0\0";
    assert!(rt; is(Des3CbcSha1Kd.decrypt(rt.alloc(), KEY, 5, SEALED), padded));
    assert!(rt; DES3.is_padding(TEXT, &[0; 7]) && !DES3.is_padding(TEXT, &[0; 15]));
    assert!(rt; !DES3.is_padding(TEXT, &[0, 0, 0, 0, 0, 0, 1]) && !DES3.is_padding(TEXT, &[0; 6]));
}

fn summed_by(alloc: Global, hasher: &dyn Checksum) -> KerberosCryptoResult<Vec<u8>> {
    hasher.checksum(alloc, SUM_KEY, 10, b"\x0C")
}

const SUM_KEY: &[u8; 24] = b"\
    \x2F\x29\x25\x46\xB6\x9D\xB0\x40\xA2\xA8\xE0\x07\x29\xF8\xA2\xF4\
    \xEC\x1F\x5E\xEF\xAD\xF1\xA1\x23";

#[test]
fn checksums(rt: HostRuntime) {
    let wanted = b"\
        \xFB\x5B\xE4\x78\x6E\xF5\xF0\x4E\xB7\xBD\xC3\x7A\xC1\x4B\x19\x5B\
        \xCE\xF4\x5E\x7F";
    assert!(rt; is(summed_by(rt.alloc(), DES3.checksum_type().hasher()), wanted));
    assert!(rt; is(summed_by(rt.alloc(), &HmacSha1Des3Kd), wanted));
}

// The numbers that RFC 3961, section 8, gives the suite and its checksum.
#[test]
fn numbers(rt: HostRuntime) {
    assert!(rt; CipherSuite::try_from(16).ok() == Some(DES3) && u8::from(DES3) == 16);
    let sum = ChecksumSuite::HmacSha1Des3Kd;
    assert!(rt; ChecksumSuite::try_from(12).ok() == Some(sum) && u32::from(sum) == 12);
}
