//! One message sealed, and keys and checksums, as other programs make them.

use krb_crypto::aes::{
    AesSize, checksum_sha_aes, decrypt_message, decrypt_message_no_checksum, derive_key,
    derive_key_from_password, encrypt_message, encrypt_message_no_checksum, random_to_key,
};
use krb_crypto::usage_kc;
use std::alloc::Global;

pub(crate) const KEY: &[u8; 16] =
    b"\xC7\xC4\x16\x66\x44\x5D\x3A\x66\x93\x13\x77\x39\x1E\x8A\x3F\xE6";

pub(crate) const CONFOUNDER: &[u8; 16] =
    b"\xA1\x34\x9D\x21\xEE\xE8\xB9\x5D\xA7\x82\x5B\xB4\xA7\xA5\xE0\x4E";

pub(crate) const TEXT: &[u8; 11] = b"aes256_cts_";

// The text under this key and confounder, with usage 5.
pub(crate) const SEALED: &[u8; 39] = b"\
    \xF9\x97\x42\xCE\xB3\xDB\x51\xC9\x72\xD6\xE1\xCE\xB1\xA0\x94\xE7\
    \x4E\xE9\xDE\x04\x86\x86\xEC\x01\x8C\x91\x35\
    \x04\xF8\xBB\x26\x0B\x50\x70\x75\xD1\x73\x66\x91";

// The checksum within: the last 12 bytes.
pub(crate) const WITHIN: &[u8; 12] = b"\x04\xF8\xBB\x26\x0B\x50\x70\x75\xD1\x73\x66\x91";

// The checksum of `body` under this key, with usage 6.
pub(crate) const CHECKSUM: &[u8; 12] = b"\x54\xDC\x38\xDA\xE3\xE8\x2F\xBB\x9C\x00\x3C\xD5";

const SIZE: AesSize = AesSize::Aes128;

// Whether these bytes were made.
pub(crate) fn is<E: Drop>(made: Result<Vec<u8>, E>, wanted: &[u8]) -> bool {
    match made {
        Ok(bytes) => bytes.as_slice() == wanted,
        Err(_) => false,
    }
}

// The key of `test1` in EXAMPLE.COM.
#[test]
fn password_key(rt: HostRuntime) {
    let key = derive_key_from_password(
        rt.alloc(),
        b"5hYYSAfFJp",
        b"EXAMPLE.COMtest1",
        &AesSize::Aes256,
    );
    let wanted = b"\
        \xDA\xDE\xD1\xCC\x15\xAE\x17\xDE\xAA\x63\xA4\x90\xF7\x67\x89\x44\
        \x75\x8F\x3B\x25\x5A\x54\x25\x69\xCB\x20\xEB\xA7\x61\xEE\xAB\xAC";
    assert!(rt; is(key, wanted));
}

// Made by another program over OpenSSL's AES.
#[test]
fn derived_key(rt: HostRuntime) {
    let wanted = b"\xF6\xFB\xBB\x95\x3A\xAE\x80\x9B\xB7\x5E\x77\x51\xB1\xEE\xD1\x4A";
    assert!(rt; is(derive_key(rt.alloc(), KEY, &usage_kc(2), &SIZE), wanted));
    assert!(rt; is(random_to_key(rt.alloc(), KEY), KEY));
}

#[test]
fn sealed(rt: HostRuntime) {
    let alloc = rt.alloc();
    assert!(rt;
        is(
            encrypt_message(alloc, KEY, 5, TEXT, &SIZE, *CONFOUNDER),
            SEALED
        )
    );
    assert!(rt; is_front_sealed(alloc));
}

fn is_front_sealed(alloc: Global) -> bool {
    match encrypt_message_no_checksum(alloc, KEY, 5, TEXT, &SIZE, *CONFOUNDER) {
        Ok(front) => front.encrypted.as_slice() == &SEALED[..27],
        Err(_) => false,
    }
}

#[test]
fn opened(rt: HostRuntime) {
    assert!(rt; is(decrypt_message(rt.alloc(), KEY, 5, SEALED, &SIZE), TEXT));
    assert!(rt; is_opened_in_parts(rt.alloc()));
}

fn is_opened_in_parts(alloc: Global) -> bool {
    match decrypt_message_no_checksum(alloc, KEY, 5, SEALED, &SIZE) {
        Ok(parts) => {
            parts.plaintext.as_slice() == TEXT.as_slice()
                && parts.checksum.as_slice() == WITHIN.as_slice()
                && parts.confounder.as_slice() == CONFOUNDER.as_slice()
        }
        Err(_) => false,
    }
}

// Made by another program over OpenSSL's AES.
#[test]
fn checksum(rt: HostRuntime) {
    assert!(rt;
        is(
            checksum_sha_aes(rt.alloc(), KEY, 6, b"body", &SIZE),
            CHECKSUM
        )
    );
}
