//! Usages, sizes, and chains whose last blocks are exchanged.

use crate::sealing::is;
use block_ciphers::{AesSize, KerberosCryptoResult, encrypt_aes_cbc, swap_two_last_blocks};
use encryption_profiles::{usage_kc, usage_ke, usage_ki};
use std::alloc::Global;

// RFC 3961, section 5.3: the well-known constants AA, 99 and 55 behind the number.
#[test]
fn usages(rt: HostRuntime) {
    assert!(rt; usage_ke(2) == [0, 0, 0, 2, 0xAA]);
    assert!(rt; usage_kc(6) == [0, 0, 0, 6, 0x99]);
    assert!(rt; usage_ki(0x0102_0304) == [1, 2, 3, 4, 0x55]);
    assert!(rt; krb_crypto::usage_ke(2) == [0, 0, 0, 2, 0xAA]);
    assert!(rt; krb_crypto::usage_ki(-1) == [0xFF, 0xFF, 0xFF, 0xFF, 0x55]);
}

// RFC 3962, section 6.
#[test]
fn sizes(rt: HostRuntime) {
    for (size, bytes) in [(AesSize::Aes128, 16), (AesSize::Aes256, 32)] {
        assert!(rt; size.key_length() == bytes, "at {bytes}");
        assert!(rt; size.seed_bit_len() == 8 * bytes, "at {bytes}");
        assert!(rt; size.block_bit_len() == 128, "at {bytes}");
    }
}

const CHICKEN: &[u8] = b"chicken teriyaki";

const DINNER: &[u8] = b"I would like the General Gau's Chicken, please, and wonton soup.";

// What seals the dinner under the chicken (RFC 3962, appendix B).
const STOLEN: &[u8] = b"\
    \x97\x68\x72\x68\xd6\xec\xcc\xc0\xc0\x7b\x25\xe2\x5e\xcf\xe5\x84\
    \x39\x31\x25\x23\xa7\x86\x62\xd5\xbe\x7f\xcb\xcc\x98\xeb\xf5\xa8\
    \x48\x07\xef\xe8\x36\xee\x89\xa5\x26\x73\x0d\xbc\x2f\x7b\xc8\x40\
    \x9d\xad\x8b\xbb\x96\xc4\xcd\xc0\x3b\xc1\x03\xe1\xa1\x94\xbb\xd8";

fn exchanged(alloc: Global) -> KerberosCryptoResult<Vec<u8>> {
    let mut chain = encrypt_aes_cbc(alloc, CHICKEN, DINNER, &AesSize::Aes128)?;
    swap_two_last_blocks(&mut chain)?;
    Ok(chain)
}

// Ciphertext stealing over whole blocks gives the plain chain with its last two blocks exchanged (RFC 3962, section 5).
#[test]
fn exchanged_blocks(rt: HostRuntime) {
    assert!(rt; is(exchanged(rt.alloc()), STOLEN));
}
