//! Keys of RSA, of the primes 61 and 53. The private one's bytes are what `openssl asn1parse -genconf` writes.
use crate::written::is_written;
use picky_asn1::wrapper::IntegerAsn1;
use std::alloc::Global;
use x509_keys::{PrivateKeyInfo, SubjectPublicKeyInfo};

const PUBLIC: &[u8] =
    b"\x30\x1A\x30\x0D\x06\x09\x2A\x86\x48\x86\xF7\x0D\x01\x01\x01\x05\0\x03\x09\0\x30\x06\x02\x01\x05\x02\x01\x03";

const PRIVATE: &[u8] =
    b"\x30\x33\x02\x01\0\x30\x0D\x06\x09\x2A\x86\x48\x86\xF7\x0D\x01\x01\x01\x05\0\x04\x1F\x30\x1D\x02\x01\0\x02\x02\x0C\xA1\x02\x01\x11\x02\x02\x01\x9D\x02\x01\x3D\x02\x01\x35\x02\x01\x35\x02\x01\x31\x02\x01\x26";

fn number(alloc: Global, value: u64) -> Option<IntegerAsn1> {
    IntegerAsn1::from_u64(alloc, value).ok()
}

fn pair(alloc: Global, first: u64, second: u64) -> Option<(IntegerAsn1, IntegerAsn1)> {
    let first = number(alloc, first)?;
    let second = number(alloc, second)?;
    Some((first, second))
}

fn public_key(alloc: Global) -> Option<SubjectPublicKeyInfo> {
    let (modulus, public_exponent) = pair(alloc, 5, 3)?;
    SubjectPublicKeyInfo::new_rsa_key(alloc, modulus, public_exponent).ok()
}

#[test]
fn public(rt: HostRuntime) {
    assert!(rt; is_written(rt.alloc(), public_key(rt.alloc()), PUBLIC));
}

fn of_pairs(
    alloc: Global,
    public: (IntegerAsn1, IntegerAsn1),
    primes: (IntegerAsn1, IntegerAsn1),
    exponents: (IntegerAsn1, IntegerAsn1),
) -> Option<PrivateKeyInfo> {
    let (private_exponent, coefficient) = pair(alloc, 413, 38)?;
    let (modulus, public_exponent) = public;
    PrivateKeyInfo::new_rsa_encryption(
        alloc,
        modulus,
        public_exponent,
        private_exponent,
        primes,
        exponents,
        coefficient,
    )
    .ok()
}

fn private_key(alloc: Global) -> Option<PrivateKeyInfo> {
    let public = pair(alloc, 3233, 17)?;
    let primes = pair(alloc, 61, 53)?;
    let exponents = pair(alloc, 53, 49)?;
    of_pairs(alloc, public, primes, exponents)
}

#[test]
fn private(rt: HostRuntime) {
    assert!(rt; is_written(rt.alloc(), private_key(rt.alloc()), PRIVATE));
}
