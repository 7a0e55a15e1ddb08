//! The families of suites: the suites of one differ in the size of their keys alone.

ghost use Rattle.std.specs.Prelude.{◌≡◌};
ghost use Rattle.krb_crypto.specs.Suites.{checksum_cipher, cipher_family};

use crate::suite::{ChecksumSuite, CipherSuite};
use block_ciphers::AesSize;

/// The families, each with the size of the keys where it has two (RFC 3962; RFC 3961, section 6.3; RFC 8009).
#[derive(Clone, Copy)]
pub(crate) enum Family {
    /// AES with HMAC-SHA1.
    Aes(AesSize),

    /// Triple DES with HMAC-SHA1.
    TripleDes,

    /// AES with HMAC-SHA-2.
    AesSha2(AesSize),
}

impl CipherSuite {
    /// The family of this suite.
    pub(crate) fn family(self) -> Family
        ensures { result ≡ cipher_family self }
    {
        match self {
            CipherSuite::Aes128CtsHmacSha196 => Family::Aes(AesSize::Aes128),
            CipherSuite::Aes256CtsHmacSha196 => Family::Aes(AesSize::Aes256),
            CipherSuite::Des3CbcSha1Kd => Family::TripleDes,
            CipherSuite::Aes128CtsHmacSha256128 => Family::AesSha2(AesSize::Aes128),
            CipherSuite::Aes256CtsHmacSha384192 => Family::AesSha2(AesSize::Aes256),
        }
    }
}

impl ChecksumSuite {
    /// The family of the suite whose keys this checksum has.
    pub(crate) fn family(self) -> Family
        ensures { result ≡ cipher_family (checksum_cipher self) }
    {
        match self {
            ChecksumSuite::HmacSha196Aes128 => Family::Aes(AesSize::Aes128),
            ChecksumSuite::HmacSha196Aes256 => Family::Aes(AesSize::Aes256),
            ChecksumSuite::HmacSha1Des3Kd => Family::TripleDes,
            ChecksumSuite::HmacSha256128Aes128 => Family::AesSha2(AesSize::Aes128),
            ChecksumSuite::HmacSha384192Aes256 => Family::AesSha2(AesSize::Aes256),
        }
    }
}
