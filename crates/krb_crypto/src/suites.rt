//! The suites as types of their own (RFC 3962, section 7; RFC 3961, section 6.3; RFC 8009, section 5).

ghost use Rattle.std.specs.Prelude.{◌≡◌};
ghost use Rattle.krb_crypto.specs.Sealing.{IsEncryptedBy, IsOpeningRefusal, IsRefusedPassword, IsSealedBy, checksum_of, cipher_padded, encryption_checksum_of, integrity_key_of, password_key_of, seed_key_of};
ghost use Rattle.krb_crypto.specs.Suites.{checksum_key_size, cipher_checksum, cipher_confounder_size, cipher_key_size, cipher_seed_bits, cipher_tag_size};
ghost use Rattle.krb_crypto.specs.declared.suite.ChecksumSuite.{ChecksumSuite};
ghost use Rattle.krb_crypto.specs.declared.suite.CipherSuite.{CipherSuite};

use crate::cipher::{Checksum, Cipher};
use crate::suite::{ChecksumSuite, CipherSuite};
use block_ciphers::KerberosCryptoResult;
use encryption_profiles::{DecryptWithoutChecksum, EncryptWithoutChecksum};
use std::alloc::Global;

/// A type that represents one cipher suite.
pub trait CipherType {
    ghost stands_for: { Self → CipherSuite };

    /// The suite.
    fn suite(&self) -> CipherSuite
        ensures { result ≡ stands_for self.now };
}

/// A type that represents one checksum.
pub trait ChecksumType {
    ghost stands_for: { Self → ChecksumSuite };

    /// The checksum.
    fn suite(&self) -> ChecksumSuite
        ensures { result ≡ stands_for self.now };
}

/// AES with 128-bit keys, with HMAC-SHA1 cut to 96 bits.
#[derive(Clone, Copy, Debug, Default, PartialEq, Eq)]
pub struct Aes128CtsHmacSha196;

impl Aes128CtsHmacSha196 {
    /// The suite.
    pub fn new() -> Aes128CtsHmacSha196 {
        Aes128CtsHmacSha196
    }
}

impl CipherType for Aes128CtsHmacSha196 {
    ghost stands_for = { λ _. CipherSuite.Aes128CtsHmacSha196 };

    fn suite(&self) -> CipherSuite {
        CipherSuite::Aes128CtsHmacSha196
    }
}

/// AES with 256-bit keys, with HMAC-SHA1 cut to 96 bits.
#[derive(Clone, Copy, Debug, Default, PartialEq, Eq)]
pub struct Aes256CtsHmacSha196;

impl Aes256CtsHmacSha196 {
    /// The suite.
    pub fn new() -> Aes256CtsHmacSha196 {
        Aes256CtsHmacSha196
    }
}

impl CipherType for Aes256CtsHmacSha196 {
    ghost stands_for = { λ _. CipherSuite.Aes256CtsHmacSha196 };

    fn suite(&self) -> CipherSuite {
        CipherSuite::Aes256CtsHmacSha196
    }
}

/// Triple DES in CBC mode, with HMAC-SHA1.
#[derive(Clone, Copy, Debug, Default, PartialEq, Eq)]
pub struct Des3CbcSha1Kd;

impl Des3CbcSha1Kd {
    /// The suite.
    pub fn new() -> Des3CbcSha1Kd {
        Des3CbcSha1Kd
    }
}

impl CipherType for Des3CbcSha1Kd {
    ghost stands_for = { λ _. CipherSuite.Des3CbcSha1Kd };

    fn suite(&self) -> CipherSuite {
        CipherSuite::Des3CbcSha1Kd
    }
}

/// AES with 128-bit keys, with HMAC-SHA-256 cut to 128 bits.
#[derive(Clone, Copy, Debug, Default, PartialEq, Eq)]
pub struct Aes128CtsHmacSha256128;

impl Aes128CtsHmacSha256128 {
    /// The suite.
    pub fn new() -> Aes128CtsHmacSha256128 {
        Aes128CtsHmacSha256128
    }
}

impl CipherType for Aes128CtsHmacSha256128 {
    ghost stands_for = { λ _. CipherSuite.Aes128CtsHmacSha256128 };

    fn suite(&self) -> CipherSuite {
        CipherSuite::Aes128CtsHmacSha256128
    }
}

/// AES with 256-bit keys, with HMAC-SHA-384 cut to 192 bits.
#[derive(Clone, Copy, Debug, Default, PartialEq, Eq)]
pub struct Aes256CtsHmacSha384192;

impl Aes256CtsHmacSha384192 {
    /// The suite.
    pub fn new() -> Aes256CtsHmacSha384192 {
        Aes256CtsHmacSha384192
    }
}

impl CipherType for Aes256CtsHmacSha384192 {
    ghost stands_for = { λ _. CipherSuite.Aes256CtsHmacSha384192 };

    fn suite(&self) -> CipherSuite {
        CipherSuite::Aes256CtsHmacSha384192
    }
}

/// HMAC-SHA1 cut to 96 bits, with keys of AES-128.
#[derive(Clone, Copy, Debug, Default, PartialEq, Eq)]
pub struct HmacSha196Aes128;

impl ChecksumType for HmacSha196Aes128 {
    ghost stands_for = { λ _. ChecksumSuite.HmacSha196Aes128 };

    fn suite(&self) -> ChecksumSuite {
        ChecksumSuite::HmacSha196Aes128
    }
}

/// HMAC-SHA1 cut to 96 bits, with keys of AES-256.
#[derive(Clone, Copy, Debug, Default, PartialEq, Eq)]
pub struct HmacSha196Aes256;

impl ChecksumType for HmacSha196Aes256 {
    ghost stands_for = { λ _. ChecksumSuite.HmacSha196Aes256 };

    fn suite(&self) -> ChecksumSuite {
        ChecksumSuite::HmacSha196Aes256
    }
}

/// HMAC-SHA1, with keys of triple DES.
#[derive(Clone, Copy, Debug, Default, PartialEq, Eq)]
pub struct HmacSha1Des3Kd;

impl ChecksumType for HmacSha1Des3Kd {
    ghost stands_for = { λ _. ChecksumSuite.HmacSha1Des3Kd };

    fn suite(&self) -> ChecksumSuite {
        ChecksumSuite::HmacSha1Des3Kd
    }
}

/// HMAC-SHA-256 cut to 128 bits, with keys of AES-128.
#[derive(Clone, Copy, Debug, Default, PartialEq, Eq)]
pub struct HmacSha256128Aes128;

impl ChecksumType for HmacSha256128Aes128 {
    ghost stands_for = { λ _. ChecksumSuite.HmacSha256128Aes128 };

    fn suite(&self) -> ChecksumSuite {
        ChecksumSuite::HmacSha256128Aes128
    }
}

/// HMAC-SHA-384 cut to 192 bits, with keys of AES-256.
#[derive(Clone, Copy, Debug, Default, PartialEq, Eq)]
pub struct HmacSha384192Aes256;

impl ChecksumType for HmacSha384192Aes256 {
    ghost stands_for = { λ _. ChecksumSuite.HmacSha384192Aes256 };

    fn suite(&self) -> ChecksumSuite {
        ChecksumSuite::HmacSha384192Aes256
    }
}

impl<T: CipherType> Cipher for T {
    ghost suite = { T.stands_for };

    ghost checksum_suite = { λ t. cipher_checksum (T.stands_for t) };

    ghost key_bytes = { λ t. cipher_key_size (T.stands_for t) };

    ghost seed_bits = { λ t. cipher_seed_bits (T.stands_for t) };

    ghost confounder_bytes = { λ t. cipher_confounder_size (T.stands_for t) };

    ghost tag_bytes = { λ t. cipher_tag_size (T.stands_for t) };

    ghost seals = { λ t. IsSealedBy (T.stands_for t) };

    ghost padded = { λ t. cipher_padded (T.stands_for t) };

    ghost refuses = { λ t. IsOpeningRefusal (T.stands_for t) };

    ghost encrypts = { λ t. IsEncryptedBy (T.stands_for t) };

    ghost integrity_key = { λ t. integrity_key_of (T.stands_for t) };

    ghost tag = { λ t. encryption_checksum_of (T.stands_for t) };

    ghost password_key = { λ t. password_key_of (T.stands_for t) };

    ghost refuses_password = { λ t. IsRefusedPassword (T.stands_for t) };

    ghost seed_key = { λ t. seed_key_of (T.stands_for t) };

    fn key_size(&self) -> usize {
        self.suite().key_size()
    }

    fn seed_bit_len(&self) -> usize {
        self.suite().seed_bit_len()
    }

    fn confounder_size(&self) -> usize {
        self.suite().confounder_size()
    }

    fn cipher_type(&self) -> CipherSuite {
        self.suite()
    }

    fn checksum_type(&self) -> ChecksumSuite {
        self.suite().checksum_type()
    }

    fn encrypt(
        &self,
        alloc: Global,
        key: &[u8],
        key_usage: i32,
        payload: &[u8],
        confounder: &[u8],
    ) -> KerberosCryptoResult<Vec<u8>> {
        self.suite()
            .encrypt(alloc, key, key_usage, payload, confounder)
    }

    fn decrypt(
        &self,
        alloc: Global,
        key: &[u8],
        key_usage: i32,
        cipher_data: &[u8],
    ) -> KerberosCryptoResult<Vec<u8>> {
        self.suite().decrypt(alloc, key, key_usage, cipher_data)
    }

    fn encrypt_no_checksum(
        &self,
        alloc: Global,
        key: &[u8],
        key_usage: i32,
        payload: &[u8],
        confounder: &[u8],
    ) -> KerberosCryptoResult<EncryptWithoutChecksum> {
        self.suite()
            .encrypt_no_checksum(alloc, key, key_usage, payload, confounder)
    }

    fn decrypt_no_checksum(
        &self,
        alloc: Global,
        key: &[u8],
        key_usage: i32,
        cipher_data: &[u8],
    ) -> KerberosCryptoResult<DecryptWithoutChecksum> {
        self.suite()
            .decrypt_no_checksum(alloc, key, key_usage, cipher_data)
    }

    fn encryption_checksum(
        &self,
        alloc: Global,
        key: &[u8],
        key_usage: i32,
        payload: &[u8],
    ) -> KerberosCryptoResult<Vec<u8>> {
        self.suite()
            .encryption_checksum(alloc, key, key_usage, payload)
    }

    fn generate_key_from_password(
        &self,
        alloc: Global,
        password: &[u8],
        salt: &[u8],
    ) -> KerberosCryptoResult<Vec<u8>> {
        self.suite()
            .generate_key_from_password(alloc, password, salt)
    }

    fn random_to_key(&self, alloc: Global, seed: &[u8]) -> KerberosCryptoResult<Vec<u8>> {
        self.suite().random_to_key(alloc, seed)
    }
}

impl<T: ChecksumType> Checksum for T {
    ghost checksum_suite = { T.stands_for };

    ghost key_bytes = { λ t. checksum_key_size (T.stands_for t) };

    ghost sum = { λ t. checksum_of (T.stands_for t) };

    fn checksum_type(&self) -> ChecksumSuite {
        self.suite()
    }

    fn checksum(
        &self,
        alloc: Global,
        key: &[u8],
        key_usage: i32,
        payload: &[u8],
    ) -> KerberosCryptoResult<Vec<u8>> {
        self.suite().checksum(alloc, key, key_usage, payload)
    }
}
