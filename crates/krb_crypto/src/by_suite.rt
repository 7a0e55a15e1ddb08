//! The suites as a `Cipher` and a `Checksum`.

ghost use Rattle.std.specs.Prelude.{◌≡◌, length};
ghost use Rattle.krb_crypto.specs.Sealing.{IsEncryptedBy, IsOpeningRefusal, IsRefusedPassword, IsSealedBy, checksum_of, cipher_padded, encryption_checksum_of, integrity_key_of, password_key_of, seed_key_of};
ghost use Rattle.krb_crypto.specs.Suites.{checksum_key_size, cipher_checksum, cipher_confounder_size, cipher_key_size, cipher_seed_bits, cipher_tag_size};

use crate::cipher::{Checksum, Cipher};
use crate::family::Family;
use crate::suite::{ChecksumSuite, CipherSuite};
use block_ciphers::{AES_BLOCK_SIZE, DES3_BLOCK_SIZE, DES3_SEED_LEN, KerberosCryptoResult};
use encryption_profiles::aes::checksum_sha_aes;
use encryption_profiles::aes_sha2::checksum_sha2;
use encryption_profiles::des3::checksum_sha_des3;
use encryption_profiles::{DecryptWithoutChecksum, EncryptWithoutChecksum};
use std::alloc::Global;

impl CipherSuite {
    /// The cipher of this suite.
    pub fn cipher(&self) -> &CipherSuite
        ensures { result.now ≡ self.now }
    {
        self
    }
}

impl ChecksumSuite {
    /// The keyed checksum of this suite.
    pub fn hasher(&self) -> &ChecksumSuite
        ensures { result.now ≡ self.now }
    {
        self
    }
}

// A confounder as one block of `N` bytes.
fn block_of<const N: usize>(confounder: &[u8]) -> [u8; N]
    requires { length confounder.now ≡ N }
    ensures { result ≡ confounder.now }
{
    let mut block = [0; N];
    block.copy_from_slice(confounder);
    block
}

impl Cipher for CipherSuite {
    ghost suite = { λ suite. suite };

    ghost checksum_suite = { cipher_checksum };

    ghost key_bytes = { cipher_key_size };

    ghost seed_bits = { cipher_seed_bits };

    ghost confounder_bytes = { cipher_confounder_size };

    ghost tag_bytes = { cipher_tag_size };

    ghost seals = { IsSealedBy };

    ghost padded = { cipher_padded };

    ghost refuses = { IsOpeningRefusal };

    ghost encrypts = { IsEncryptedBy };

    ghost integrity_key = { integrity_key_of };

    ghost tag = { encryption_checksum_of };

    ghost password_key = { password_key_of };

    ghost refuses_password = { IsRefusedPassword };

    ghost seed_key = { seed_key_of };

    fn key_size(&self) -> usize {
        CipherSuite::key_size(*self)
    }

    fn seed_bit_len(&self) -> usize {
        match self.family() {
            Family::Aes(size) => size.seed_bit_len(),
            Family::TripleDes => 8 * DES3_SEED_LEN,
            Family::AesSha2(size) => size.seed_bit_len(),
        }
    }

    fn confounder_size(&self) -> usize {
        match self.family() {
            Family::Aes(_) => AES_BLOCK_SIZE,
            Family::TripleDes => DES3_BLOCK_SIZE,
            Family::AesSha2(_) => AES_BLOCK_SIZE,
        }
    }

    fn cipher_type(&self) -> CipherSuite {
        *self
    }

    fn checksum_type(&self) -> ChecksumSuite {
        match self {
            CipherSuite::Aes128CtsHmacSha196 => ChecksumSuite::HmacSha196Aes128,
            CipherSuite::Aes256CtsHmacSha196 => ChecksumSuite::HmacSha196Aes256,
            CipherSuite::Des3CbcSha1Kd => ChecksumSuite::HmacSha1Des3Kd,
            CipherSuite::Aes128CtsHmacSha256128 => ChecksumSuite::HmacSha256128Aes128,
            CipherSuite::Aes256CtsHmacSha384192 => ChecksumSuite::HmacSha384192Aes256,
        }
    }

    fn encrypt(
        &self,
        alloc: Global,
        key: &[u8],
        key_usage: i32,
        payload: &[u8],
        confounder: &[u8],
    ) -> KerberosCryptoResult<Vec<u8>> {
        match self.family() {
            Family::Aes(size) => encryption_profiles::aes::encrypt_message(
                alloc,
                key,
                key_usage,
                payload,
                &size,
                block_of(confounder),
            ),
            Family::TripleDes => {
                encryption_profiles::des3::encrypt_message(
                    alloc,
                    key,
                    key_usage,
                    payload,
                    block_of(confounder),
                )
            }
            Family::AesSha2(size) => encryption_profiles::aes_sha2::encrypt_message(
                alloc,
                key,
                key_usage,
                payload,
                &size,
                block_of(confounder),
            ),
        }
    }

    fn decrypt(
        &self,
        alloc: Global,
        key: &[u8],
        key_usage: i32,
        cipher_data: &[u8],
    ) -> KerberosCryptoResult<Vec<u8>> {
        match self.family() {
            Family::Aes(size) => {
                encryption_profiles::aes::decrypt_message(alloc, key, key_usage, cipher_data, &size)
            }
            Family::TripleDes => encryption_profiles::des3::decrypt_message(
                alloc,
                key,
                key_usage,
                cipher_data,
            ),
            Family::AesSha2(size) => {
                encryption_profiles::aes_sha2::decrypt_message(
                    alloc,
                    key,
                    key_usage,
                    cipher_data,
                    &size,
                )
            }
        }
    }

    fn encrypt_no_checksum(
        &self,
        alloc: Global,
        key: &[u8],
        key_usage: i32,
        payload: &[u8],
        confounder: &[u8],
    ) -> KerberosCryptoResult<EncryptWithoutChecksum> {
        match self.family() {
            Family::Aes(size) => encryption_profiles::aes::encrypt_message_no_checksum(
                alloc,
                key,
                key_usage,
                payload,
                &size,
                block_of(confounder),
            ),
            Family::TripleDes => encryption_profiles::des3::encrypt_message_no_checksum(
                alloc,
                key,
                key_usage,
                payload,
                block_of(confounder),
            ),
            Family::AesSha2(size) => encryption_profiles::aes_sha2::encrypt_message_no_checksum(
                alloc,
                key,
                key_usage,
                payload,
                &size,
                block_of(confounder),
            ),
        }
    }

    fn decrypt_no_checksum(
        &self,
        alloc: Global,
        key: &[u8],
        key_usage: i32,
        cipher_data: &[u8],
    ) -> KerberosCryptoResult<DecryptWithoutChecksum> {
        match self.family() {
            Family::Aes(size) => {
                encryption_profiles::aes::decrypt_message_no_checksum(
                    alloc,
                    key,
                    key_usage,
                    cipher_data,
                    &size,
                )
            }
            Family::TripleDes => {
                encryption_profiles::des3::decrypt_message_no_checksum(
                    alloc,
                    key,
                    key_usage,
                    cipher_data,
                )
            }
            Family::AesSha2(size) => {
                encryption_profiles::aes_sha2::decrypt_message_no_checksum(
                    alloc,
                    key,
                    key_usage,
                    cipher_data,
                    &size,
                )
            }
        }
    }

    fn encryption_checksum(
        &self,
        alloc: Global,
        key: &[u8],
        key_usage: i32,
        payload: &[u8],
    ) -> KerberosCryptoResult<Vec<u8>> {
        match self.family() {
            Family::Aes(size) => {
                encryption_profiles::aes::encryption_checksum(alloc, key, key_usage, payload, &size)
            }
            Family::TripleDes => encryption_profiles::des3::encryption_checksum(
                alloc, key, key_usage, payload,
            ),
            Family::AesSha2(size) => {
                encryption_profiles::aes_sha2::encryption_checksum(
                    alloc, key, key_usage, payload, &size,
                )
            }
        }
    }

    fn generate_key_from_password(
        &self,
        alloc: Global,
        password: &[u8],
        salt: &[u8],
    ) -> KerberosCryptoResult<Vec<u8>> {
        match self.family() {
            Family::Aes(size) => encryption_profiles::aes::derive_key_from_password(
                alloc, password, salt, &size,
            ),
            Family::TripleDes => encryption_profiles::des3::derive_key_from_password(
                alloc, password, salt,
            ),
            Family::AesSha2(size) => {
                encryption_profiles::aes_sha2::derive_key_from_password(
                    alloc, password, salt, &size,
                )
            }
        }
    }

    fn random_to_key(&self, alloc: Global, seed: &[u8]) -> KerberosCryptoResult<Vec<u8>> {
        let key = match self.family() {
            Family::Aes(_) => encryption_profiles::aes::random_to_key(alloc, seed)?,
            Family::TripleDes => encryption_profiles::des3::random_to_key(alloc, seed)?,
            Family::AesSha2(_) => encryption_profiles::aes_sha2::random_to_key(alloc, seed)?,
        };
        Ok(key)
    }
}

impl Checksum for ChecksumSuite {
    ghost checksum_suite = { λ suite. suite };

    ghost key_bytes = { checksum_key_size };

    ghost sum = { checksum_of };

    fn checksum_type(&self) -> ChecksumSuite {
        *self
    }

    fn checksum(
        &self,
        alloc: Global,
        key: &[u8],
        key_usage: i32,
        payload: &[u8],
    ) -> KerberosCryptoResult<Vec<u8>> {
        match self.family() {
            Family::Aes(size) => checksum_sha_aes(alloc, key, key_usage, payload, &size),
            Family::TripleDes => checksum_sha_des3(alloc, key, key_usage, payload),
            Family::AesSha2(size) => checksum_sha2(alloc, key, key_usage, payload, &size),
        }
    }
}
