//! The suites, and the sizes of AES keys.
ghost use Rattle.std.specs.Prelude.{refl};
ghost use Rattle.equality_and_copies.specs.Equalities.{bare};
ghost use Rattle.block_ciphers.specs.contracts.aes.AesSize.{the_type as aes_size_type};
ghost use Rattle.krb_crypto.specs.contracts.suite.CipherSuite.{the_type as cipher_suite_type};
ghost use Rattle.krb_crypto.specs.contracts.suite.ChecksumSuite.{the_type as checksum_suite_type};

use crate::equality::Equality;
use block_ciphers::AesSize;
use krb_crypto::aes::{
    Aes128CtsHmacSha196, Aes256CtsHmacSha196, HmacSha196Aes128, HmacSha196Aes256,
};
use krb_crypto::aes_sha2::{
    Aes128CtsHmacSha256128, Aes256CtsHmacSha384192, HmacSha256128Aes128, HmacSha384192Aes256,
};
use krb_crypto::des::{Des3CbcSha1Kd, HmacSha1Des3Kd};
use krb_crypto::{ChecksumSuite, CipherSuite};

impl Equality for AesSize {
    ghost is_equality = { bare aes_size_type tt };
}

impl Equality for CipherSuite {
    ghost is_equality = { bare cipher_suite_type tt };
}

impl Equality for ChecksumSuite {
    ghost is_equality = { bare checksum_suite_type tt };
}

impl Equality for Aes128CtsHmacSha196 {
    ghost is_equality = { λ _ _. (λ _. refl, λ _. refl) };
}

impl Equality for Aes256CtsHmacSha196 {
    ghost is_equality = { λ _ _. (λ _. refl, λ _. refl) };
}

impl Equality for Des3CbcSha1Kd {
    ghost is_equality = { λ _ _. (λ _. refl, λ _. refl) };
}

impl Equality for Aes128CtsHmacSha256128 {
    ghost is_equality = { λ _ _. (λ _. refl, λ _. refl) };
}

impl Equality for Aes256CtsHmacSha384192 {
    ghost is_equality = { λ _ _. (λ _. refl, λ _. refl) };
}

impl Equality for HmacSha196Aes128 {
    ghost is_equality = { λ _ _. (λ _. refl, λ _. refl) };
}

impl Equality for HmacSha196Aes256 {
    ghost is_equality = { λ _ _. (λ _. refl, λ _. refl) };
}

impl Equality for HmacSha1Des3Kd {
    ghost is_equality = { λ _ _. (λ _. refl, λ _. refl) };
}

impl Equality for HmacSha256128Aes128 {
    ghost is_equality = { λ _ _. (λ _. refl, λ _. refl) };
}

impl Equality for HmacSha384192Aes256 {
    ghost is_equality = { λ _ _. (λ _. refl, λ _. refl) };
}
