//! The suites, and the sizes of AES keys.
ghost use Rattle.equality_and_copies.specs.Copied.{equal};

use crate::copies::Copies;
use block_ciphers::AesSize;
use krb_crypto::aes::{
    Aes128CtsHmacSha196, Aes256CtsHmacSha196, HmacSha196Aes128, HmacSha196Aes256,
};
use krb_crypto::aes_sha2::{
    Aes128CtsHmacSha256128, Aes256CtsHmacSha384192, HmacSha256128Aes128, HmacSha384192Aes256,
};
use krb_crypto::des::{Des3CbcSha1Kd, HmacSha1Des3Kd};
use krb_crypto::{ChecksumSuite, CipherSuite};

impl Copies for AesSize {
    ghost is_copy = { equal };
}

impl Copies for CipherSuite {
    ghost is_copy = { equal };
}

impl Copies for ChecksumSuite {
    ghost is_copy = { equal };
}

impl Copies for Aes128CtsHmacSha196 {
    ghost is_copy = { equal };
}

impl Copies for Aes256CtsHmacSha196 {
    ghost is_copy = { equal };
}

impl Copies for Des3CbcSha1Kd {
    ghost is_copy = { equal };
}

impl Copies for Aes128CtsHmacSha256128 {
    ghost is_copy = { equal };
}

impl Copies for Aes256CtsHmacSha384192 {
    ghost is_copy = { equal };
}

impl Copies for HmacSha196Aes128 {
    ghost is_copy = { equal };
}

impl Copies for HmacSha196Aes256 {
    ghost is_copy = { equal };
}

impl Copies for HmacSha1Des3Kd {
    ghost is_copy = { equal };
}

impl Copies for HmacSha256128Aes128 {
    ghost is_copy = { equal };
}

impl Copies for HmacSha384192Aes256 {
    ghost is_copy = { equal };
}
