//! Hash functions (FIPS 180-4).
ghost use Rattle.std.specs.Prelude.{◌≡◌};
ghost use Rattle.sha1.specs.Sha1.{sha1};
ghost use Rattle.sha2.specs.Sha256.{sha256};
ghost use Rattle.sha2.specs.Sha512.{sha384, sha512};

use sha2::Digest;

/// A hash function of signatures (RFC 8017, section 9.2, note 1).
#[derive(Clone, Copy, Debug, Drop, PartialEq, Eq)]
pub enum HashFunction {
    Sha256,
    Sha384,
    Sha512,
    Sha1,
}

pub(crate) fn sha1_of(message: &[u8]) -> [u8; 20]
    ensures { result ≡ sha1 message.now }
{
    sha1::Sha1::digest(message)
}

pub(crate) fn sha256_of(message: &[u8]) -> [u8; 32]
    ensures { result ≡ sha256 message.now }
{
    let mut hasher = sha2::Sha256::new();
    hasher.update(message);
    hasher.finalize()
}

pub(crate) fn sha384_of(message: &[u8]) -> [u8; 48]
    ensures { result ≡ sha384 message.now }
{
    let mut hasher = sha2::Sha384::new();
    hasher.update(message);
    hasher.finalize()
}

pub(crate) fn sha512_of(message: &[u8]) -> [u8; 64]
    ensures { result ≡ sha512 message.now }
{
    let mut hasher = sha2::Sha512::new();
    hasher.update(message);
    hasher.finalize()
}
