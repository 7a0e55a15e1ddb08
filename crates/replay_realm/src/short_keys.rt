//! Key functions that run out of memory.

use krb_realm::{KeyFunctions, Signed, Theirs};
use picky_asn1_der::Asn1RawDer;
use std::alloc::{AllocError, Global};
use test_support::{DigestKeys, Row};
use x509_algorithms::AlgorithmIdentifier;
use x509_keys::SubjectPublicKeyInfo;

/// A key function that takes memory.
#[derive(Clone, Copy)]
pub(crate) enum Taker {
    Sign,
    PublicValue,
    Agree,
}

/// The key function that the next word names, `-` for none.
pub(crate) fn taker_of(words: &mut Row<'_>) -> Option<Taker> {
    match words.text() {
        "sign" => Some(Taker::Sign),
        "public_value" => Some(Taker::PublicValue),
        "agree" => Some(Taker::Agree),
        "" => None,
        _ => {
            words.refuse("no key function that takes memory");
            None
        }
    }
}

/// Key functions by digests, of which one may run out of memory.
#[derive(Clone, Copy)]
pub(crate) struct ShortKeys<'a> {
    pub(crate) keys: DigestKeys<'a>,
    /// The function that runs out of memory.
    pub(crate) short: Option<Taker>,
}

impl<'a> KeyFunctions for ShortKeys<'a> {
    ghost use Rattle.test_support.specs.DigestKeys.{functions_of};

    ghost functions = { λ short. functions_of short.keys };

    fn verifies(
        &self,
        key: &SubjectPublicKeyInfo,
        algorithm: &AlgorithmIdentifier,
        signed: &[u8],
        signature: &[u8],
    ) -> bool {
        self.keys.verifies(key, algorithm, signed, signature)
    }

    fn verifies_sha1(&self, key: &SubjectPublicKeyInfo, signed: &[u8], signature: &[u8]) -> bool {
        self.keys.verifies_sha1(key, signed, signature)
    }

    fn sign(&self, alloc: Global, signed: &[u8]) -> Result<Option<Signed>, AllocError> {
        match self.short {
            Some(Taker::Sign) => Err(AllocError),
            _ => self.keys.sign(alloc, signed),
        }
    }

    fn public_value(&self, alloc: Global, words: &[u8]) -> Result<Option<Asn1RawDer>, AllocError> {
        match self.short {
            Some(Taker::PublicValue) => Err(AllocError),
            _ => self.keys.public_value(alloc, words),
        }
    }

    fn agree(
        &self,
        alloc: Global,
        theirs: Theirs<'_>,
        words: &[u8],
    ) -> Result<Option<Vec<u8>>, AllocError> {
        match self.short {
            Some(Taker::Agree) => Err(AllocError),
            _ => self.keys.agree(alloc, theirs, words),
        }
    }
}
