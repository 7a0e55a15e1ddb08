//! No key functions.
use crate::SubjectPublicKeyInfo;
use crate::functions::{KeyFunctions, Signed, Theirs};
use picky_asn1_der::Asn1RawDer;
use std::alloc::{AllocError, Global};
use x509_algorithms::AlgorithmIdentifier;

/// The key functions of a party without a key: no signature verifies, and every other function answers `None`.
#[derive(Clone, Copy, Debug, Drop)]
pub struct NoKeys;

impl KeyFunctions for NoKeys {
    ghost use Rattle.x509_keys.specs.KeyFunctions.{no_functions};

    ghost functions = { λ _. no_functions };

    fn verifies(
        &self,
        _key: &SubjectPublicKeyInfo,
        _algorithm: &AlgorithmIdentifier,
        _signed: &[u8],
        _signature: &[u8],
    ) -> bool {
        false
    }

    fn verifies_sha1(
        &self,
        _key: &SubjectPublicKeyInfo,
        _signed: &[u8],
        _signature: &[u8],
    ) -> bool {
        false
    }

    fn sign(&self, _alloc: Global, _signed: &[u8]) -> Result<Option<Signed>, AllocError> {
        Ok(None)
    }

    fn public_value(
        &self,
        _alloc: Global,
        _words: &[u8],
    ) -> Result<Option<Asn1RawDer>, AllocError> {
        Ok(None)
    }

    fn agree(
        &self,
        _alloc: Global,
        _theirs: Theirs<'_>,
        _words: &[u8],
    ) -> Result<Option<Vec<u8>>, AllocError> {
        Ok(None)
    }
}
