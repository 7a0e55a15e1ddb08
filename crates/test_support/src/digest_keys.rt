//! Key functions that sign by digests.
ghost use Rattle.std.specs.Prelude.{◌≡◌, [], None, Some, IfOk};
ghost use Rattle.test_support.specs.DigestKeys.{digest_functions, digest_of, functions_of, is_by};

use picky_asn1::wrapper::OctetStringAsn1;
use picky_asn1_der::Asn1RawDer;
use sha2::{Digest, Sha256};
use std::alloc::{AllocError, Global};
use x509_algorithms::AlgorithmIdentifier;
use x509_keys::{KeyFunctions, SignatureAlgorithm, Signed, SubjectPublicKeyInfo, Theirs};

/// A public key with its DER encoding. To verify a signature takes no memory, so the encoding is made before.
#[derive(Drop)]
pub struct KnownKey<'a> {
    /// The key.
    pub key: &'a SubjectPublicKeyInfo,
    /// Its encoding.
    pub der: Vec<u8>,
}

/// A party with a key of its own, which knows some other keys. An agreement with it is the same for all random bytes and all peers.
#[derive(Clone, Copy)]
pub struct DigestKeys<'a> {
    /// The encoding of the own public key, by which it signs.
    pub own: &'a [u8],
    /// The algorithm that its signatures name. Without one it does not sign.
    pub algorithm: Option<&'a SignatureAlgorithm>,
    /// The keys whose signatures verify.
    pub known: &'a [KnownKey<'a>],
    /// The public value of each agreement. Without one there is none.
    pub public_value: Option<&'a Asn1RawDer>,
    /// The secret of each agreement. Without one every peer's value is refused.
    pub secret: Option<&'a [u8]>,
}

/// A party that knows these keys. It does not sign, and agrees on no keys.
pub fn verifier<'a>(known: &'a [KnownKey<'a>]) -> DigestKeys<'a>
    ensures { functions_of result ≡ digest_functions [] None known.now None None }
{
    DigestKeys {
        own: &[],
        algorithm: None,
        known,
        public_value: None,
        secret: None,
    }
}

/// A party that signs by the key of this encoding and names this algorithm. It knows no key, and agrees on none.
pub fn signer<'a>(own: &'a [u8], algorithm: &'a SignatureAlgorithm) -> DigestKeys<'a>
    ensures { functions_of result ≡ digest_functions own.now (Some algorithm.now) [] None None }
{
    DigestKeys {
        own,
        algorithm: Some(algorithm),
        known: &[],
        public_value: None,
        secret: None,
    }
}

// The signature by the key that has this encoding.
fn digest_of(der: &[u8], signed: &[u8]) -> [u8; 32]
    ensures { result ≡ digest_of der.now signed.now }
{
    let mut hasher = Sha256::new();
    hasher.update(der);
    hasher.update(signed);
    hasher.finalize()
}

// Whether the key is this one, and the signature is by it.
fn is_by(key: &SubjectPublicKeyInfo, signed: &[u8], signature: &[u8], known: &KnownKey<'_>) -> bool
    ensures { result ≡ is_by key.now signed.now signature.now known.now }
{
    *known.key == *key && digest_of(known.der.as_slice(), signed).as_slice() == signature
}

impl<'a> KeyFunctions for DigestKeys<'a> {
    ghost use Rattle.test_support.specs.DigestKeys.{functions_of};

    ghost functions = { functions_of };

    fn verifies(
        &self,
        key: &SubjectPublicKeyInfo,
        _algorithm: &AlgorithmIdentifier,
        signed: &[u8],
        signature: &[u8],
    ) -> bool {
        self.known
            .iter()
            .any(|known| is_by(key, signed, signature, known))
    }

    fn verifies_sha1(
        &self,
        _key: &SubjectPublicKeyInfo,
        _signed: &[u8],
        _signature: &[u8],
    ) -> bool {
        false
    }

    fn sign(&self, alloc: Global, signed: &[u8]) -> Result<Option<Signed>, AllocError> {
        let Some(algorithm) = self.algorithm else {
            return Ok(None);
        };
        let signature = Vec::from_slice(alloc, digest_of(self.own, signed).as_slice())?;
        let algorithm = algorithm.identifier().clone()?;
        Ok(Some(Signed {
            algorithm,
            signature: OctetStringAsn1::from(signature),
        }))
    }

    fn public_value(
        &self,
        _alloc: Global,
        _words: &[u8],
    ) -> Result<Option<Asn1RawDer>, AllocError> {
        let Some(value) = self.public_value else {
            return Ok(None);
        };
        let value = value.clone()?;
        Ok(Some(value))
    }

    fn agree(
        &self,
        alloc: Global,
        _theirs: Theirs<'_>,
        _words: &[u8],
    ) -> Result<Option<Vec<u8>>, AllocError> {
        let Some(secret) = self.secret else {
            return Ok(None);
        };
        let secret = Vec::from_slice(alloc, secret)?;
        Ok(Some(secret))
    }
}

/// A party to which every signature is valid, and which always signs by the given signature. It agrees on no keys.
#[derive(Clone, Copy)]
pub struct GivenSignature<'a> {
    /// The algorithm that its signatures name. Without one it does not sign.
    pub algorithm: Option<&'a SignatureAlgorithm>,
    /// The signature.
    pub signature: &'a [u8],
}

impl<'a> KeyFunctions for GivenSignature<'a> {
    ghost use Rattle.std.specs.Option.{option_copied};
    ghost use Rattle.test_support.specs.DigestKeys.{given_functions};

    ghost functions = { λ keys. given_functions (option_copied keys.algorithm) keys.signature.now };

    fn verifies(
        &self,
        _key: &SubjectPublicKeyInfo,
        _algorithm: &AlgorithmIdentifier,
        _signed: &[u8],
        _signature: &[u8],
    ) -> bool {
        true
    }

    fn verifies_sha1(
        &self,
        _key: &SubjectPublicKeyInfo,
        _signed: &[u8],
        _signature: &[u8],
    ) -> bool {
        true
    }

    fn sign(&self, alloc: Global, _signed: &[u8]) -> Result<Option<Signed>, AllocError> {
        let Some(algorithm) = self.algorithm else {
            return Ok(None);
        };
        let signature = OctetStringAsn1::new(alloc, self.signature)?;
        let algorithm = algorithm.identifier().clone()?;
        Ok(Some(Signed {
            algorithm,
            signature,
        }))
    }

    fn public_value(
        &self,
        _alloc: Global,
        _words: &[u8],
    ) -> Result<Option<Asn1RawDer>, AllocError> {
        Ok(None)
    }

    fn agree(
        &self,
        _alloc: Global,
        _theirs: Theirs<'_>,
        _words: &[u8],
    ) -> Result<Option<Vec<u8>>, AllocError> {
        Ok(None)
    }
}
