//! Key functions.
ghost use Rattle.std.specs.Prelude.{◌≡◌, length, IfOk};
ghost use Rattle.std.specs.Option.{option_map};

use crate::SubjectPublicKeyInfo;
use picky_asn1::wrapper::{BitStringAsn1, OctetStringAsn1};
use picky_asn1_der::Asn1RawDer;
use std::alloc::{AllocError, Global};
use x509_algorithms::AlgorithmIdentifier;

/// A signature with its algorithm.
#[derive(Drop)]
pub struct Signed {
    /// The signature's algorithm.
    pub algorithm: AlgorithmIdentifier,
    /// The signature.
    pub signature: OctetStringAsn1,
}

/// The peer's public value of a Diffie-Hellman agreement, as the peer sent it.
#[derive(Clone, Copy, Drop)]
pub enum Theirs<'a> {
    /// A client's SubjectPublicKeyInfo: the algorithm with its group, and the value (RFC 4556, section 3.2.1).
    Whole(&'a Asn1RawDer),
    /// A realm's value alone, which is of the client's group (RFC 4556, section 3.2.3.1).
    Bits(&'a BitStringAsn1),
}

/// What a party does with its private key and with the keys of others. Each is a function of its arguments: the same
/// arguments have the same answer, unless memory runs out. Contracts see the five functions, and that what is signed names an
/// algorithm that has an encoding, as [`SignatureAlgorithm`](crate::SignatureAlgorithm) has.
pub trait KeyFunctions {
    ghost use Rattle.x509_keys.specs.KeyFunctions.{KeysRecord, theirs_of};

    ghost functions: { Self → KeysRecord };

    /// Whether the signature is valid for these bytes under the key, by this algorithm.
    ///
    /// Nothing else judges the algorithm, which the sender chooses. So an implementer refuses MD5, SHA-1, a key that is too
    /// short, and a key that doesn't fit the algorithm.
    fn verifies(
        &self,
        key: &SubjectPublicKeyInfo,
        algorithm: &AlgorithmIdentifier,
        signed: &[u8],
        signature: &[u8],
    ) -> bool
        ensures { result ≡ (functions self.now).verifies key.now algorithm.now signed.now signature.now };

    /// Whether the signature is valid for these bytes under the key, by RSA with SHA-1 (RFC 8017, section 8.2). Signed data alone is judged
    /// so, and only where a realm's policy takes SHA-1: never a certificate.
    fn verifies_sha1(&self, key: &SubjectPublicKeyInfo, signed: &[u8], signature: &[u8]) -> bool
        ensures { result ≡ (functions self.now).verifies_sha1 key.now signed.now signature.now };

    /// The party's signature of these bytes. `None` if the party does not sign.
    fn sign(&self, alloc: Global, signed: &[u8]) -> Result<Option<Signed>, AllocError>
        ensures { IfOk result (λ made. made ≡ (functions self.now).sign signed.now) };

    /// The party's SubjectPublicKeyInfo of an agreement by 64 random bytes: the algorithm with its group, and the public
    /// value. `None` if the party does not agree on keys.
    fn public_value(&self, alloc: Global, words: &[u8]) -> Result<Option<Asn1RawDer>, AllocError>
        requires { length words.now ≡ 64 }
        ensures { IfOk result (λ made. made ≡ (functions self.now).public_value words.now) };

    /// The shared secret of the peer's public value and the party's own, which is of the same 64 random bytes. `None` if
    /// the party refuses the peer's value.
    fn agree(
        &self,
        alloc: Global,
        theirs: Theirs<'_>,
        words: &[u8],
    ) -> Result<Option<Vec<u8>>, AllocError>
        requires { length words.now ≡ 64 }
        ensures { IfOk result (λ made. option_map (λ secret. secret.items) made ≡ (functions self.now).agree (theirs_of theirs.entry) words.now) };
}
