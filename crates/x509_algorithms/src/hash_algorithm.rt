//! Hashes of RSASSA-PSS signatures (RFC 8017, appendix A.2.3).
ghost use Rattle.std.specs.Prelude.{◌≡◌, ℕ, false, List, IfOk, IsTrue, MatchOption, MatchResult};
ghost use Rattle.x509_algorithms.specs.HashAlgorithms.{hash_arcs, hash_content, hash_number, hash_len};
ghost use Rattle.asn1_der.specs.Octets.{object_identifier_octet};

use crate::arcs::nist_hash;
use crate::unsupported::UnsupportedAlgorithmError;
use asn1_der::octets::OBJECT_IDENTIFIER;
use byte_streams::Sink;
use picky_asn1::oid::ObjectIdentifier;
use picky_asn1::wrapper::ObjectIdentifierAsn1;
use picky_asn1_der::{Asn1DerError, Leaf, Rule, Serializer};
use std::alloc::{AllocError, Global};

/// A hash of an RSASSA-PSS signature.
///
/// ```text
/// HashAlgorithm ::= AlgorithmIdentifier { {OAEP-PSSDigestAlgorithms} }
/// ```
///
/// NULL follows its identifier. A missing NULL deviates.
#[derive(Clone, Copy, Debug, PartialEq, Eq)]
pub enum HashAlgorithm {
    /// SHA-224.
    SHA224,
    /// SHA-256.
    SHA256,
    /// SHA-384.
    SHA384,
    /// SHA-512.
    SHA512,
    /// SHA3-224.
    SHA3_224,
    /// SHA3-256.
    SHA3_256,
    /// SHA3-384.
    SHA3_384,
    /// SHA3-512.
    SHA3_512,
}

/// The object identifier of a hash.
#[derive(Clone, Copy, Debug, PartialEq, Eq)]
pub struct HashOid(pub HashAlgorithm);

impl HashAlgorithm {
    /// How many octets a digest has.
    pub fn len(&self) -> usize
        ensures { result ≡ hash_len self.now }
    {
        match self {
            HashAlgorithm::SHA224 | HashAlgorithm::SHA3_224 => 28,
            HashAlgorithm::SHA256 | HashAlgorithm::SHA3_256 => 32,
            HashAlgorithm::SHA384 | HashAlgorithm::SHA3_384 => 48,
            HashAlgorithm::SHA512 | HashAlgorithm::SHA3_512 => 64,
        }
    }

    /// Whether a digest has no octets: no hash is so.
    pub fn is_empty(&self) -> bool
        ensures { result ≡ false }
    {
        false
    }

    /// The hash's identifier.
    pub fn identifier(self, alloc: Global) -> Result<ObjectIdentifierAsn1, AllocError>
        ensures { IfOk result (λ oid. oid.0 ≡ hash_arcs self) }
    {
        let oid = self.oid(alloc)?;
        Ok(ObjectIdentifierAsn1(oid))
    }

    fn oid(self, alloc: Global) -> Result<ObjectIdentifier, AllocError>
        ensures { IfOk result (λ oid. oid ≡ hash_arcs self) }
    {
        match self {
            HashAlgorithm::SHA224 => x509_oids::sha224(alloc),
            HashAlgorithm::SHA256 => x509_oids::sha256(alloc),
            HashAlgorithm::SHA384 => x509_oids::sha384(alloc),
            HashAlgorithm::SHA512 => x509_oids::sha512(alloc),
            HashAlgorithm::SHA3_224 => x509_oids::sha3_224(alloc),
            HashAlgorithm::SHA3_256 => x509_oids::sha3_256(alloc),
            HashAlgorithm::SHA3_384 => x509_oids::sha3_384(alloc),
            HashAlgorithm::SHA3_512 => x509_oids::sha3_512(alloc),
        }
    }

    // The last arc of the hash's identifier.
    fn number(self) -> u8
        ensures { result ≡ hash_number self }
    {
        match self {
            HashAlgorithm::SHA224 => 4,
            HashAlgorithm::SHA256 => 1,
            HashAlgorithm::SHA384 => 2,
            HashAlgorithm::SHA512 => 3,
            HashAlgorithm::SHA3_224 => 7,
            HashAlgorithm::SHA3_256 => 8,
            HashAlgorithm::SHA3_384 => 9,
            HashAlgorithm::SHA3_512 => 10,
        }
    }

    // The hash whose identifier has these content octets.
    fn of_content(content: &[u8]) -> Option<HashAlgorithm>
        ensures { MatchOption result
            ((hash : HashAlgorithm) → hash_content hash ≡ content.now → ⊥)
            (λ hash. hash_content hash ≡ content.now) }
    {
        match nist_hash(content)? {
            1 => Some(HashAlgorithm::SHA256),
            2 => Some(HashAlgorithm::SHA384),
            3 => Some(HashAlgorithm::SHA512),
            4 => Some(HashAlgorithm::SHA224),
            7 => Some(HashAlgorithm::SHA3_224),
            8 => Some(HashAlgorithm::SHA3_256),
            9 => Some(HashAlgorithm::SHA3_384),
            10 => Some(HashAlgorithm::SHA3_512),
            _ => None,
        }
    }
}

impl TryFrom<ObjectIdentifierAsn1> for HashAlgorithm {
    ghost use Rattle.x509_algorithms.specs.declared.hash_algorithm.HashAlgorithm.{HashAlgorithm};
    ghost use Rattle.x509_algorithms.specs.declared.unsupported.Algorithm.TheVariants.{Identifier};

    type Error = UnsupportedAlgorithmError;

    ghost try_from_gives = { λ oid result. MatchResult result
        (λ hash. hash_arcs hash ≡ oid.0)
        (λ refusal. (refusal.algorithm ≡ Identifier oid) × ((hash : HashAlgorithm) → hash_arcs hash ≡ oid.0 → ⊥)) };

    fn try_from(oid: ObjectIdentifierAsn1) -> Result<HashAlgorithm, UnsupportedAlgorithmError> {
        match HashAlgorithm::of_content(oid.0.as_bytes()) {
            Some(hash) => Ok(hash),
            None => Err(UnsupportedAlgorithmError::of_identifier(oid)),
        }
    }
}

impl Leaf for HashOid {
    ghost use Rattle.std.specs.Prelude.{true};
    ghost use Rattle.x509_algorithms.specs.HashAlgorithms.{one_hash_oid};

    const OCTET: u8 = OBJECT_IDENTIFIER;

    const RULE: Rule = Rule::ObjectIdentifier;

    ghost OCTET = { object_identifier_octet };

    ghost is_valid = { λ _. true };

    ghost content_of = { λ v. hash_content v.0 };

    ghost one_content = { λ v w _ _ e. one_hash_oid v w e };

    fn decode(_alloc: Global, content: &[u8]) -> Result<Option<Self>, AllocError> {
        match HashAlgorithm::of_content(content) {
            Some(hash) => Ok(Some(HashOid(hash))),
            None => Ok(None),
        }
    }

    fn write_content<W: Sink>(
        &self,
        tag: u8,
        to: &mut Serializer<W>,
    ) -> Result<usize, Asn1DerError> {
        to.element(tag, &[0x60, 0x86, 0x48, 1, 0x65, 3, 4, 2, self.0.number()])
    }
}
