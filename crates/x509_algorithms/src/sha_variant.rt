//! Hashes, each with its object identifier.
ghost use Rattle.std.specs.Prelude.{◌≡◌, IfOk, MatchOption, MatchResult};
ghost use Rattle.x509_algorithms.specs.ShaVariants.{sha_arcs, sha_content};

use crate::arcs::nist_hash;
use crate::unsupported::UnsupportedAlgorithmError;
use picky_asn1::oid::ObjectIdentifier;
use picky_asn1::wrapper::ObjectIdentifierAsn1;
use std::alloc::{AllocError, Global};

/// A hash (RFC 8017, appendix B.1; FIPS 202).
#[derive(Clone, Copy, Debug, PartialEq, Eq)]
pub enum ShaVariant {
    /// MD5.
    MD5,
    /// SHA-1.
    SHA1,
    /// SHA-224.
    SHA2_224,
    /// SHA-256.
    SHA2_256,
    /// SHA-384.
    SHA2_384,
    /// SHA-512.
    SHA2_512,
    /// SHA-512, cut to 224 bits.
    SHA2_512_224,
    /// SHA-512, cut to 256 bits.
    SHA2_512_256,
    /// SHA3-224.
    SHA3_224,
    /// SHA3-256.
    SHA3_256,
    /// SHA3-384.
    SHA3_384,
    /// SHA3-512.
    SHA3_512,
    /// SHAKE128.
    SHAKE128,
    /// SHAKE256.
    SHAKE256,
}

impl ShaVariant {
    /// The hash's identifier.
    pub fn identifier(self, alloc: Global) -> Result<ObjectIdentifierAsn1, AllocError>
        ensures { IfOk result (λ oid. oid.0 ≡ sha_arcs self) }
    {
        let oid = self.oid(alloc)?;
        Ok(ObjectIdentifierAsn1(oid))
    }

    fn oid(self, alloc: Global) -> Result<ObjectIdentifier, AllocError>
        ensures { IfOk result (λ oid. oid ≡ sha_arcs self) }
    {
        match self {
            ShaVariant::MD5 => x509_oids::md5(alloc),
            ShaVariant::SHA1 => x509_oids::sha1(alloc),
            ShaVariant::SHA2_224 => x509_oids::sha224(alloc),
            ShaVariant::SHA2_256 => x509_oids::sha256(alloc),
            ShaVariant::SHA2_384 => x509_oids::sha384(alloc),
            ShaVariant::SHA2_512 => x509_oids::sha512(alloc),
            ShaVariant::SHA2_512_224 => x509_oids::sha512_224(alloc),
            ShaVariant::SHA2_512_256 => x509_oids::sha512_256(alloc),
            ShaVariant::SHA3_224 => x509_oids::sha3_224(alloc),
            ShaVariant::SHA3_256 => x509_oids::sha3_256(alloc),
            ShaVariant::SHA3_384 => x509_oids::sha3_384(alloc),
            ShaVariant::SHA3_512 => x509_oids::sha3_512(alloc),
            ShaVariant::SHAKE128 => x509_oids::shake128(alloc),
            ShaVariant::SHAKE256 => x509_oids::shake256(alloc),
        }
    }

    // The hash whose identifier has these content octets.
    fn of_content(content: &[u8]) -> Option<ShaVariant>
        ensures { MatchOption result
            ((hash : ShaVariant) → sha_content hash ≡ content.now → ⊥)
            (λ hash. sha_content hash ≡ content.now) }
    {
        if content == [0x2A, 0x86, 0x48, 0x86, 0xF7, 0x0D, 2, 5].as_slice() {
            return Some(ShaVariant::MD5);
        }
        if content == [0x2B, 0x0E, 3, 2, 0x1A].as_slice() {
            return Some(ShaVariant::SHA1);
        }
        match nist_hash(content)? {
            1 => Some(ShaVariant::SHA2_256),
            2 => Some(ShaVariant::SHA2_384),
            3 => Some(ShaVariant::SHA2_512),
            4 => Some(ShaVariant::SHA2_224),
            5 => Some(ShaVariant::SHA2_512_224),
            6 => Some(ShaVariant::SHA2_512_256),
            7 => Some(ShaVariant::SHA3_224),
            8 => Some(ShaVariant::SHA3_256),
            9 => Some(ShaVariant::SHA3_384),
            10 => Some(ShaVariant::SHA3_512),
            11 => Some(ShaVariant::SHAKE128),
            12 => Some(ShaVariant::SHAKE256),
            _ => None,
        }
    }
}

impl TryFrom<ObjectIdentifierAsn1> for ShaVariant {
    ghost use Rattle.x509_algorithms.specs.declared.sha_variant.ShaVariant.{ShaVariant};
    ghost use Rattle.x509_algorithms.specs.declared.unsupported.Algorithm.TheVariants.{Identifier};

    type Error = UnsupportedAlgorithmError;

    ghost try_from_gives = { λ oid result. MatchResult result
        (λ hash. sha_arcs hash ≡ oid.0)
        (λ refusal. (refusal.algorithm ≡ Identifier oid) × ((hash : ShaVariant) → sha_arcs hash ≡ oid.0 → ⊥)) };

    fn try_from(oid: ObjectIdentifierAsn1) -> Result<ShaVariant, UnsupportedAlgorithmError> {
        match ShaVariant::of_content(oid.0.as_bytes()) {
            Some(hash) => Ok(hash),
            None => Err(UnsupportedAlgorithmError::of_identifier(oid)),
        }
    }
}
