//! Identifiers of hashes and of the RSA family, made anew (RFC 8017, appendix C).
ghost use Rattle.std.specs.Prelude.{◌≡◌, None, IfOk, MatchOption, MatchResult};
ghost use Rattle.x509_oids.specs.Identifiers as oids;
ghost use Rattle.x509_algorithms.specs.ShaVariants.{sha_arcs};
ghost use Rattle.x509_algorithms.specs.AlgorithmsMade.{IsMade};
ghost use Rattle.x509_algorithms.specs.Named.{rsa_arcs, rsa_over};
ghost use Rattle.x509_algorithms.specs.declared.algorithm_kinds.AlgorithmIdentifierParameters.TheVariants as kind;

use crate::algorithm_identifier::AlgorithmIdentifier;
use crate::algorithm_kinds::AlgorithmIdentifierParameters;
use crate::named::RsaAlgorithm;
use crate::{RsassaPssParams, ShaVariant, UnsupportedAlgorithmError};
use std::alloc::{AllocError, Global};

impl AlgorithmIdentifier {
    fn of_rsa(alloc: Global, algorithm: RsaAlgorithm) -> Result<AlgorithmIdentifier, AllocError>
        ensures { IfOk result (λ made. IsMade (rsa_arcs algorithm) kind.Null made) }
    {
        let oid = algorithm.oid(alloc)?;
        Ok(AlgorithmIdentifier::of_parts(oid, AlgorithmIdentifierParameters::Null))
    }

    /// RSA keys, with NULL.
    pub fn new_rsa_encryption(alloc: Global) -> Result<AlgorithmIdentifier, AllocError>
        ensures { IfOk result (λ made. IsMade oids.rsa_encryption kind.Null made) }
    {
        AlgorithmIdentifier::of_rsa(alloc, RsaAlgorithm::Encryption)
    }

    /// RSA signatures over MD5, with NULL.
    pub fn new_md5_with_rsa_encryption(alloc: Global) -> Result<AlgorithmIdentifier, AllocError>
        ensures { IfOk result (λ made. IsMade oids.md5_with_rsa_encrypthion kind.Null made) }
    {
        AlgorithmIdentifier::of_rsa(alloc, RsaAlgorithm::Md5)
    }

    /// RSA signatures over SHA-1, with NULL.
    pub fn new_sha1_with_rsa_encryption(alloc: Global) -> Result<AlgorithmIdentifier, AllocError>
        ensures { IfOk result (λ made. IsMade oids.sha1_with_rsa_encryption kind.Null made) }
    {
        AlgorithmIdentifier::of_rsa(alloc, RsaAlgorithm::Sha1)
    }

    /// RSA signatures over SHA-224, with NULL.
    pub fn new_sha224_with_rsa_encryption(alloc: Global) -> Result<AlgorithmIdentifier, AllocError>
        ensures { IfOk result (λ made. IsMade oids.sha224_with_rsa_encryption kind.Null made) }
    {
        AlgorithmIdentifier::of_rsa(alloc, RsaAlgorithm::Sha224)
    }

    /// RSA signatures over SHA-256, with NULL.
    pub fn new_sha256_with_rsa_encryption(alloc: Global) -> Result<AlgorithmIdentifier, AllocError>
        ensures { IfOk result (λ made. IsMade oids.sha256_with_rsa_encryption kind.Null made) }
    {
        AlgorithmIdentifier::of_rsa(alloc, RsaAlgorithm::Sha256)
    }

    /// RSA signatures over SHA-384, with NULL.
    pub fn new_sha384_with_rsa_encryption(alloc: Global) -> Result<AlgorithmIdentifier, AllocError>
        ensures { IfOk result (λ made. IsMade oids.sha384_with_rsa_encryption kind.Null made) }
    {
        AlgorithmIdentifier::of_rsa(alloc, RsaAlgorithm::Sha384)
    }

    /// RSA signatures over SHA-512, with NULL.
    pub fn new_sha512_with_rsa_encryption(alloc: Global) -> Result<AlgorithmIdentifier, AllocError>
        ensures { IfOk result (λ made. IsMade oids.sha512_with_rsa_encryption kind.Null made) }
    {
        AlgorithmIdentifier::of_rsa(alloc, RsaAlgorithm::Sha512)
    }

    /// RSA signatures over SHA3-224, with NULL.
    pub fn new_sha3_224_with_rsa_encryption(
        alloc: Global,
    ) -> Result<AlgorithmIdentifier, AllocError>
        ensures { IfOk result (λ made. IsMade oids.sha3_224_with_rsa_encryption kind.Null made) }
    {
        AlgorithmIdentifier::of_rsa(alloc, RsaAlgorithm::Sha3_224)
    }

    /// RSA signatures over SHA3-256, with NULL.
    pub fn new_sha3_256_with_rsa_encryption(
        alloc: Global,
    ) -> Result<AlgorithmIdentifier, AllocError>
        ensures { IfOk result (λ made. IsMade oids.sha3_256_with_rsa_encryption kind.Null made) }
    {
        AlgorithmIdentifier::of_rsa(alloc, RsaAlgorithm::Sha3_256)
    }

    /// RSA signatures over SHA3-384, with NULL.
    pub fn new_sha3_384_with_rsa_encryption(
        alloc: Global,
    ) -> Result<AlgorithmIdentifier, AllocError>
        ensures { IfOk result (λ made. IsMade oids.sha3_384_with_rsa_encryption kind.Null made) }
    {
        AlgorithmIdentifier::of_rsa(alloc, RsaAlgorithm::Sha3_384)
    }

    /// RSA signatures over SHA3-512, with NULL.
    pub fn new_sha3_512_with_rsa_encryption(
        alloc: Global,
    ) -> Result<AlgorithmIdentifier, AllocError>
        ensures { IfOk result (λ made. IsMade oids.sha3_512_with_rsa_encryption kind.Null made) }
    {
        AlgorithmIdentifier::of_rsa(alloc, RsaAlgorithm::Sha3_512)
    }

    /// RSA signatures over the hash, with NULL, where there are any.
    pub fn new_rsa_encryption_with_sha(
        alloc: Global,
        hash: ShaVariant,
    ) -> Result<Result<AlgorithmIdentifier, UnsupportedAlgorithmError>, AllocError>
        ensures { IfOk result (λ answer. MatchResult answer
            (λ made. MatchOption (rsa_over hash) ⊥ (λ algorithm. IsMade (rsa_arcs algorithm) kind.Null made))
            (λ _. rsa_over hash ≡ None)) }
    {
        match rsa_over(hash) {
            Some(algorithm) => {
                let made = AlgorithmIdentifier::of_rsa(alloc, algorithm)?;
                Ok(Ok(made))
            }
            None => Ok(Err(UnsupportedAlgorithmError::of_hash(hash))),
        }
    }

    /// RSASSA-PSS signatures with these parameters.
    pub fn new_rsassa_pss(
        alloc: Global,
        params: RsassaPssParams,
    ) -> Result<AlgorithmIdentifier, AllocError>
        ensures { IfOk result (λ made. IsMade oids.rsassa_pss (kind.RsassaPss params) made) }
    {
        let oid = x509_oids::rsassa_pss(alloc)?;
        Ok(AlgorithmIdentifier::of_parts(oid, AlgorithmIdentifierParameters::RsassaPss(params)))
    }

    /// SHA-1, with NULL.
    pub fn new_sha1(alloc: Global) -> Result<AlgorithmIdentifier, AllocError>
        ensures { IfOk result (λ made. IsMade oids.sha1 kind.Null made) }
    {
        AlgorithmIdentifier::new_sha(alloc, ShaVariant::SHA1)
    }

    /// A hash, with NULL.
    pub fn new_sha(alloc: Global, hash: ShaVariant) -> Result<AlgorithmIdentifier, AllocError>
        ensures { IfOk result (λ made. IsMade (sha_arcs hash) kind.Null made) }
    {
        let oid = hash.identifier(alloc)?;
        Ok(AlgorithmIdentifier::of_parts(oid.0, AlgorithmIdentifierParameters::Null))
    }
}

// RSA signatures over this hash, where there are any.
fn rsa_over(hash: ShaVariant) -> Option<RsaAlgorithm>
    ensures { result ≡ rsa_over hash }
{
    match hash {
        ShaVariant::SHA1 => Some(RsaAlgorithm::Sha1),
        ShaVariant::SHA2_224 => Some(RsaAlgorithm::Sha224),
        ShaVariant::SHA2_256 => Some(RsaAlgorithm::Sha256),
        ShaVariant::SHA2_384 => Some(RsaAlgorithm::Sha384),
        ShaVariant::SHA2_512 => Some(RsaAlgorithm::Sha512),
        ShaVariant::SHA3_224 => Some(RsaAlgorithm::Sha3_224),
        ShaVariant::SHA3_256 => Some(RsaAlgorithm::Sha3_256),
        ShaVariant::SHA3_384 => Some(RsaAlgorithm::Sha3_384),
        ShaVariant::SHA3_512 => Some(RsaAlgorithm::Sha3_512),
        ShaVariant::MD5
        | ShaVariant::SHA2_512_224
        | ShaVariant::SHA2_512_256
        | ShaVariant::SHAKE128
        | ShaVariant::SHAKE256 => None,
    }
}
