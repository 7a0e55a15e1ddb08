//! Identifiers of other signatures, of keys on curves and of AES, made anew (RFC 5758, RFC 8410, RFC 3565).
ghost use Rattle.std.specs.Prelude.{◌≡◌, IfOk};
ghost use Rattle.x509_oids.specs.Identifiers as oids;
ghost use Rattle.x509_algorithms.specs.AlgorithmsMade.{IsMade};
ghost use Rattle.x509_algorithms.specs.Named.{plain_arcs, aes128_arcs, aes192_arcs, aes256_arcs};
ghost use Rattle.x509_algorithms.specs.declared.algorithm_kinds.AlgorithmIdentifierParameters.TheVariants as kind;

use crate::algorithm_identifier::AlgorithmIdentifier;
use crate::algorithm_kinds::AlgorithmIdentifierParameters;
use crate::named::{PlainAlgorithm, aes128_oid, aes192_oid, aes256_oid};
use crate::{AesMode, AesParameters, EcParameters};
use std::alloc::{AllocError, Global};

impl AlgorithmIdentifier {
    fn of_plain(alloc: Global, algorithm: PlainAlgorithm) -> Result<AlgorithmIdentifier, AllocError>
        ensures { IfOk result (λ made. IsMade (plain_arcs algorithm) kind.None made) }
    {
        let oid = algorithm.oid(alloc)?;
        Ok(AlgorithmIdentifier::of_parts(oid, AlgorithmIdentifierParameters::None))
    }

    /// DSA signatures over SHA-1.
    pub fn new_dsa_with_sha1(alloc: Global) -> Result<AlgorithmIdentifier, AllocError>
        ensures { IfOk result (λ made. IsMade oids.dsa_with_sha1 kind.None made) }
    {
        AlgorithmIdentifier::of_plain(alloc, PlainAlgorithm::DsaSha1)
    }

    /// ECDSA signatures over SHA-256.
    pub fn new_ecdsa_with_sha256(alloc: Global) -> Result<AlgorithmIdentifier, AllocError>
        ensures { IfOk result (λ made. IsMade oids.ecdsa_with_sha256 kind.None made) }
    {
        AlgorithmIdentifier::of_plain(alloc, PlainAlgorithm::EcdsaSha256)
    }

    /// ECDSA signatures over SHA-384.
    pub fn new_ecdsa_with_sha384(alloc: Global) -> Result<AlgorithmIdentifier, AllocError>
        ensures { IfOk result (λ made. IsMade oids.ecdsa_with_sha384 kind.None made) }
    {
        AlgorithmIdentifier::of_plain(alloc, PlainAlgorithm::EcdsaSha384)
    }

    /// ECDSA signatures over SHA-512.
    pub fn new_ecdsa_with_sha512(alloc: Global) -> Result<AlgorithmIdentifier, AllocError>
        ensures { IfOk result (λ made. IsMade oids.ecdsa_with_sha512 kind.None made) }
    {
        AlgorithmIdentifier::of_plain(alloc, PlainAlgorithm::EcdsaSha512)
    }

    /// ECDSA signatures over SHA3-224.
    pub fn new_ecdsa_with_sha3_224(alloc: Global) -> Result<AlgorithmIdentifier, AllocError>
        ensures { IfOk result (λ made. IsMade oids.ecdsa_with_sha3_224 kind.None made) }
    {
        AlgorithmIdentifier::of_plain(alloc, PlainAlgorithm::EcdsaSha3_224)
    }

    /// ECDSA signatures over SHA3-256.
    pub fn new_ecdsa_with_sha3_256(alloc: Global) -> Result<AlgorithmIdentifier, AllocError>
        ensures { IfOk result (λ made. IsMade oids.ecdsa_with_sha3_256 kind.None made) }
    {
        AlgorithmIdentifier::of_plain(alloc, PlainAlgorithm::EcdsaSha3_256)
    }

    /// ECDSA signatures over SHA3-384.
    pub fn new_ecdsa_with_sha3_384(alloc: Global) -> Result<AlgorithmIdentifier, AllocError>
        ensures { IfOk result (λ made. IsMade oids.ecdsa_with_sha3_384 kind.None made) }
    {
        AlgorithmIdentifier::of_plain(alloc, PlainAlgorithm::EcdsaSha3_384)
    }

    /// ECDSA signatures over SHA3-512.
    pub fn new_ecdsa_with_sha3_512(alloc: Global) -> Result<AlgorithmIdentifier, AllocError>
        ensures { IfOk result (λ made. IsMade oids.ecdsa_with_sha3_512 kind.None made) }
    {
        AlgorithmIdentifier::of_plain(alloc, PlainAlgorithm::EcdsaSha3_512)
    }

    /// Keys and signatures of Ed25519.
    pub fn new_ed25519(alloc: Global) -> Result<AlgorithmIdentifier, AllocError>
        ensures { IfOk result (λ made. IsMade oids.ed25519 kind.None made) }
    {
        AlgorithmIdentifier::of_plain(alloc, PlainAlgorithm::Ed25519)
    }

    /// Keys and signatures of Ed448.
    pub fn new_ed448(alloc: Global) -> Result<AlgorithmIdentifier, AllocError>
        ensures { IfOk result (λ made. IsMade oids.ed448 kind.None made) }
    {
        AlgorithmIdentifier::of_plain(alloc, PlainAlgorithm::Ed448)
    }

    /// Keys of X25519.
    pub fn new_x25519(alloc: Global) -> Result<AlgorithmIdentifier, AllocError>
        ensures { IfOk result (λ made. IsMade oids.x25519 kind.None made) }
    {
        AlgorithmIdentifier::of_plain(alloc, PlainAlgorithm::X25519)
    }

    /// Keys of X448.
    pub fn new_x448(alloc: Global) -> Result<AlgorithmIdentifier, AllocError>
        ensures { IfOk result (λ made. IsMade oids.x448 kind.None made) }
    {
        AlgorithmIdentifier::of_plain(alloc, PlainAlgorithm::X448)
    }

    /// Keys and signatures of ML-DSA-44.
    pub fn new_mldsa_44(alloc: Global) -> Result<AlgorithmIdentifier, AllocError>
        ensures { IfOk result (λ made. IsMade oids.ml_dsa_44 kind.None made) }
    {
        AlgorithmIdentifier::of_plain(alloc, PlainAlgorithm::MlDsa44)
    }

    /// Keys and signatures of ML-DSA-65.
    pub fn new_mldsa_65(alloc: Global) -> Result<AlgorithmIdentifier, AllocError>
        ensures { IfOk result (λ made. IsMade oids.ml_dsa_65 kind.None made) }
    {
        AlgorithmIdentifier::of_plain(alloc, PlainAlgorithm::MlDsa65)
    }

    /// Keys and signatures of ML-DSA-87.
    pub fn new_mldsa_87(alloc: Global) -> Result<AlgorithmIdentifier, AllocError>
        ensures { IfOk result (λ made. IsMade oids.ml_dsa_87 kind.None made) }
    {
        AlgorithmIdentifier::of_plain(alloc, PlainAlgorithm::MlDsa87)
    }

    /// Keys on an elliptic curve.
    pub fn new_elliptic_curve(
        alloc: Global,
        curve: EcParameters,
    ) -> Result<AlgorithmIdentifier, AllocError>
        ensures { IfOk result (λ made. IsMade oids.ec_public_key (kind.Ec curve) made) }
    {
        let oid = x509_oids::ec_public_key(alloc)?;
        Ok(AlgorithmIdentifier::of_parts(oid, AlgorithmIdentifierParameters::Ec(curve)))
    }

    /// AES with keys of 128 bits.
    pub fn new_aes128(
        alloc: Global,
        mode: AesMode,
        params: AesParameters,
    ) -> Result<AlgorithmIdentifier, AllocError>
        ensures { IfOk result (λ made. IsMade (aes128_arcs mode) (kind.Aes params) made) }
    {
        let oid = aes128_oid(alloc, mode)?;
        Ok(AlgorithmIdentifier::of_parts(oid, AlgorithmIdentifierParameters::Aes(params)))
    }

    /// AES with keys of 192 bits.
    pub fn new_aes192(
        alloc: Global,
        mode: AesMode,
        params: AesParameters,
    ) -> Result<AlgorithmIdentifier, AllocError>
        ensures { IfOk result (λ made. IsMade (aes192_arcs mode) (kind.Aes params) made) }
    {
        let oid = aes192_oid(alloc, mode)?;
        Ok(AlgorithmIdentifier::of_parts(oid, AlgorithmIdentifierParameters::Aes(params)))
    }

    /// AES with keys of 256 bits.
    pub fn new_aes256(
        alloc: Global,
        mode: AesMode,
        params: AesParameters,
    ) -> Result<AlgorithmIdentifier, AllocError>
        ensures { IfOk result (λ made. IsMade (aes256_arcs mode) (kind.Aes params) made) }
    {
        let oid = aes256_oid(alloc, mode)?;
        Ok(AlgorithmIdentifier::of_parts(oid, AlgorithmIdentifierParameters::Aes(params)))
    }
}
