//! Algorithms whose identifier alone decides their parameters.
ghost use Rattle.std.specs.Prelude.{◌≡◌, IfOk};
ghost use Rattle.x509_algorithms.specs.Named.{rsa_arcs, plain_arcs, aes128_arcs, aes192_arcs, aes256_arcs};

use crate::AesMode;
use picky_asn1::oid::ObjectIdentifier;
use std::alloc::{AllocError, Global};

/// An algorithm of the RSA family, which has NULL (RFC 8017, appendix C).
#[derive(Clone, Copy, Debug, PartialEq, Eq)]
pub enum RsaAlgorithm {
    /// An RSA key.
    Encryption,
    /// Signatures over MD5.
    Md5,
    /// Signatures over SHA-1.
    Sha1,
    /// Signatures over SHA-224.
    Sha224,
    /// Signatures over SHA-256.
    Sha256,
    /// Signatures over SHA-384.
    Sha384,
    /// Signatures over SHA-512.
    Sha512,
    /// Signatures over SHA3-224.
    Sha3_224,
    /// Signatures over SHA3-256.
    Sha3_256,
    /// Signatures over SHA3-384.
    Sha3_384,
    /// Signatures over SHA3-512.
    Sha3_512,
}

/// An algorithm that has no parameters (RFC 3279, section 2.2.2; RFC 5758, section 3.2; RFC 8410, section 3; RFC 9881, section 2).
#[derive(Clone, Copy, Debug, PartialEq, Eq)]
pub enum PlainAlgorithm {
    /// DSA signatures over SHA-1.
    DsaSha1,
    /// ECDSA signatures over SHA-256.
    EcdsaSha256,
    /// ECDSA signatures over SHA-384.
    EcdsaSha384,
    /// ECDSA signatures over SHA-512.
    EcdsaSha512,
    /// ECDSA signatures over SHA3-224.
    EcdsaSha3_224,
    /// ECDSA signatures over SHA3-256.
    EcdsaSha3_256,
    /// ECDSA signatures over SHA3-384.
    EcdsaSha3_384,
    /// ECDSA signatures over SHA3-512.
    EcdsaSha3_512,
    /// Keys and signatures of Ed25519.
    Ed25519,
    /// Keys and signatures of Ed448.
    Ed448,
    /// Keys of X25519.
    X25519,
    /// Keys of X448.
    X448,
    /// Keys and signatures of ML-DSA-44.
    MlDsa44,
    /// Keys and signatures of ML-DSA-65.
    MlDsa65,
    /// Keys and signatures of ML-DSA-87.
    MlDsa87,
}

impl RsaAlgorithm {
    /// The algorithm's identifier.
    pub fn oid(self, alloc: Global) -> Result<ObjectIdentifier, AllocError>
        ensures { IfOk result (λ oid. oid ≡ rsa_arcs self) }
    {
        match self {
            RsaAlgorithm::Encryption => x509_oids::rsa_encryption(alloc),
            RsaAlgorithm::Md5 => x509_oids::md5_with_rsa_encrypthion(alloc),
            RsaAlgorithm::Sha1 => x509_oids::sha1_with_rsa_encryption(alloc),
            RsaAlgorithm::Sha224 => x509_oids::sha224_with_rsa_encryption(alloc),
            RsaAlgorithm::Sha256 => x509_oids::sha256_with_rsa_encryption(alloc),
            RsaAlgorithm::Sha384 => x509_oids::sha384_with_rsa_encryption(alloc),
            RsaAlgorithm::Sha512 => x509_oids::sha512_with_rsa_encryption(alloc),
            RsaAlgorithm::Sha3_224 => x509_oids::sha3_224_with_rsa_encryption(alloc),
            RsaAlgorithm::Sha3_256 => x509_oids::sha3_256_with_rsa_encryption(alloc),
            RsaAlgorithm::Sha3_384 => x509_oids::sha3_384_with_rsa_encryption(alloc),
            RsaAlgorithm::Sha3_512 => x509_oids::sha3_512_with_rsa_encryption(alloc),
        }
    }
}

impl PlainAlgorithm {
    /// The algorithm's identifier.
    pub fn oid(self, alloc: Global) -> Result<ObjectIdentifier, AllocError>
        ensures { IfOk result (λ oid. oid ≡ plain_arcs self) }
    {
        match self {
            PlainAlgorithm::DsaSha1 => x509_oids::dsa_with_sha1(alloc),
            PlainAlgorithm::EcdsaSha256 => x509_oids::ecdsa_with_sha256(alloc),
            PlainAlgorithm::EcdsaSha384 => x509_oids::ecdsa_with_sha384(alloc),
            PlainAlgorithm::EcdsaSha512 => x509_oids::ecdsa_with_sha512(alloc),
            PlainAlgorithm::EcdsaSha3_224 => x509_oids::ecdsa_with_sha3_224(alloc),
            PlainAlgorithm::EcdsaSha3_256 => x509_oids::ecdsa_with_sha3_256(alloc),
            PlainAlgorithm::EcdsaSha3_384 => x509_oids::ecdsa_with_sha3_384(alloc),
            PlainAlgorithm::EcdsaSha3_512 => x509_oids::ecdsa_with_sha3_512(alloc),
            PlainAlgorithm::Ed25519 => x509_oids::ed25519(alloc),
            PlainAlgorithm::Ed448 => x509_oids::ed448(alloc),
            PlainAlgorithm::X25519 => x509_oids::x25519(alloc),
            PlainAlgorithm::X448 => x509_oids::x448(alloc),
            PlainAlgorithm::MlDsa44 => x509_oids::ml_dsa_44(alloc),
            PlainAlgorithm::MlDsa65 => x509_oids::ml_dsa_65(alloc),
            PlainAlgorithm::MlDsa87 => x509_oids::ml_dsa_87(alloc),
        }
    }
}

// The identifier of AES with keys of 128 bits.
pub(crate) fn aes128_oid(alloc: Global, mode: AesMode) -> Result<ObjectIdentifier, AllocError>
    ensures { IfOk result (λ oid. oid ≡ aes128_arcs mode) }
{
    match mode {
        AesMode::Ecb => x509_oids::aes128_ecb(alloc),
        AesMode::Cbc => x509_oids::aes128_cbc(alloc),
        AesMode::Ofb => x509_oids::aes128_ofb(alloc),
        AesMode::Cfb => x509_oids::aes128_cfb(alloc),
        AesMode::Wrap => x509_oids::aes128_wrap(alloc),
        AesMode::Gcm => x509_oids::aes128_gcm(alloc),
        AesMode::Ccm => x509_oids::aes128_ccm(alloc),
        AesMode::WrapPad => x509_oids::aes128_wrap_pad(alloc),
    }
}

// The identifier of AES with keys of 192 bits.
pub(crate) fn aes192_oid(alloc: Global, mode: AesMode) -> Result<ObjectIdentifier, AllocError>
    ensures { IfOk result (λ oid. oid ≡ aes192_arcs mode) }
{
    match mode {
        AesMode::Ecb => x509_oids::aes192_ecb(alloc),
        AesMode::Cbc => x509_oids::aes192_cbc(alloc),
        AesMode::Ofb => x509_oids::aes192_ofb(alloc),
        AesMode::Cfb => x509_oids::aes192_cfb(alloc),
        AesMode::Wrap => x509_oids::aes192_wrap(alloc),
        AesMode::Gcm => x509_oids::aes192_gcm(alloc),
        AesMode::Ccm => x509_oids::aes192_ccm(alloc),
        AesMode::WrapPad => x509_oids::aes192_wrap_pad(alloc),
    }
}

// The identifier of AES with keys of 256 bits.
pub(crate) fn aes256_oid(alloc: Global, mode: AesMode) -> Result<ObjectIdentifier, AllocError>
    ensures { IfOk result (λ oid. oid ≡ aes256_arcs mode) }
{
    match mode {
        AesMode::Ecb => x509_oids::aes256_ecb(alloc),
        AesMode::Cbc => x509_oids::aes256_cbc(alloc),
        AesMode::Ofb => x509_oids::aes256_ofb(alloc),
        AesMode::Cfb => x509_oids::aes256_cfb(alloc),
        AesMode::Wrap => x509_oids::aes256_wrap(alloc),
        AesMode::Gcm => x509_oids::aes256_gcm(alloc),
        AesMode::Ccm => x509_oids::aes256_ccm(alloc),
        AesMode::WrapPad => x509_oids::aes256_wrap_pad(alloc),
    }
}
