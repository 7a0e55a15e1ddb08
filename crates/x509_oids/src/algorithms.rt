//! The object identifiers of keys, signatures, hashes, ciphers and curves.
ghost use Rattle.std.specs.Prelude.{◌≡◌, IfOk};
ghost use Rattle.x509_oids.specs.Identifiers.{IsNamed};
ghost use Rattle.x509_oids.specs.Identifiers as oids;

use crate::identifier;
use asn1_leaves::oid::ObjectIdentifier;
use std::alloc::{AllocError, Global};

/// An RSA key (RFC 8017, appendix C).
pub const RSA_ENCRYPTION: &str = "1.2.840.113549.1.1.1";

/// The identifier [`RSA_ENCRYPTION`].
#[tactic(auto, using(crate::specs::Identifiers::rsa_encryption_text))]
pub fn rsa_encryption(alloc: Global) -> Result<ObjectIdentifier, AllocError>
    ensures { IsNamed oids.rsa_encryption RSA_ENCRYPTION.now result }
{
    identifier(alloc, &[1, 2, 840, 113549, 1, 1, 1])
}

/// RSA signatures over MD5. The ported crate spells its name so (RFC 8017, appendix C).
pub const MD5_WITH_RSA_ENCRYPTHION: &str = "1.2.840.113549.1.1.4";

/// The identifier [`MD5_WITH_RSA_ENCRYPTHION`].
#[tactic(auto, using(crate::specs::Identifiers::md5_with_rsa_encrypthion_text))]
pub fn md5_with_rsa_encrypthion(alloc: Global) -> Result<ObjectIdentifier, AllocError>
    ensures { IsNamed oids.md5_with_rsa_encrypthion MD5_WITH_RSA_ENCRYPTHION.now result }
{
    identifier(alloc, &[1, 2, 840, 113549, 1, 1, 4])
}

/// RSA signatures over SHA-1 (RFC 8017, appendix C).
pub const SHA1_WITH_RSA_ENCRYPTION: &str = "1.2.840.113549.1.1.5";

/// The identifier [`SHA1_WITH_RSA_ENCRYPTION`].
#[tactic(auto, using(crate::specs::Identifiers::sha1_with_rsa_encryption_text))]
pub fn sha1_with_rsa_encryption(alloc: Global) -> Result<ObjectIdentifier, AllocError>
    ensures { IsNamed oids.sha1_with_rsa_encryption SHA1_WITH_RSA_ENCRYPTION.now result }
{
    identifier(alloc, &[1, 2, 840, 113549, 1, 1, 5])
}

/// The mask generation function MGF1 (RFC 8017, appendix C).
pub const ID_MGF1: &str = "1.2.840.113549.1.1.8";

/// The identifier [`ID_MGF1`].
#[tactic(auto, using(crate::specs::Identifiers::id_mgf1_text))]
pub fn id_mgf1(alloc: Global) -> Result<ObjectIdentifier, AllocError>
    ensures { IsNamed oids.id_mgf1 ID_MGF1.now result }
{
    identifier(alloc, &[1, 2, 840, 113549, 1, 1, 8])
}

/// RSASSA-PSS signatures (RFC 8017, appendix C).
pub const RSASSA_PSS: &str = "1.2.840.113549.1.1.10";

/// The identifier [`RSASSA_PSS`].
#[tactic(auto, using(crate::specs::Identifiers::rsassa_pss_text))]
pub fn rsassa_pss(alloc: Global) -> Result<ObjectIdentifier, AllocError>
    ensures { IsNamed oids.rsassa_pss RSASSA_PSS.now result }
{
    identifier(alloc, &[1, 2, 840, 113549, 1, 1, 10])
}

/// RSA signatures over SHA-256 (RFC 8017, appendix C).
pub const SHA256_WITH_RSA_ENCRYPTION: &str = "1.2.840.113549.1.1.11";

/// The identifier [`SHA256_WITH_RSA_ENCRYPTION`].
#[tactic(auto, using(crate::specs::Identifiers::sha256_with_rsa_encryption_text))]
pub fn sha256_with_rsa_encryption(alloc: Global) -> Result<ObjectIdentifier, AllocError>
    ensures { IsNamed oids.sha256_with_rsa_encryption SHA256_WITH_RSA_ENCRYPTION.now result }
{
    identifier(alloc, &[1, 2, 840, 113549, 1, 1, 11])
}

/// RSA signatures over SHA-384 (RFC 8017, appendix C).
pub const SHA384_WITH_RSA_ENCRYPTION: &str = "1.2.840.113549.1.1.12";

/// The identifier [`SHA384_WITH_RSA_ENCRYPTION`].
#[tactic(auto, using(crate::specs::Identifiers::sha384_with_rsa_encryption_text))]
pub fn sha384_with_rsa_encryption(alloc: Global) -> Result<ObjectIdentifier, AllocError>
    ensures { IsNamed oids.sha384_with_rsa_encryption SHA384_WITH_RSA_ENCRYPTION.now result }
{
    identifier(alloc, &[1, 2, 840, 113549, 1, 1, 12])
}

/// RSA signatures over SHA-512 (RFC 8017, appendix C).
pub const SHA512_WITH_RSA_ENCRYPTION: &str = "1.2.840.113549.1.1.13";

/// The identifier [`SHA512_WITH_RSA_ENCRYPTION`].
#[tactic(auto, using(crate::specs::Identifiers::sha512_with_rsa_encryption_text))]
pub fn sha512_with_rsa_encryption(alloc: Global) -> Result<ObjectIdentifier, AllocError>
    ensures { IsNamed oids.sha512_with_rsa_encryption SHA512_WITH_RSA_ENCRYPTION.now result }
{
    identifier(alloc, &[1, 2, 840, 113549, 1, 1, 13])
}

/// RSA signatures over SHA-224 (RFC 8017, appendix C).
pub const SHA224_WITH_RSA_ENCRYPTION: &str = "1.2.840.113549.1.1.14";

/// The identifier [`SHA224_WITH_RSA_ENCRYPTION`].
#[tactic(auto, using(crate::specs::Identifiers::sha224_with_rsa_encryption_text))]
pub fn sha224_with_rsa_encryption(alloc: Global) -> Result<ObjectIdentifier, AllocError>
    ensures { IsNamed oids.sha224_with_rsa_encryption SHA224_WITH_RSA_ENCRYPTION.now result }
{
    identifier(alloc, &[1, 2, 840, 113549, 1, 1, 14])
}

/// The hash MD5 (RFC 8017, appendix C).
pub const MD5: &str = "1.2.840.113549.2.5";

/// The identifier [`MD5`].
#[tactic(auto, using(crate::specs::Identifiers::md5_text))]
pub fn md5(alloc: Global) -> Result<ObjectIdentifier, AllocError>
    ensures { IsNamed oids.md5 MD5.now result }
{
    identifier(alloc, &[1, 2, 840, 113549, 2, 5])
}

/// The hash SHA-1 (RFC 8017, appendix C).
pub const SHA1: &str = "1.3.14.3.2.26";

/// The identifier [`SHA1`].
#[tactic(auto, using(crate::specs::Identifiers::sha1_text))]
pub fn sha1(alloc: Global) -> Result<ObjectIdentifier, AllocError>
    ensures { IsNamed oids.sha1 SHA1.now result }
{
    identifier(alloc, &[1, 3, 14, 3, 2, 26])
}

/// The hash SHA-256 (NIST's Computer Security Objects Register, hashAlgs).
pub const SHA256: &str = "2.16.840.1.101.3.4.2.1";

/// The identifier [`SHA256`].
#[tactic(auto, using(crate::specs::Identifiers::sha256_text))]
pub fn sha256(alloc: Global) -> Result<ObjectIdentifier, AllocError>
    ensures { IsNamed oids.sha256 SHA256.now result }
{
    identifier(alloc, &[2, 16, 840, 1, 101, 3, 4, 2, 1])
}

/// The hash SHA-384 (NIST's Computer Security Objects Register, hashAlgs).
pub const SHA384: &str = "2.16.840.1.101.3.4.2.2";

/// The identifier [`SHA384`].
#[tactic(auto, using(crate::specs::Identifiers::sha384_text))]
pub fn sha384(alloc: Global) -> Result<ObjectIdentifier, AllocError>
    ensures { IsNamed oids.sha384 SHA384.now result }
{
    identifier(alloc, &[2, 16, 840, 1, 101, 3, 4, 2, 2])
}

/// The hash SHA-512 (NIST's Computer Security Objects Register, hashAlgs).
pub const SHA512: &str = "2.16.840.1.101.3.4.2.3";

/// The identifier [`SHA512`].
#[tactic(auto, using(crate::specs::Identifiers::sha512_text))]
pub fn sha512(alloc: Global) -> Result<ObjectIdentifier, AllocError>
    ensures { IsNamed oids.sha512 SHA512.now result }
{
    identifier(alloc, &[2, 16, 840, 1, 101, 3, 4, 2, 3])
}

/// The hash SHA-224 (NIST's Computer Security Objects Register, hashAlgs).
pub const SHA224: &str = "2.16.840.1.101.3.4.2.4";

/// The identifier [`SHA224`].
#[tactic(auto, using(crate::specs::Identifiers::sha224_text))]
pub fn sha224(alloc: Global) -> Result<ObjectIdentifier, AllocError>
    ensures { IsNamed oids.sha224 SHA224.now result }
{
    identifier(alloc, &[2, 16, 840, 1, 101, 3, 4, 2, 4])
}

/// The hash SHA-512/224 (NIST's Computer Security Objects Register, hashAlgs).
pub const SHA512_224: &str = "2.16.840.1.101.3.4.2.5";

/// The identifier [`SHA512_224`].
#[tactic(auto, using(crate::specs::Identifiers::sha512_224_text))]
pub fn sha512_224(alloc: Global) -> Result<ObjectIdentifier, AllocError>
    ensures { IsNamed oids.sha512_224 SHA512_224.now result }
{
    identifier(alloc, &[2, 16, 840, 1, 101, 3, 4, 2, 5])
}

/// The hash SHA-512/256 (NIST's Computer Security Objects Register, hashAlgs).
pub const SHA512_256: &str = "2.16.840.1.101.3.4.2.6";

/// The identifier [`SHA512_256`].
#[tactic(auto, using(crate::specs::Identifiers::sha512_256_text))]
pub fn sha512_256(alloc: Global) -> Result<ObjectIdentifier, AllocError>
    ensures { IsNamed oids.sha512_256 SHA512_256.now result }
{
    identifier(alloc, &[2, 16, 840, 1, 101, 3, 4, 2, 6])
}

/// The hash SHA3-224 (NIST's Computer Security Objects Register, hashAlgs).
pub const SHA3_224: &str = "2.16.840.1.101.3.4.2.7";

/// The identifier [`SHA3_224`].
#[tactic(auto, using(crate::specs::Identifiers::sha3_224_text))]
pub fn sha3_224(alloc: Global) -> Result<ObjectIdentifier, AllocError>
    ensures { IsNamed oids.sha3_224 SHA3_224.now result }
{
    identifier(alloc, &[2, 16, 840, 1, 101, 3, 4, 2, 7])
}

/// The hash SHA3-256 (NIST's Computer Security Objects Register, hashAlgs).
pub const SHA3_256: &str = "2.16.840.1.101.3.4.2.8";

/// The identifier [`SHA3_256`].
#[tactic(auto, using(crate::specs::Identifiers::sha3_256_text))]
pub fn sha3_256(alloc: Global) -> Result<ObjectIdentifier, AllocError>
    ensures { IsNamed oids.sha3_256 SHA3_256.now result }
{
    identifier(alloc, &[2, 16, 840, 1, 101, 3, 4, 2, 8])
}

/// The hash SHA3-384 (NIST's Computer Security Objects Register, hashAlgs).
pub const SHA3_384: &str = "2.16.840.1.101.3.4.2.9";

/// The identifier [`SHA3_384`].
#[tactic(auto, using(crate::specs::Identifiers::sha3_384_text))]
pub fn sha3_384(alloc: Global) -> Result<ObjectIdentifier, AllocError>
    ensures { IsNamed oids.sha3_384 SHA3_384.now result }
{
    identifier(alloc, &[2, 16, 840, 1, 101, 3, 4, 2, 9])
}

/// The hash SHA3-512 (NIST's Computer Security Objects Register, hashAlgs).
pub const SHA3_512: &str = "2.16.840.1.101.3.4.2.10";

/// The identifier [`SHA3_512`].
#[tactic(auto, using(crate::specs::Identifiers::sha3_512_text))]
pub fn sha3_512(alloc: Global) -> Result<ObjectIdentifier, AllocError>
    ensures { IsNamed oids.sha3_512 SHA3_512.now result }
{
    identifier(alloc, &[2, 16, 840, 1, 101, 3, 4, 2, 10])
}

/// The extendable output function SHAKE128 (NIST's Computer Security Objects Register, hashAlgs).
pub const SHAKE128: &str = "2.16.840.1.101.3.4.2.11";

/// The identifier [`SHAKE128`].
#[tactic(auto, using(crate::specs::Identifiers::shake128_text))]
pub fn shake128(alloc: Global) -> Result<ObjectIdentifier, AllocError>
    ensures { IsNamed oids.shake128 SHAKE128.now result }
{
    identifier(alloc, &[2, 16, 840, 1, 101, 3, 4, 2, 11])
}

/// The extendable output function SHAKE256 (NIST's Computer Security Objects Register, hashAlgs).
pub const SHAKE256: &str = "2.16.840.1.101.3.4.2.12";

/// The identifier [`SHAKE256`].
#[tactic(auto, using(crate::specs::Identifiers::shake256_text))]
pub fn shake256(alloc: Global) -> Result<ObjectIdentifier, AllocError>
    ensures { IsNamed oids.shake256 SHAKE256.now result }
{
    identifier(alloc, &[2, 16, 840, 1, 101, 3, 4, 2, 12])
}

/// ECDSA signatures over SHA3-224 (NIST's register, sigAlgs).
pub const ECDSA_WITH_SHA3_224: &str = "2.16.840.1.101.3.4.3.9";

/// The identifier [`ECDSA_WITH_SHA3_224`].
#[tactic(auto, using(crate::specs::Identifiers::ecdsa_with_sha3_224_text))]
pub fn ecdsa_with_sha3_224(alloc: Global) -> Result<ObjectIdentifier, AllocError>
    ensures { IsNamed oids.ecdsa_with_sha3_224 ECDSA_WITH_SHA3_224.now result }
{
    identifier(alloc, &[2, 16, 840, 1, 101, 3, 4, 3, 9])
}

/// ECDSA signatures over SHA3-256 (NIST's register, sigAlgs).
pub const ECDSA_WITH_SHA3_256: &str = "2.16.840.1.101.3.4.3.10";

/// The identifier [`ECDSA_WITH_SHA3_256`].
#[tactic(auto, using(crate::specs::Identifiers::ecdsa_with_sha3_256_text))]
pub fn ecdsa_with_sha3_256(alloc: Global) -> Result<ObjectIdentifier, AllocError>
    ensures { IsNamed oids.ecdsa_with_sha3_256 ECDSA_WITH_SHA3_256.now result }
{
    identifier(alloc, &[2, 16, 840, 1, 101, 3, 4, 3, 10])
}

/// ECDSA signatures over SHA3-384 (NIST's register, sigAlgs).
pub const ECDSA_WITH_SHA3_384: &str = "2.16.840.1.101.3.4.3.11";

/// The identifier [`ECDSA_WITH_SHA3_384`].
#[tactic(auto, using(crate::specs::Identifiers::ecdsa_with_sha3_384_text))]
pub fn ecdsa_with_sha3_384(alloc: Global) -> Result<ObjectIdentifier, AllocError>
    ensures { IsNamed oids.ecdsa_with_sha3_384 ECDSA_WITH_SHA3_384.now result }
{
    identifier(alloc, &[2, 16, 840, 1, 101, 3, 4, 3, 11])
}

/// ECDSA signatures over SHA3-512 (NIST's register, sigAlgs).
pub const ECDSA_WITH_SHA3_512: &str = "2.16.840.1.101.3.4.3.12";

/// The identifier [`ECDSA_WITH_SHA3_512`].
#[tactic(auto, using(crate::specs::Identifiers::ecdsa_with_sha3_512_text))]
pub fn ecdsa_with_sha3_512(alloc: Global) -> Result<ObjectIdentifier, AllocError>
    ensures { IsNamed oids.ecdsa_with_sha3_512 ECDSA_WITH_SHA3_512.now result }
{
    identifier(alloc, &[2, 16, 840, 1, 101, 3, 4, 3, 12])
}

/// RSA signatures over SHA3-224 (NIST's register, sigAlgs).
pub const SHA3_224_WITH_RSA_ENCRYPTION: &str = "2.16.840.1.101.3.4.3.13";

/// The identifier [`SHA3_224_WITH_RSA_ENCRYPTION`].
#[tactic(auto, using(crate::specs::Identifiers::sha3_224_with_rsa_encryption_text))]
pub fn sha3_224_with_rsa_encryption(alloc: Global) -> Result<ObjectIdentifier, AllocError>
    ensures { IsNamed oids.sha3_224_with_rsa_encryption SHA3_224_WITH_RSA_ENCRYPTION.now result }
{
    identifier(alloc, &[2, 16, 840, 1, 101, 3, 4, 3, 13])
}

/// RSA signatures over SHA3-256 (NIST's register, sigAlgs).
pub const SHA3_256_WITH_RSA_ENCRYPTION: &str = "2.16.840.1.101.3.4.3.14";

/// The identifier [`SHA3_256_WITH_RSA_ENCRYPTION`].
#[tactic(auto, using(crate::specs::Identifiers::sha3_256_with_rsa_encryption_text))]
pub fn sha3_256_with_rsa_encryption(alloc: Global) -> Result<ObjectIdentifier, AllocError>
    ensures { IsNamed oids.sha3_256_with_rsa_encryption SHA3_256_WITH_RSA_ENCRYPTION.now result }
{
    identifier(alloc, &[2, 16, 840, 1, 101, 3, 4, 3, 14])
}

/// RSA signatures over SHA3-384 (NIST's register, sigAlgs).
pub const SHA3_384_WITH_RSA_ENCRYPTION: &str = "2.16.840.1.101.3.4.3.15";

/// The identifier [`SHA3_384_WITH_RSA_ENCRYPTION`].
#[tactic(auto, using(crate::specs::Identifiers::sha3_384_with_rsa_encryption_text))]
pub fn sha3_384_with_rsa_encryption(alloc: Global) -> Result<ObjectIdentifier, AllocError>
    ensures { IsNamed oids.sha3_384_with_rsa_encryption SHA3_384_WITH_RSA_ENCRYPTION.now result }
{
    identifier(alloc, &[2, 16, 840, 1, 101, 3, 4, 3, 15])
}

/// RSA signatures over SHA3-512 (NIST's register, sigAlgs).
pub const SHA3_512_WITH_RSA_ENCRYPTION: &str = "2.16.840.1.101.3.4.3.16";

/// The identifier [`SHA3_512_WITH_RSA_ENCRYPTION`].
#[tactic(auto, using(crate::specs::Identifiers::sha3_512_with_rsa_encryption_text))]
pub fn sha3_512_with_rsa_encryption(alloc: Global) -> Result<ObjectIdentifier, AllocError>
    ensures { IsNamed oids.sha3_512_with_rsa_encryption SHA3_512_WITH_RSA_ENCRYPTION.now result }
{
    identifier(alloc, &[2, 16, 840, 1, 101, 3, 4, 3, 16])
}

/// ML-DSA-44 keys and signatures (RFC 9881, section 2).
pub const ML_DSA_44: &str = "2.16.840.1.101.3.4.3.17";

/// The identifier [`ML_DSA_44`].
#[tactic(auto, using(crate::specs::Identifiers::ml_dsa_44_text))]
pub fn ml_dsa_44(alloc: Global) -> Result<ObjectIdentifier, AllocError>
    ensures { IsNamed oids.ml_dsa_44 ML_DSA_44.now result }
{
    identifier(alloc, &[2, 16, 840, 1, 101, 3, 4, 3, 17])
}

/// ML-DSA-65 keys and signatures (RFC 9881, section 2).
pub const ML_DSA_65: &str = "2.16.840.1.101.3.4.3.18";

/// The identifier [`ML_DSA_65`].
#[tactic(auto, using(crate::specs::Identifiers::ml_dsa_65_text))]
pub fn ml_dsa_65(alloc: Global) -> Result<ObjectIdentifier, AllocError>
    ensures { IsNamed oids.ml_dsa_65 ML_DSA_65.now result }
{
    identifier(alloc, &[2, 16, 840, 1, 101, 3, 4, 3, 18])
}

/// ML-DSA-87 keys and signatures (RFC 9881, section 2).
pub const ML_DSA_87: &str = "2.16.840.1.101.3.4.3.19";

/// The identifier [`ML_DSA_87`].
#[tactic(auto, using(crate::specs::Identifiers::ml_dsa_87_text))]
pub fn ml_dsa_87(alloc: Global) -> Result<ObjectIdentifier, AllocError>
    ensures { IsNamed oids.ml_dsa_87 ML_DSA_87.now result }
{
    identifier(alloc, &[2, 16, 840, 1, 101, 3, 4, 3, 19])
}

/// AES-128, ECB (NIST's register, aes).
pub const AES128_ECB: &str = "2.16.840.1.101.3.4.1.1";

/// The identifier [`AES128_ECB`].
#[tactic(auto, using(crate::specs::Identifiers::aes128_ecb_text))]
pub fn aes128_ecb(alloc: Global) -> Result<ObjectIdentifier, AllocError>
    ensures { IsNamed oids.aes128_ecb AES128_ECB.now result }
{
    identifier(alloc, &[2, 16, 840, 1, 101, 3, 4, 1, 1])
}

/// AES-128, CBC (NIST's register, aes).
pub const AES128_CBC: &str = "2.16.840.1.101.3.4.1.2";

/// The identifier [`AES128_CBC`].
#[tactic(auto, using(crate::specs::Identifiers::aes128_cbc_text))]
pub fn aes128_cbc(alloc: Global) -> Result<ObjectIdentifier, AllocError>
    ensures { IsNamed oids.aes128_cbc AES128_CBC.now result }
{
    identifier(alloc, &[2, 16, 840, 1, 101, 3, 4, 1, 2])
}

/// AES-128, OFB (NIST's register, aes).
pub const AES128_OFB: &str = "2.16.840.1.101.3.4.1.3";

/// The identifier [`AES128_OFB`].
#[tactic(auto, using(crate::specs::Identifiers::aes128_ofb_text))]
pub fn aes128_ofb(alloc: Global) -> Result<ObjectIdentifier, AllocError>
    ensures { IsNamed oids.aes128_ofb AES128_OFB.now result }
{
    identifier(alloc, &[2, 16, 840, 1, 101, 3, 4, 1, 3])
}

/// AES-128, CFB (NIST's register, aes).
pub const AES128_CFB: &str = "2.16.840.1.101.3.4.1.4";

/// The identifier [`AES128_CFB`].
#[tactic(auto, using(crate::specs::Identifiers::aes128_cfb_text))]
pub fn aes128_cfb(alloc: Global) -> Result<ObjectIdentifier, AllocError>
    ensures { IsNamed oids.aes128_cfb AES128_CFB.now result }
{
    identifier(alloc, &[2, 16, 840, 1, 101, 3, 4, 1, 4])
}

/// AES-128, key wrap (NIST's register, aes).
pub const AES128_WRAP: &str = "2.16.840.1.101.3.4.1.5";

/// The identifier [`AES128_WRAP`].
#[tactic(auto, using(crate::specs::Identifiers::aes128_wrap_text))]
pub fn aes128_wrap(alloc: Global) -> Result<ObjectIdentifier, AllocError>
    ensures { IsNamed oids.aes128_wrap AES128_WRAP.now result }
{
    identifier(alloc, &[2, 16, 840, 1, 101, 3, 4, 1, 5])
}

/// AES-128, GCM (NIST's register, aes).
pub const AES128_GCM: &str = "2.16.840.1.101.3.4.1.6";

/// The identifier [`AES128_GCM`].
#[tactic(auto, using(crate::specs::Identifiers::aes128_gcm_text))]
pub fn aes128_gcm(alloc: Global) -> Result<ObjectIdentifier, AllocError>
    ensures { IsNamed oids.aes128_gcm AES128_GCM.now result }
{
    identifier(alloc, &[2, 16, 840, 1, 101, 3, 4, 1, 6])
}

/// AES-128, CCM (NIST's register, aes).
pub const AES128_CCM: &str = "2.16.840.1.101.3.4.1.7";

/// The identifier [`AES128_CCM`].
#[tactic(auto, using(crate::specs::Identifiers::aes128_ccm_text))]
pub fn aes128_ccm(alloc: Global) -> Result<ObjectIdentifier, AllocError>
    ensures { IsNamed oids.aes128_ccm AES128_CCM.now result }
{
    identifier(alloc, &[2, 16, 840, 1, 101, 3, 4, 1, 7])
}

/// AES-128, key wrap with padding (NIST's register, aes).
pub const AES128_WRAP_PAD: &str = "2.16.840.1.101.3.4.1.8";

/// The identifier [`AES128_WRAP_PAD`].
#[tactic(auto, using(crate::specs::Identifiers::aes128_wrap_pad_text))]
pub fn aes128_wrap_pad(alloc: Global) -> Result<ObjectIdentifier, AllocError>
    ensures { IsNamed oids.aes128_wrap_pad AES128_WRAP_PAD.now result }
{
    identifier(alloc, &[2, 16, 840, 1, 101, 3, 4, 1, 8])
}

/// AES-192, ECB (NIST's register, aes).
pub const AES192_ECB: &str = "2.16.840.1.101.3.4.1.21";

/// The identifier [`AES192_ECB`].
#[tactic(auto, using(crate::specs::Identifiers::aes192_ecb_text))]
pub fn aes192_ecb(alloc: Global) -> Result<ObjectIdentifier, AllocError>
    ensures { IsNamed oids.aes192_ecb AES192_ECB.now result }
{
    identifier(alloc, &[2, 16, 840, 1, 101, 3, 4, 1, 21])
}

/// AES-192, CBC (NIST's register, aes).
pub const AES192_CBC: &str = "2.16.840.1.101.3.4.1.22";

/// The identifier [`AES192_CBC`].
#[tactic(auto, using(crate::specs::Identifiers::aes192_cbc_text))]
pub fn aes192_cbc(alloc: Global) -> Result<ObjectIdentifier, AllocError>
    ensures { IsNamed oids.aes192_cbc AES192_CBC.now result }
{
    identifier(alloc, &[2, 16, 840, 1, 101, 3, 4, 1, 22])
}

/// AES-192, OFB (NIST's register, aes).
pub const AES192_OFB: &str = "2.16.840.1.101.3.4.1.23";

/// The identifier [`AES192_OFB`].
#[tactic(auto, using(crate::specs::Identifiers::aes192_ofb_text))]
pub fn aes192_ofb(alloc: Global) -> Result<ObjectIdentifier, AllocError>
    ensures { IsNamed oids.aes192_ofb AES192_OFB.now result }
{
    identifier(alloc, &[2, 16, 840, 1, 101, 3, 4, 1, 23])
}

/// AES-192, CFB (NIST's register, aes).
pub const AES192_CFB: &str = "2.16.840.1.101.3.4.1.24";

/// The identifier [`AES192_CFB`].
#[tactic(auto, using(crate::specs::Identifiers::aes192_cfb_text))]
pub fn aes192_cfb(alloc: Global) -> Result<ObjectIdentifier, AllocError>
    ensures { IsNamed oids.aes192_cfb AES192_CFB.now result }
{
    identifier(alloc, &[2, 16, 840, 1, 101, 3, 4, 1, 24])
}

/// AES-192, key wrap (NIST's register, aes).
pub const AES192_WRAP: &str = "2.16.840.1.101.3.4.1.25";

/// The identifier [`AES192_WRAP`].
#[tactic(auto, using(crate::specs::Identifiers::aes192_wrap_text))]
pub fn aes192_wrap(alloc: Global) -> Result<ObjectIdentifier, AllocError>
    ensures { IsNamed oids.aes192_wrap AES192_WRAP.now result }
{
    identifier(alloc, &[2, 16, 840, 1, 101, 3, 4, 1, 25])
}

/// AES-192, GCM (NIST's register, aes).
pub const AES192_GCM: &str = "2.16.840.1.101.3.4.1.26";

/// The identifier [`AES192_GCM`].
#[tactic(auto, using(crate::specs::Identifiers::aes192_gcm_text))]
pub fn aes192_gcm(alloc: Global) -> Result<ObjectIdentifier, AllocError>
    ensures { IsNamed oids.aes192_gcm AES192_GCM.now result }
{
    identifier(alloc, &[2, 16, 840, 1, 101, 3, 4, 1, 26])
}

/// AES-192, CCM (NIST's register, aes).
pub const AES192_CCM: &str = "2.16.840.1.101.3.4.1.27";

/// The identifier [`AES192_CCM`].
#[tactic(auto, using(crate::specs::Identifiers::aes192_ccm_text))]
pub fn aes192_ccm(alloc: Global) -> Result<ObjectIdentifier, AllocError>
    ensures { IsNamed oids.aes192_ccm AES192_CCM.now result }
{
    identifier(alloc, &[2, 16, 840, 1, 101, 3, 4, 1, 27])
}

/// AES-192, key wrap with padding (NIST's register, aes).
pub const AES192_WRAP_PAD: &str = "2.16.840.1.101.3.4.1.28";

/// The identifier [`AES192_WRAP_PAD`].
#[tactic(auto, using(crate::specs::Identifiers::aes192_wrap_pad_text))]
pub fn aes192_wrap_pad(alloc: Global) -> Result<ObjectIdentifier, AllocError>
    ensures { IsNamed oids.aes192_wrap_pad AES192_WRAP_PAD.now result }
{
    identifier(alloc, &[2, 16, 840, 1, 101, 3, 4, 1, 28])
}

/// AES-256, ECB (NIST's register, aes).
pub const AES256_ECB: &str = "2.16.840.1.101.3.4.1.41";

/// The identifier [`AES256_ECB`].
#[tactic(auto, using(crate::specs::Identifiers::aes256_ecb_text))]
pub fn aes256_ecb(alloc: Global) -> Result<ObjectIdentifier, AllocError>
    ensures { IsNamed oids.aes256_ecb AES256_ECB.now result }
{
    identifier(alloc, &[2, 16, 840, 1, 101, 3, 4, 1, 41])
}

/// AES-256, CBC (NIST's register, aes).
pub const AES256_CBC: &str = "2.16.840.1.101.3.4.1.42";

/// The identifier [`AES256_CBC`].
#[tactic(auto, using(crate::specs::Identifiers::aes256_cbc_text))]
pub fn aes256_cbc(alloc: Global) -> Result<ObjectIdentifier, AllocError>
    ensures { IsNamed oids.aes256_cbc AES256_CBC.now result }
{
    identifier(alloc, &[2, 16, 840, 1, 101, 3, 4, 1, 42])
}

/// AES-256, OFB (NIST's register, aes).
pub const AES256_OFB: &str = "2.16.840.1.101.3.4.1.43";

/// The identifier [`AES256_OFB`].
#[tactic(auto, using(crate::specs::Identifiers::aes256_ofb_text))]
pub fn aes256_ofb(alloc: Global) -> Result<ObjectIdentifier, AllocError>
    ensures { IsNamed oids.aes256_ofb AES256_OFB.now result }
{
    identifier(alloc, &[2, 16, 840, 1, 101, 3, 4, 1, 43])
}

/// AES-256, CFB (NIST's register, aes).
pub const AES256_CFB: &str = "2.16.840.1.101.3.4.1.44";

/// The identifier [`AES256_CFB`].
#[tactic(auto, using(crate::specs::Identifiers::aes256_cfb_text))]
pub fn aes256_cfb(alloc: Global) -> Result<ObjectIdentifier, AllocError>
    ensures { IsNamed oids.aes256_cfb AES256_CFB.now result }
{
    identifier(alloc, &[2, 16, 840, 1, 101, 3, 4, 1, 44])
}

/// AES-256, key wrap (NIST's register, aes).
pub const AES256_WRAP: &str = "2.16.840.1.101.3.4.1.45";

/// The identifier [`AES256_WRAP`].
#[tactic(auto, using(crate::specs::Identifiers::aes256_wrap_text))]
pub fn aes256_wrap(alloc: Global) -> Result<ObjectIdentifier, AllocError>
    ensures { IsNamed oids.aes256_wrap AES256_WRAP.now result }
{
    identifier(alloc, &[2, 16, 840, 1, 101, 3, 4, 1, 45])
}

/// AES-256, GCM (NIST's register, aes).
pub const AES256_GCM: &str = "2.16.840.1.101.3.4.1.46";

/// The identifier [`AES256_GCM`].
#[tactic(auto, using(crate::specs::Identifiers::aes256_gcm_text))]
pub fn aes256_gcm(alloc: Global) -> Result<ObjectIdentifier, AllocError>
    ensures { IsNamed oids.aes256_gcm AES256_GCM.now result }
{
    identifier(alloc, &[2, 16, 840, 1, 101, 3, 4, 1, 46])
}

/// AES-256, CCM (NIST's register, aes).
pub const AES256_CCM: &str = "2.16.840.1.101.3.4.1.47";

/// The identifier [`AES256_CCM`].
#[tactic(auto, using(crate::specs::Identifiers::aes256_ccm_text))]
pub fn aes256_ccm(alloc: Global) -> Result<ObjectIdentifier, AllocError>
    ensures { IsNamed oids.aes256_ccm AES256_CCM.now result }
{
    identifier(alloc, &[2, 16, 840, 1, 101, 3, 4, 1, 47])
}

/// AES-256, key wrap with padding (NIST's register, aes).
pub const AES256_WRAP_PAD: &str = "2.16.840.1.101.3.4.1.48";

/// The identifier [`AES256_WRAP_PAD`].
#[tactic(auto, using(crate::specs::Identifiers::aes256_wrap_pad_text))]
pub fn aes256_wrap_pad(alloc: Global) -> Result<ObjectIdentifier, AllocError>
    ensures { IsNamed oids.aes256_wrap_pad AES256_WRAP_PAD.now result }
{
    identifier(alloc, &[2, 16, 840, 1, 101, 3, 4, 1, 48])
}

/// DSA signatures over SHA-1 (RFC 3279, section 2.2.2).
pub const DSA_WITH_SHA1: &str = "1.2.840.10040.4.3";

/// The identifier [`DSA_WITH_SHA1`].
#[tactic(auto, using(crate::specs::Identifiers::dsa_with_sha1_text))]
pub fn dsa_with_sha1(alloc: Global) -> Result<ObjectIdentifier, AllocError>
    ensures { IsNamed oids.dsa_with_sha1 DSA_WITH_SHA1.now result }
{
    identifier(alloc, &[1, 2, 840, 10040, 4, 3])
}

/// A key of an elliptic curve (RFC 5480, section 2.1.1).
pub const EC_PUBLIC_KEY: &str = "1.2.840.10045.2.1";

/// The identifier [`EC_PUBLIC_KEY`].
#[tactic(auto, using(crate::specs::Identifiers::ec_public_key_text))]
pub fn ec_public_key(alloc: Global) -> Result<ObjectIdentifier, AllocError>
    ensures { IsNamed oids.ec_public_key EC_PUBLIC_KEY.now result }
{
    identifier(alloc, &[1, 2, 840, 10045, 2, 1])
}

/// ECDSA signatures over SHA-256 (RFC 5758, section 3.2).
pub const ECDSA_WITH_SHA256: &str = "1.2.840.10045.4.3.2";

/// The identifier [`ECDSA_WITH_SHA256`].
#[tactic(auto, using(crate::specs::Identifiers::ecdsa_with_sha256_text))]
pub fn ecdsa_with_sha256(alloc: Global) -> Result<ObjectIdentifier, AllocError>
    ensures { IsNamed oids.ecdsa_with_sha256 ECDSA_WITH_SHA256.now result }
{
    identifier(alloc, &[1, 2, 840, 10045, 4, 3, 2])
}

/// ECDSA signatures over SHA-384 (RFC 5758, section 3.2).
pub const ECDSA_WITH_SHA384: &str = "1.2.840.10045.4.3.3";

/// The identifier [`ECDSA_WITH_SHA384`].
#[tactic(auto, using(crate::specs::Identifiers::ecdsa_with_sha384_text))]
pub fn ecdsa_with_sha384(alloc: Global) -> Result<ObjectIdentifier, AllocError>
    ensures { IsNamed oids.ecdsa_with_sha384 ECDSA_WITH_SHA384.now result }
{
    identifier(alloc, &[1, 2, 840, 10045, 4, 3, 3])
}

/// ECDSA signatures over SHA-512 (RFC 5758, section 3.2).
pub const ECDSA_WITH_SHA512: &str = "1.2.840.10045.4.3.4";

/// The identifier [`ECDSA_WITH_SHA512`].
#[tactic(auto, using(crate::specs::Identifiers::ecdsa_with_sha512_text))]
pub fn ecdsa_with_sha512(alloc: Global) -> Result<ObjectIdentifier, AllocError>
    ensures { IsNamed oids.ecdsa_with_sha512 ECDSA_WITH_SHA512.now result }
{
    identifier(alloc, &[1, 2, 840, 10045, 4, 3, 4])
}

/// The curve P-256 (RFC 5480, section 2.1.1.1).
pub const SECP256R1: &str = "1.2.840.10045.3.1.7";

/// The identifier [`SECP256R1`].
#[tactic(auto, using(crate::specs::Identifiers::secp256r1_text))]
pub fn secp256r1(alloc: Global) -> Result<ObjectIdentifier, AllocError>
    ensures { IsNamed oids.secp256r1 SECP256R1.now result }
{
    identifier(alloc, &[1, 2, 840, 10045, 3, 1, 7])
}

/// The curve P-384 (RFC 5480, section 2.1.1.1).
pub const SECP384R1: &str = "1.3.132.0.34";

/// The identifier [`SECP384R1`].
#[tactic(auto, using(crate::specs::Identifiers::secp384r1_text))]
pub fn secp384r1(alloc: Global) -> Result<ObjectIdentifier, AllocError>
    ensures { IsNamed oids.secp384r1 SECP384R1.now result }
{
    identifier(alloc, &[1, 3, 132, 0, 34])
}

/// The curve P-521 (RFC 5480, section 2.1.1.1).
pub const SECP521R1: &str = "1.3.132.0.35";

/// The identifier [`SECP521R1`].
#[tactic(auto, using(crate::specs::Identifiers::secp521r1_text))]
pub fn secp521r1(alloc: Global) -> Result<ObjectIdentifier, AllocError>
    ensures { IsNamed oids.secp521r1 SECP521R1.now result }
{
    identifier(alloc, &[1, 3, 132, 0, 35])
}

/// Keys of X25519 (RFC 8410, section 3).
pub const X25519: &str = "1.3.101.110";

/// The identifier [`X25519`].
#[tactic(auto, using(crate::specs::Identifiers::x25519_text))]
pub fn x25519(alloc: Global) -> Result<ObjectIdentifier, AllocError>
    ensures { IsNamed oids.x25519 X25519.now result }
{
    identifier(alloc, &[1, 3, 101, 110])
}

/// Keys of X448 (RFC 8410, section 3).
pub const X448: &str = "1.3.101.111";

/// The identifier [`X448`].
#[tactic(auto, using(crate::specs::Identifiers::x448_text))]
pub fn x448(alloc: Global) -> Result<ObjectIdentifier, AllocError>
    ensures { IsNamed oids.x448 X448.now result }
{
    identifier(alloc, &[1, 3, 101, 111])
}

/// Keys and signatures of Ed25519 (RFC 8410, section 3).
pub const ED25519: &str = "1.3.101.112";

/// The identifier [`ED25519`].
#[tactic(auto, using(crate::specs::Identifiers::ed25519_text))]
pub fn ed25519(alloc: Global) -> Result<ObjectIdentifier, AllocError>
    ensures { IsNamed oids.ed25519 ED25519.now result }
{
    identifier(alloc, &[1, 3, 101, 112])
}

/// Keys and signatures of Ed448 (RFC 8410, section 3).
pub const ED448: &str = "1.3.101.113";

/// The identifier [`ED448`].
#[tactic(auto, using(crate::specs::Identifiers::ed448_text))]
pub fn ed448(alloc: Global) -> Result<ObjectIdentifier, AllocError>
    ensures { IsNamed oids.ed448 ED448.now result }
{
    identifier(alloc, &[1, 3, 101, 113])
}
