//! Why keys and signatures are refused.
use thiserror::Error;

/// Why a key is refused.
#[derive(Clone, Copy, Debug, Drop, PartialEq, Eq, Error)]
pub enum RsaKeyRefusal {
    /// The key isn't one of RSA.
    #[error("the key is not an RSA key")]
    NotRsa,
    /// The modulus or the public exponent is negative.
    #[error("the RSA key's modulus or public exponent is negative")]
    NegativeNumber,
    /// The modulus has fewer than 2,048 bits.
    #[error("the RSA key has fewer than 2,048 bits")]
    KeyTooWeak,
    /// The modulus has more than 4,096 bits.
    #[error("the RSA key has more than 4,096 bits")]
    ModulusTooLong,
    /// The modulus is even.
    #[error("the RSA key's modulus is even")]
    EvenModulus,
    /// The public exponent is 0 or 1.
    #[error("the RSA key's public exponent is 0 or 1")]
    ExponentTooSmall,
    /// The public exponent is even.
    #[error("the RSA key's public exponent is even")]
    EvenExponent,
    /// The public exponent has more than 64 bits.
    #[error("the RSA key's public exponent has more than 64 bits")]
    ExponentTooLong,
    /// A zero octet is in front of a number, as of none that is read.
    #[error("the RSA key's modulus or public exponent has a zero octet in front")]
    ZeroInFront,
}

/// Why a signature is refused.
#[derive(Clone, Copy, Debug, Drop, PartialEq, Eq, Error)]
pub enum SignatureRefusal {
    /// The algorithm is RSA with MD5.
    #[error("the signature is over MD5, which is too weak")]
    Md5,
    /// The algorithm is RSA with SHA-1.
    #[error("the signature is over SHA-1, which is too weak")]
    Sha1,
    /// The algorithm isn't RSASSA-PKCS1-v1_5 with SHA-256, SHA-384 or SHA-512.
    #[error("the signature's algorithm is not RSA with SHA-256, SHA-384 or SHA-512")]
    OtherAlgorithm,
    /// The key is refused.
    #[error("{0}")]
    Key(RsaKeyRefusal),
    /// The signature isn't the key's over these bytes.
    #[error("the signature is not valid")]
    NotValid,
}
