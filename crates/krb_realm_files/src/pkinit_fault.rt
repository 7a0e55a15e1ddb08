//! Why octets are not what logins by certificate are answered by.
use rsa_keys::RsaKeyRefusal;
use thiserror::Error;

/// Why octets are not what logins by certificate are answered by.
#[derive(Clone, Copy, Debug, Drop, PartialEq, Eq, Error)]
pub enum PkinitFault {
    /// They are other than three elements of DER.
    #[error("expected DER of a certificate, of a private key and of an anchor, and no more")]
    NotThree,
    /// The KDC's certificate is none.
    #[error("the KDC's certificate is none: expected a certificate of X.509 in DER")]
    Certificate,
    /// The private key is none.
    #[error("the private key is none: expected a private key of PKCS#1 in DER")]
    Key,
    /// The private key is refused.
    #[error("the private key is refused: {0}: expected an RSA key of 2,048 to 4,096 bits")]
    Refused(RsaKeyRefusal),
    /// The private key is another one than the certificate's.
    #[error("the private key is not the certificate's: expected the key of its public key")]
    OtherKey,
    /// The anchor is none.
    #[error("the anchor is none: expected a certificate of X.509 in DER")]
    Anchor,
    /// Memory ran out.
    #[error("out of memory")]
    Memory,
}
