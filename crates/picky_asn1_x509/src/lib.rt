//! X.509 values under the names and paths of the ported crate.
//!
//! [`from_bytes`] reads a value from every spelling that is accepted for it. [`deviations`] counts what deviates there.
//! [`to_vec`] writes the strict spelling, and [`encoded_len`] returns its length.
//!
//! This crate has no contract of its own. Each item is one of a crate below, with its contract there.
#![tactic(auto)]

pub use picky_asn1::oid;
pub use x509_algorithms::{
    AesAuthEncParams, AesMode, AesParameters, AlgorithmIdentifier, AlgorithmIdentifierParameters,
    DigestInfo, EcParameters, HashAlgorithm, MaskGenAlgorithm, RsassaPssParams, ShaVariant,
    UnsupportedAlgorithmError,
};
pub use x509_certificates::{
    AnyValues, Attribute, AttributeValues, Attributes, AuthorityKeyIdentifier, Certificate,
    CertificateExtensions, CertificationRequest, CertificationRequestInfo, ExtendedKeyUsage,
    Extension, ExtensionValue, ExtensionView, Extensions, IssuerAltName, KeyIdentifier, KeyUsage,
    OpenSslAttributes, RequestedExtensions, SubjectAltName, SubjectKeyIdentifier, TbsCertificate,
};
pub use x509_codec::{Signed, deviations, encoded_len, from_bytes, to_vec, with_signed_part};
pub use x509_fields::{
    AttributeTypeAndValue, AttributeTypeAndValueParameters, AttributeValue, BasicConstraints,
    DirectoryName, DirectoryString, EdiPartyName, GeneralName, GeneralNames, Name, NameAttr,
    NamePrettyFormatter, OtherName, RawAlgorithmIdentifier, RdnSequence, RelativeDistinguishedName,
    Rfc4514, Time, Validity, Version,
};
pub use x509_keys::{
    ECPrivateKey, EcPoint, EncapsulatedEcPoint, EncapsulatedEcSecret, EncapsulatedMldsaPublicKey,
    EncapsulatedRsaPublicKey, PRIVATE_KEY_INFO_VERSION_1, PRIVATE_KEY_INFO_VERSION_2,
    PrivateKeyInfo, PrivateKeyValue, PublicKey, RsaPrivateKey, RsaPublicKey, SubjectPublicKeyInfo,
};
pub use x509_oids as oids;
pub use x509_spelling::{Spelled, X509Fault};
