//! Certificates with their extensions (RFC 5280, sections 4.1 and 4.2), requests for them (RFC 2986), and attributes of requests and of
//! signed data (RFC 2985, section 5; RFC 5652, section 11). Files of certificates and of private RSA keys: DER, or PEM (RFC 7468).
//!
//! [`certificate_in`] finds the DER of a certificate, and [`private_key_in`] reads a private key of PKCS#8 (RFC 5958) or PKCS#1 (RFC
//! 8017). A file is PEM if `-----BEGIN ` is in it, or if it is text in UTF-8. Any other is DER as a whole. An encrypted key is refused by
//! name.
//!
//! Each type is read from each accepted spelling, its deviations are counted, and it is written in DER (`Spelled`). The value of an
//! extension and those of an attribute have the type that the identifier decides. An unknown extension keeps its octets, and the values of
//! an unknown attribute are elements of any type. The makers of `Extension` return a noncritical extension of that identifier and value,
//! those of `Attribute` that identifier and one value (`IsMade`). A setter of `KeyUsage` changes that one use (`IsSet`), or nothing where
//! it fails. `with_signed_part` also returns the signed bytes as they are in the input, and never a new encoding. A reader of `Certificate`
//! returns the first extension of its kind. `with_attribute` and `add_attribute` append the attribute to those of a request.
//! In PEM the first boundary of a label counts, and text outside boundaries is passed over. Between them white space may stand anywhere
//! (RFC 7468, section 3: a lax parser). Without it they enclose the one base64 text of the DER. What is answered is in the file so. A
//! refusal says what the file has in its place: no boundary, one that isn't ended, no base64, an encrypted key, a key for another
//! algorithm than RSA, or DER that is neither.
#![tactic(auto)]

mod any_values;
mod attribute;
mod attribute_values;
mod attributes;
mod authority_field;
mod authority_key_identifier;
mod certificate;
mod certificate_extensions;
mod certification_request;
mod certification_request_info;
mod extended_key_usage;
mod extension;
mod extension_value;
mod extension_view;
mod extensions;
mod fault;
mod files;
mod held;
mod key_usage;
mod key_usage_text;
mod open_ssl_attributes;
mod pem;
mod requested_extensions;
mod spelled_list;
mod tbs_certificate;
mod version_field;

pub use any_values::AnyValues;
pub use attribute::Attribute;
pub use attribute_values::AttributeValues;
pub use attributes::Attributes;
pub use authority_field::AuthorityField;
pub use authority_key_identifier::AuthorityKeyIdentifier;
pub use certificate::Certificate;
pub use certificate_extensions::CertificateExtensions;
pub use certification_request::CertificationRequest;
pub use certification_request_info::CertificationRequestInfo;
pub use extended_key_usage::ExtendedKeyUsage;
pub use extension::Extension;
pub use extension_value::{
    ExtensionValue, IssuerAltName, KeyIdentifier, SubjectAltName, SubjectKeyIdentifier,
};
pub use extension_view::ExtensionView;
pub use extensions::Extensions;
pub use fault::FileFault;
pub use files::{certificate_in, private_key_in};
pub use key_usage::KeyUsage;
pub use open_ssl_attributes::OpenSslAttributes;
pub use pem::{Found, Label, found_under};
pub use requested_extensions::RequestedExtensions;
pub use spelled_list::{ListElement, SpelledList};
pub use tbs_certificate::TbsCertificate;
pub use version_field::VersionField;
