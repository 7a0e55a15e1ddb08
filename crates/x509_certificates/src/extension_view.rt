//! Values of extensions, borrowed.
ghost use Rattle.std.specs.Prelude.{◌≡◌};
ghost use Rattle.x509_certificates.specs.ExtensionViews.{IsViewOf};

use crate::authority_key_identifier::AuthorityKeyIdentifier;
use crate::extended_key_usage::ExtendedKeyUsage;
use crate::extension_value::{ExtensionValue, IssuerAltName, SubjectAltName, SubjectKeyIdentifier};
use crate::key_usage::KeyUsage;
use picky_asn1::wrapper::{IntegerAsn1, OctetStringAsn1, OctetStringAsn1Container};
use x509_fields::BasicConstraints;

/// The value of an extension, without the octet string around it.
#[derive(Clone, Copy, Debug, PartialEq, Eq)]
pub enum ExtensionView<'a> {
    /// The key that signed the certificate.
    AuthorityKeyIdentifier(&'a AuthorityKeyIdentifier),
    /// The subject's key.
    SubjectKeyIdentifier(&'a SubjectKeyIdentifier),
    /// What the key may be used for.
    KeyUsage(&'a KeyUsage),
    /// Further names of the subject.
    SubjectAltName(&'a SubjectAltName),
    /// Further names of the issuer.
    IssuerAltName(&'a IssuerAltName),
    /// Whether the subject is an authority.
    BasicConstraints(&'a BasicConstraints),
    /// The purposes of the key.
    ExtendedKeyUsage(&'a ExtendedKeyUsage),
    /// The octets of another extension.
    Generic(&'a OctetStringAsn1),
    /// The number of a list of revoked certificates.
    CrlNumber(&'a OctetStringAsn1Container<IntegerAsn1>),
}

impl<'a> From<&'a ExtensionValue> for ExtensionView<'a> {
    ghost from_gives = { λ value view. IsViewOf view value.now };

    fn from(value: &'a ExtensionValue) -> ExtensionView<'a> {
        match value {
            ExtensionValue::AuthorityKeyIdentifier(held) => ExtensionView::AuthorityKeyIdentifier(
                &held.0,
            ),
            ExtensionValue::SubjectKeyIdentifier(held) => ExtensionView::SubjectKeyIdentifier(
                &held.0,
            ),
            ExtensionValue::KeyUsage(held) => ExtensionView::KeyUsage(&held.0),
            ExtensionValue::SubjectAltName(held) => ExtensionView::SubjectAltName(&held.0),
            ExtensionValue::IssuerAltName(held) => ExtensionView::IssuerAltName(&held.0),
            ExtensionValue::BasicConstraints(held) => ExtensionView::BasicConstraints(&held.0),
            ExtensionValue::ExtendedKeyUsage(held) => ExtensionView::ExtendedKeyUsage(&held.0),
            ExtensionValue::CrlNumber(number) => ExtensionView::CrlNumber(number),
            ExtensionValue::Generic(octets) => ExtensionView::Generic(octets),
        }
    }
}
