//! Values of extensions (RFC 5280, section 4.2.1).
ghost use Rattle.std.specs.Prelude.{◌≡◌, ◌==◌, ℕ, List};
ghost use Rattle.x509_spelling.specs.declared.kinds.KindOf.TheVariants as kind;
ghost use Rattle.x509_certificates.specs.ExtensionValues.{extension_number, kinds_of};

use crate::authority_key_identifier::AuthorityKeyIdentifier;
use crate::extended_key_usage::ExtendedKeyUsage;
use crate::key_usage::KeyUsage;
use picky_asn1::wrapper::{IntegerAsn1, OctetStringAsn1, OctetStringAsn1Container};
use std::alloc::AllocError;
use x509_fields::{BasicConstraints, GeneralNames};
use x509_spelling::{Enclosed, Identifiers, KindOf, LastKind, ToldBy};

/// Identifies a key (RFC 5280, section 4.2.1.1).
pub type KeyIdentifier = OctetStringAsn1;

/// Identifies the subject's key (RFC 5280, section 4.2.1.2).
pub type SubjectKeyIdentifier = OctetStringAsn1;

/// Further names of the subject (RFC 5280, section 4.2.1.6).
pub type SubjectAltName = GeneralNames;

/// Further names of the issuer (RFC 5280, section 4.2.1.7).
pub type IssuerAltName = GeneralNames;

/// The value of an extension. The extension's identifier decides its kind.
#[derive(Debug, Drop, PartialEq, Eq)]
pub enum ExtensionValue {
    /// The key that signed the certificate.
    AuthorityKeyIdentifier(OctetStringAsn1Container<AuthorityKeyIdentifier>),
    /// The subject's key.
    SubjectKeyIdentifier(OctetStringAsn1Container<SubjectKeyIdentifier>),
    /// What the key may be used for.
    KeyUsage(OctetStringAsn1Container<KeyUsage>),
    /// Further names of the subject.
    SubjectAltName(OctetStringAsn1Container<SubjectAltName>),
    /// Further names of the issuer.
    IssuerAltName(OctetStringAsn1Container<IssuerAltName>),
    /// Whether the subject is an authority.
    BasicConstraints(OctetStringAsn1Container<BasicConstraints>),
    /// The purposes of the key.
    ExtendedKeyUsage(OctetStringAsn1Container<ExtendedKeyUsage>),
    /// The number of a list of revoked certificates.
    CrlNumber(OctetStringAsn1Container<IntegerAsn1>),
    /// The octets of another extension.
    Generic(OctetStringAsn1),
}

impl Clone for ExtensionValue {
    ghost is_clone = { λ value copy. copy ≡ value };

    fn clone(&self) -> Result<ExtensionValue, AllocError> {
        Ok(match self {
            ExtensionValue::AuthorityKeyIdentifier(key) => ExtensionValue::AuthorityKeyIdentifier(
                OctetStringAsn1Container(key.0.clone()?),
            ),
            ExtensionValue::SubjectKeyIdentifier(key) => ExtensionValue::SubjectKeyIdentifier(
                OctetStringAsn1Container(key.0.clone()?),
            ),
            ExtensionValue::KeyUsage(usage) => ExtensionValue::KeyUsage(OctetStringAsn1Container(
                usage.0.clone()?,
            )),
            ExtensionValue::SubjectAltName(names) => ExtensionValue::SubjectAltName(
                OctetStringAsn1Container(names.0.clone()?),
            ),
            ExtensionValue::IssuerAltName(names) => ExtensionValue::IssuerAltName(
                OctetStringAsn1Container(names.0.clone()?),
            ),
            ExtensionValue::BasicConstraints(constraints) => ExtensionValue::BasicConstraints(
                OctetStringAsn1Container(constraints.0),
            ),
            ExtensionValue::ExtendedKeyUsage(purposes) => ExtensionValue::ExtendedKeyUsage(
                OctetStringAsn1Container(purposes.0.clone()?),
            ),
            ExtensionValue::CrlNumber(number) => ExtensionValue::CrlNumber(OctetStringAsn1Container(
                number.0.clone()?,
            )),
            ExtensionValue::Generic(octets) => ExtensionValue::Generic(octets.clone()?),
        })
    }
}

/// The identifiers of the extension with the arc `NUMBER` behind id-ce, and for 0 those that aren't known here.
pub struct ExtensionNumber<const NUMBER: u8>;

impl<const NUMBER: u8> Identifiers for ExtensionNumber<NUMBER> {
    ghost are_told = { λ content. extension_number content == NUMBER };

    fn tell(content: &[u8]) -> bool {
        number_of(content) == NUMBER
    }
}

type Numbered<const NUMBER: u8, T> = ToldBy<ExtensionNumber<NUMBER>, (Enclosed<T>, ())>;

type LaterKinds = KindOf<
    Numbered<18, IssuerAltName>,
    KindOf<
        Numbered<19, BasicConstraints>,
        KindOf<
            Numbered<37, ExtendedKeyUsage>,
            KindOf<
                Numbered<20, IntegerAsn1>,
                LastKind<ToldBy<ExtensionNumber<0>, (OctetStringAsn1, ())>>,
            >,
        >,
    >,
>;

/// The kinds of values, in the order in which an identifier is asked for them.
pub type ExtensionKinds = KindOf<
    Numbered<35, AuthorityKeyIdentifier>,
    KindOf<
        Numbered<14, SubjectKeyIdentifier>,
        KindOf<Numbered<15, KeyUsage>, KindOf<Numbered<17, SubjectAltName>, LaterKinds>>,
    >,
>;

// The arc behind id-ce of an extension that is known here, else 0.
fn number_of(content: &[u8]) -> u8
    ensures { result ≡ extension_number content.now }
{
    let [first, second, number] = content else {
        return 0;
    };
    if *first == 0x55 && *second == 0x1D && matches!(*number, 14 | 15 | 17..=20 | 35 | 37) {
        return *number;
    }
    0
}

/// The value that is of this kind.
pub fn of_kinds(kinds: ExtensionKinds) -> ExtensionValue
    ensures { kinds_of result ≡ kinds }
{
    match kinds {
        KindOf::This(told) => {
            let (Enclosed(value), ()) = told.into_fields();
            ExtensionValue::AuthorityKeyIdentifier(OctetStringAsn1Container(value))
        }
        KindOf::Other(KindOf::This(told)) => {
            let (Enclosed(value), ()) = told.into_fields();
            ExtensionValue::SubjectKeyIdentifier(OctetStringAsn1Container(value))
        }
        KindOf::Other(KindOf::Other(KindOf::This(told))) => {
            let (Enclosed(value), ()) = told.into_fields();
            ExtensionValue::KeyUsage(OctetStringAsn1Container(value))
        }
        KindOf::Other(KindOf::Other(KindOf::Other(KindOf::This(told)))) => {
            let (Enclosed(value), ()) = told.into_fields();
            ExtensionValue::SubjectAltName(OctetStringAsn1Container(value))
        }
        KindOf::Other(KindOf::Other(KindOf::Other(KindOf::Other(later)))) => of_later(later),
    }
}

// The value that is of one of the later kinds.
fn of_later(kinds: LaterKinds) -> ExtensionValue
    ensures { kinds_of result ≡ kind.Other (kind.Other (kind.Other (kind.Other kinds))) }
{
    match kinds {
        KindOf::This(told) => {
            let (Enclosed(value), ()) = told.into_fields();
            ExtensionValue::IssuerAltName(OctetStringAsn1Container(value))
        }
        KindOf::Other(KindOf::This(told)) => {
            let (Enclosed(value), ()) = told.into_fields();
            ExtensionValue::BasicConstraints(OctetStringAsn1Container(value))
        }
        KindOf::Other(KindOf::Other(KindOf::This(told))) => {
            let (Enclosed(value), ()) = told.into_fields();
            ExtensionValue::ExtendedKeyUsage(OctetStringAsn1Container(value))
        }
        KindOf::Other(KindOf::Other(KindOf::Other(KindOf::This(told)))) => {
            let (Enclosed(value), ()) = told.into_fields();
            ExtensionValue::CrlNumber(OctetStringAsn1Container(value))
        }
        KindOf::Other(KindOf::Other(KindOf::Other(KindOf::Other(LastKind(told))))) => {
            let (value, ()) = told.into_fields();
            ExtensionValue::Generic(value)
        }
    }
}
