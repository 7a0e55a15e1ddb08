//! Values of attributes (RFC 2985, section 5; RFC 5652, section 11).
ghost use Rattle.std.specs.Prelude.{◌≡◌, ◌==◌, ℕ, List};
ghost use Rattle.std.specs.Bool.{nat_eq};
ghost use Rattle.std.specs.Cmp.Lexicographic.{pointwise};
ghost use Rattle.x509_certificates.specs.AttributeValues.{attribute_number, pkcs_9, statement_type, kinds_of};

use crate::any_values::AnyValues;
use crate::requested_extensions::RequestedExtensions;
use picky_asn1::wrapper::{Asn1SequenceOf, Asn1SetOf, ObjectIdentifierAsn1, OctetStringAsn1};
use std::alloc::AllocError;
use x509_fields::Time;
use x509_spelling::{Identifiers, KindOf, LastKind, ToldBy};

/// The values of an attribute. The attribute's identifier decides of which type they are.
#[derive(Debug, Drop, PartialEq, Eq)]
pub enum AttributeValues {
    /// Extensions that a certificate is requested with.
    Extensions(RequestedExtensions),
    /// The type of a signed content.
    ContentType(Asn1SetOf<ObjectIdentifierAsn1>),
    /// The purposes of a statement on a program.
    SpcStatementType(Asn1SetOf<Asn1SequenceOf<ObjectIdentifierAsn1>>),
    /// The digest of a signed content.
    MessageDigest(Asn1SetOf<OctetStringAsn1>),
    /// When a content was signed.
    SigningTime(Asn1SetOf<Time>),
    /// The values of another attribute.
    Custom(AnyValues),
}

impl Clone for AttributeValues {
    ghost is_clone = { λ values copy. copy ≡ values };

    fn clone(&self) -> Result<AttributeValues, AllocError> {
        Ok(match self {
            AttributeValues::Extensions(lists) => AttributeValues::Extensions(lists.clone()?),
            AttributeValues::ContentType(types) => AttributeValues::ContentType(types.clone()?),
            AttributeValues::SpcStatementType(types) => AttributeValues::SpcStatementType(
                types.clone()?,
            ),
            AttributeValues::MessageDigest(digests) => AttributeValues::MessageDigest(
                digests.clone()?,
            ),
            AttributeValues::SigningTime(times) => AttributeValues::SigningTime(times.clone()?),
            AttributeValues::Custom(values) => AttributeValues::Custom(values.clone()?),
        })
    }
}

/// The identifiers of the attribute that has this number among those of PKCS #9, 11 for statement types, and for 0 those that
/// aren't known here.
pub struct AttributeNumber<const NUMBER: u8>;

impl<const NUMBER: u8> Identifiers for AttributeNumber<NUMBER> {
    ghost are_told = { λ content. attribute_number content == NUMBER };

    fn tell(content: &[u8]) -> bool {
        number_of(content) == NUMBER
    }
}

type Numbered<const NUMBER: u8, T> = ToldBy<AttributeNumber<NUMBER>, (T, ())>;

/// The kinds of values, in the order in which an identifier is asked for them.
pub type AttributeKinds = KindOf<
    Numbered<14, RequestedExtensions>,
    KindOf<
        Numbered<3, Asn1SetOf<ObjectIdentifierAsn1>>,
        KindOf<
            Numbered<11, Asn1SetOf<Asn1SequenceOf<ObjectIdentifierAsn1>>>,
            KindOf<
                Numbered<4, Asn1SetOf<OctetStringAsn1>>,
                KindOf<Numbered<5, Asn1SetOf<Time>>, LastKind<Numbered<0, AnyValues>>>,
            >,
        >,
    >,
>;

// The number of an attribute that is known here, else 0.
fn number_of(content: &[u8]) -> u8
    ensures { result ≡ attribute_number content.now }
{
    if is_pkcs_9(content, 14) {
        14
    } else if is_pkcs_9(content, 3) {
        3
    } else if is_statement_type(content) {
        11
    } else if is_pkcs_9(content, 4) {
        4
    } else if is_pkcs_9(content, 5) {
        5
    } else {
        0
    }
}

// Whether this is the attribute of PKCS #9 with this number.
fn is_pkcs_9(content: &[u8], number: u8) -> bool
    ensures { result ≡ pointwise nat_eq content.now (pkcs_9 number) }
{
    content == [0x2A, 0x86, 0x48, 0x86, 0xF7, 0x0D, 1, 9, number].as_slice()
}

// Whether this is the attribute of a statement's purposes.
fn is_statement_type(content: &[u8]) -> bool
    ensures { result ≡ pointwise nat_eq content.now statement_type }
{
    content == [0x2B, 6, 1, 4, 1, 0x82, 0x37, 2, 1, 11].as_slice()
}

/// The values that are of this kind.
pub fn of_kinds(kinds: AttributeKinds) -> AttributeValues
    ensures { kinds_of result ≡ kinds }
{
    match kinds {
        KindOf::This(told) => {
            let (values, ()) = told.into_fields();
            AttributeValues::Extensions(values)
        }
        KindOf::Other(KindOf::This(told)) => {
            let (values, ()) = told.into_fields();
            AttributeValues::ContentType(values)
        }
        KindOf::Other(KindOf::Other(KindOf::This(told))) => {
            let (values, ()) = told.into_fields();
            AttributeValues::SpcStatementType(values)
        }
        KindOf::Other(KindOf::Other(KindOf::Other(KindOf::This(told)))) => {
            let (values, ()) = told.into_fields();
            AttributeValues::MessageDigest(values)
        }
        KindOf::Other(KindOf::Other(KindOf::Other(KindOf::Other(KindOf::This(told))))) => {
            let (values, ()) = told.into_fields();
            AttributeValues::SigningTime(values)
        }
        KindOf::Other(KindOf::Other(KindOf::Other(KindOf::Other(KindOf::Other(LastKind(told)))))) =>
            {
                let (values, ()) = told.into_fields();
                AttributeValues::Custom(values)
            }
    }
}
