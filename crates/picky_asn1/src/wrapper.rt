//! The leaf types as messages hold them.
ghost use Rattle.std.specs.Prelude.{◌≡◌};

pub use crate::bit_string::BitStringAsn1;
use crate::date::{GeneralizedTime, UTCTime};
pub use crate::general_string::GeneralStringAsn1;
pub use crate::integer::IntegerAsn1;
use crate::list_of::ListOf;
pub use crate::octet_string::OctetStringAsn1;
use crate::oid::ObjectIdentifier;
use crate::restricted_string::{
    BmpCharSet, Ia5CharSet, PrintableCharSet, RestrictedString, Utf8CharSet,
};
pub use picky_asn1_der::{
    BitStringContainer as BitStringAsn1Container, ExplicitContextTag, ExplicitContextTag0,
    ExplicitContextTag1, ExplicitContextTag2, ExplicitContextTag3, ExplicitContextTag4,
    ExplicitContextTag5, ExplicitContextTag6, ExplicitContextTag7, ExplicitContextTag8,
    ExplicitContextTag9, ExplicitContextTag10, ExplicitContextTag11, ExplicitContextTag12,
    ExplicitContextTag13, ExplicitContextTag14, ExplicitContextTag15, ImplicitContextTag,
    ImplicitContextTag0, ImplicitContextTag1, ImplicitContextTag2, ImplicitContextTag3,
    ImplicitContextTag4, ImplicitContextTag5, ImplicitContextTag6, ImplicitContextTag7,
    ImplicitContextTag8, ImplicitContextTag9, ImplicitContextTag10, ImplicitContextTag11,
    ImplicitContextTag12, ImplicitContextTag13, ImplicitContextTag14, ImplicitContextTag15,
    OctetStringContainer as OctetStringAsn1Container, Optional,
};

/// A UTF8String (X.690, section 8.23).
pub type Utf8StringAsn1 = RestrictedString<Utf8CharSet>;

/// A PrintableString.
pub type PrintableStringAsn1 = RestrictedString<PrintableCharSet>;

/// An IA5String.
pub type IA5StringAsn1 = RestrictedString<Ia5CharSet>;

/// An IA5String, by the ported crate's second name for it.
pub type Ia5StringAsn1 = IA5StringAsn1;

/// A BMPString.
pub type BmpStringAsn1 = RestrictedString<BmpCharSet>;

/// A SEQUENCE OF (X.690, section 8.10).
pub type Asn1SequenceOf<T> = ListOf<0x30, T>;

/// A SET OF (X.690, section 8.12), whose order is kept as given.
pub type Asn1SetOf<T> = ListOf<0x31, T>;

/// An OBJECT IDENTIFIER (X.690, section 8.19).
#[derive(Drop, Debug, PartialEq, Eq, PartialOrd, Ord, Hash, Clone)]
pub struct ObjectIdentifierAsn1(pub ObjectIdentifier);

impl From<ObjectIdentifier> for ObjectIdentifierAsn1 {
    ghost from_gives = { λ oid wrapped. wrapped.0 ≡ oid };

    fn from(oid: ObjectIdentifier) -> ObjectIdentifierAsn1 {
        ObjectIdentifierAsn1(oid)
    }
}

impl From<ObjectIdentifierAsn1> for ObjectIdentifier {
    ghost from_gives = { λ wrapped oid. oid ≡ wrapped.0 };

    fn from(wrapped: ObjectIdentifierAsn1) -> ObjectIdentifier {
        wrapped.0
    }
}

/// A UTCTime (X.690, section 11.8). Its content octets are the time's 13 characters.
#[derive(Clone, Copy, Debug, PartialEq, Eq, PartialOrd, Ord, Hash)]
pub struct UTCTimeAsn1(pub UTCTime);

impl From<UTCTime> for UTCTimeAsn1 {
    ghost from_gives = { λ time wrapped. wrapped.0 ≡ time };

    fn from(time: UTCTime) -> UTCTimeAsn1 {
        UTCTimeAsn1(time)
    }
}

/// A GeneralizedTime (X.690, section 11.7). Its content octets are the time's 15 characters.
#[derive(Clone, Copy, Debug, PartialEq, Eq, PartialOrd, Ord, Hash)]
pub struct GeneralizedTimeAsn1(pub GeneralizedTime);

impl From<GeneralizedTime> for GeneralizedTimeAsn1 {
    ghost from_gives = { λ time wrapped. wrapped.0 ≡ time };

    fn from(time: GeneralizedTime) -> GeneralizedTimeAsn1 {
        GeneralizedTimeAsn1(time)
    }
}
