//! The leaf types, each of which is spelled in one way, and lists of such values.
use crate::exact::Exact;
use picky_asn1::wrapper::{
    Asn1SequenceOf, Asn1SetOf, BitStringAsn1, BmpStringAsn1, GeneralizedTimeAsn1, IA5StringAsn1,
    IntegerAsn1, ObjectIdentifierAsn1, OctetStringAsn1, PrintableStringAsn1, UTCTimeAsn1,
    Utf8StringAsn1,
};
use picky_asn1_der::{BitStringContainer, Deserialize, ImplicitContextTag, IsTagNumber, TagNumber};

impl Exact for bool {
    ghost plain = { tt };
}

impl Exact for () {
    ghost plain = { tt };
}

impl Exact for u8 {
    ghost plain = { tt };
}

impl Exact for IntegerAsn1 {
    ghost plain = { tt };
}

impl Exact for OctetStringAsn1 {
    ghost plain = { tt };
}

impl Exact for BitStringAsn1 {
    ghost plain = { tt };
}

impl Exact for ObjectIdentifierAsn1 {
    ghost plain = { tt };
}

impl Exact for PrintableStringAsn1 {
    ghost plain = { tt };
}

impl Exact for Utf8StringAsn1 {
    ghost plain = { tt };
}

impl Exact for IA5StringAsn1 {
    ghost plain = { tt };
}

impl Exact for BmpStringAsn1 {
    ghost plain = { tt };
}

impl Exact for UTCTimeAsn1 {
    ghost plain = { tt };
}

impl Exact for GeneralizedTimeAsn1 {
    ghost plain = { tt };
}

impl<T: Exact + Deserialize + Drop> Exact for Asn1SequenceOf<T> {
    ghost use Rattle.x509_spelling.specs.PlainLaws.{plain-list};

    ghost plain = { plain-list T.seen T.plain };
}

impl<T: Exact + Deserialize + Drop> Exact for Asn1SetOf<T> {
    ghost use Rattle.x509_spelling.specs.PlainLaws.{plain-list};

    ghost plain = { plain-list T.seen T.plain };
}

impl<T: Exact + Deserialize + Drop> Exact for BitStringContainer<T> {
    ghost use Rattle.x509_spelling.specs.PlainLaws.{plain-part};

    ghost plain = { plain-part (λ value. value.0) T.seen T.plain };
}

impl<const N: u8> Exact for ImplicitContextTag<N, BitStringAsn1>
where
    TagNumber<N>: IsTagNumber,
{
    ghost plain = { tt };
}
