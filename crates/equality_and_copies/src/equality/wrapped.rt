//! Values under a tag, in a container, that may be missing or that have a default, and lists.
ghost use Rattle.std.specs.Cmp.Lexicographic.{pointwise_decides};
ghost use Rattle.equality_and_copies.specs.Equalities.{options};
ghost use Rattle.equality_and_copies.specs.WrappedEquality.{default_false, fixed_number, optional, default_field, octet_container, bit_container, explicit_tag, implicit_tag, retagged, application_tag, explicit, strict};

use crate::equality::Equality;
use picky_asn1::wrapper::{Asn1SequenceOf, Asn1SetOf};
use picky_asn1_der::{
    ApplicationTag, BitStringContainer, DefaultField, ExplicitContextTag, ImplicitContextTag,
    OctetPair, OctetStringContainer, Optional, Retagged,
};
use x509_certificates::SpelledList;
use x509_spelling::{DefaultFalse, Explicit, FixedNumber, Strict};

impl<T: Equality> Equality for Option<T> {
    ghost is_equality = { options T.is_equality };
}

impl<T: Equality> Equality for Optional<T> {
    ghost is_equality = { optional T.is_equality };
}

impl<T: Equality> Equality for DefaultField<T> {
    ghost is_equality = { default_field T.is_equality };
}

impl<const N: u8, T: Equality> Equality for ExplicitContextTag<N, T> {
    ghost is_equality = { explicit_tag T.is_equality };
}

impl<const N: u8, T: Equality> Equality for ImplicitContextTag<N, T> {
    ghost is_equality = { implicit_tag T.is_equality };
}

impl<const OCTET: u8, T: Equality> Equality for Retagged<OCTET, T> {
    ghost is_equality = { retagged T.is_equality };
}

impl<V: Equality, const TAG: u8> Equality for ApplicationTag<V, TAG> {
    ghost is_equality = { application_tag V.is_equality };
}

impl<const N: u8, T: Equality> Equality for Explicit<N, T> {
    ghost is_equality = { explicit T.is_equality };
}

impl<T: Equality> Equality for OctetStringContainer<T> {
    ghost is_equality = { octet_container T.is_equality };
}

impl<T: Equality> Equality for BitStringContainer<T> {
    ghost is_equality = { bit_container T.is_equality };
}

impl<T: Equality> Equality for Strict<T> {
    ghost is_equality = { strict T.is_equality };
}

impl<T: Equality> Equality for Asn1SequenceOf<T> {
    ghost is_equality = { pointwise_decides T.is_equality };
}

impl<T: Equality> Equality for Asn1SetOf<T> {
    ghost is_equality = { pointwise_decides T.is_equality };
}

impl<const OCTET: u8, T: Equality> Equality for SpelledList<OCTET, T> {
    ghost is_equality = { pointwise_decides T.is_equality };
}

impl<const N: u8> Equality for FixedNumber<N> {
    ghost is_equality = { fixed_number };
}

impl<const FIELD: u8> Equality for DefaultFalse<FIELD> {
    ghost is_equality = { default_false };
}

impl Equality for OctetPair {
    ghost use Rattle.asn1_codec.specs.contracts.octet_pair.OctetPair.{the_type};
    ghost use Rattle.std.specs.Cmp.Lexicographic.{bytes_decides};
    ghost use Rattle.equality_and_copies.specs.Equalities.{fields, last};

    ghost is_equality = { fields the_type (last bytes_decides) };
}
