//! Values under a tag, in a container, that may be missing or that have a default, and lists.
ghost use Rattle.equality_and_copies.specs.Copied.{equal, options, lists};
ghost use Rattle.equality_and_copies.specs.WrappedCopies.{optional, default_field, octet_container, bit_container, explicit_tag, implicit_tag, retagged, application_tag};

use crate::copies::Copies;
use picky_asn1::wrapper::{Asn1SequenceOf, Asn1SetOf};
use picky_asn1_der::{
    ApplicationTag, BitStringContainer, DefaultField, ExplicitContextTag, ImplicitContextTag,
    OctetPair, OctetStringContainer, Optional, Retagged,
};

impl<T: Copies> Copies for Option<T> {
    ghost is_copy = { options T.is_copy };
}

impl<T: Copies> Copies for Optional<T> {
    ghost is_copy = { optional T.is_copy };
}

impl<T: Copies> Copies for DefaultField<T> {
    ghost is_copy = { default_field T.is_copy };
}

impl<const N: u8, T: Copies> Copies for ExplicitContextTag<N, T> {
    ghost is_copy = { explicit_tag T.is_copy };
}

impl<const N: u8, T: Copies> Copies for ImplicitContextTag<N, T> {
    ghost is_copy = { implicit_tag T.is_copy };
}

impl<const OCTET: u8, T: Copies> Copies for Retagged<OCTET, T> {
    ghost is_copy = { retagged T.is_copy };
}

impl<V: Copies, const TAG: u8> Copies for ApplicationTag<V, TAG> {
    ghost is_copy = { application_tag V.is_copy };
}

impl<T: Copies> Copies for OctetStringContainer<T> {
    ghost is_copy = { octet_container T.is_copy };
}

impl<T: Copies> Copies for BitStringContainer<T> {
    ghost is_copy = { bit_container T.is_copy };
}

impl<T: Copies> Copies for Asn1SequenceOf<T> {
    ghost is_copy = { lists T.is_copy };
}

impl<T: Copies> Copies for Asn1SetOf<T> {
    ghost is_copy = { lists T.is_copy };
}

impl Copies for OctetPair {
    ghost is_copy = { equal };
}
