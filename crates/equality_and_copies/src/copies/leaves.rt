//! Leaves: numbers, strings, times, identifiers, elements of any type, and faults.
ghost use Rattle.equality_and_copies.specs.Copied.{equal, told_by};

use crate::copies::Copies;
use asn1_leaves::LeafFault;
use picky_asn1::date::{GeneralizedTime, UTCTime};
use picky_asn1::oid::ObjectIdentifier;
use picky_asn1::restricted_string::{CharSet, RestrictedString};
use picky_asn1::wrapper::{
    BitStringAsn1, GeneralStringAsn1, GeneralizedTimeAsn1, IntegerAsn1, ObjectIdentifierAsn1,
    OctetStringAsn1, UTCTimeAsn1,
};
use picky_asn1_der::{
    Asn1DerError, Asn1RawDer, RawElement, Rule, Tag, TagClass, TagPeeker, Unsupported,
};
use std::io::ErrorKind;

impl Copies for bool {
    ghost is_copy = { equal };
}

impl Copies for u32 {
    ghost is_copy = { equal };
}

impl Copies for BitStringAsn1 {
    ghost is_copy = { equal };
}

impl Copies for GeneralStringAsn1 {
    ghost is_copy = { equal };
}

impl Copies for GeneralizedTime {
    ghost is_copy = { equal };
}

impl Copies for GeneralizedTimeAsn1 {
    ghost is_copy = { equal };
}

impl Copies for IntegerAsn1 {
    ghost is_copy = { equal };
}

impl Copies for ObjectIdentifier {
    ghost is_copy = { equal };
}

impl Copies for OctetStringAsn1 {
    ghost is_copy = { equal };
}

impl Copies for UTCTime {
    ghost is_copy = { equal };
}

impl Copies for UTCTimeAsn1 {
    ghost is_copy = { equal };
}

impl Copies for Asn1RawDer {
    ghost is_copy = { equal };
}

impl Copies for RawElement {
    ghost is_copy = { equal };
}

impl Copies for Tag {
    ghost is_copy = { equal };
}

impl Copies for TagClass {
    ghost is_copy = { equal };
}

impl Copies for TagPeeker {
    ghost is_copy = { equal };
}

impl Copies for ErrorKind {
    ghost is_copy = { equal };
}

impl Copies for LeafFault {
    ghost is_copy = { equal };
}

impl Copies for Rule {
    ghost is_copy = { equal };
}

impl Copies for Unsupported {
    ghost is_copy = { equal };
}

impl Copies for Asn1DerError {
    ghost is_copy = { equal };
}

impl Copies for ObjectIdentifierAsn1 {
    ghost is_copy = { told_by (λ v. v.0) equal (λ v w e i. record { 0 = e i }) };
}

impl<C: CharSet> Copies for RestrictedString<C> {
    ghost is_copy = { equal };
}
