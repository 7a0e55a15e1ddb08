//! Leaves: numbers, strings, times, identifiers and elements of any type.
ghost use Rattle.std.specs.Cmp.{signed_Decides, unsigned_Decides};
ghost use Rattle.std.specs.Cmp.Lexicographic.{bytes_decides};
ghost use Rattle.equality_and_copies.specs.Equalities.{told_by, both, fields, last, bare};
ghost use Rattle.picky_asn1_der.specs.contracts.tag.TagClass.{the_type as tag_class_type};
ghost use Rattle.picky_asn1_der.specs.contracts.tag_peeker.TagPeeker.{the_type as tag_peeker_type};

use crate::equality::Equality;
use picky_asn1::date::{GeneralizedTime, UTCTime};
use picky_asn1::oid::ObjectIdentifier;
use picky_asn1::restricted_string::{CharSet, RestrictedString};
use picky_asn1::wrapper::{
    BitStringAsn1, GeneralStringAsn1, GeneralizedTimeAsn1, IntegerAsn1, ObjectIdentifierAsn1,
    OctetStringAsn1, UTCTimeAsn1,
};
use picky_asn1_der::{Asn1RawDer, RawElement, Tag, TagClass, TagPeeker};

impl Equality for TagClass {
    ghost is_equality = { bare tag_class_type tt };
}

impl Equality for Tag {
    ghost is_equality = { unsigned_Decides };
}

impl Equality for TagPeeker {
    ghost is_equality = { fields tag_peeker_type (last unsigned_Decides) };
}

impl Equality for ObjectIdentifier {
    ghost is_equality = { bytes_decides };
}

impl Equality for ObjectIdentifierAsn1 {
    ghost is_equality = { told_by (λ v. v.0) bytes_decides (λ v w e i. record { 0 = e i }) };
}

impl Equality for IntegerAsn1 {
    ghost is_equality = { signed_Decides };
}

impl Equality for BitStringAsn1 {
    ghost is_equality = { told_by
        (λ v. (v.unused, v.octets))
        (both unsigned_Decides bytes_decides)
        (λ v w e i. record { unused = (e i).0; octets = (e i).1 }) };
}

impl Equality for OctetStringAsn1 {
    ghost is_equality = { bytes_decides };
}

impl Equality for GeneralStringAsn1 {
    ghost is_equality = { bytes_decides };
}

impl<C: CharSet> Equality for RestrictedString<C> {
    ghost is_equality = { bytes_decides };
}

impl Equality for GeneralizedTime {
    ghost use Rattle.asn1_leaves.specs.TimeLaws.{same_time};

    ghost is_equality = { told_by
        (λ v. (v.year, (v.month, (v.day, (v.hour, (v.minute, v.second))))))
        (both unsigned_Decides (both unsigned_Decides (both unsigned_Decides (both unsigned_Decides (both unsigned_Decides unsigned_Decides)))))
        (λ v w e. same_time v w (λ i. (e i).0, λ i. (e i).1.0, λ i. (e i).1.1.0, λ i. (e i).1.1.1.0, λ i. (e i).1.1.1.1.0, λ i. (e i).1.1.1.1.1)) };
}

impl Equality for UTCTime {
    ghost use Rattle.equality_and_copies.specs.contracts.equality.leaves.GeneralizedTimeEquality.TheImpl.Laws.{is_equality-law as time};
    ghost use Rattle.std.specs.Prelude.{drop};
    ghost use Rattle.asn1_leaves.specs.GeneralizedTime.{time_text};
    ghost use Rattle.asn1_leaves.specs.TimeLaws.{utc_text-injective};

    ghost is_equality = { told_by (λ v. v.time) time (λ v w e. utc_text-injective v w (λ i. drop 2 (time_text (e i)))) };
}

impl Equality for GeneralizedTimeAsn1 {
    ghost use Rattle.equality_and_copies.specs.contracts.equality.leaves.GeneralizedTimeEquality.TheImpl.Laws.{is_equality-law as time};

    ghost is_equality = { told_by (λ v. v.0) time (λ v w e i. record { 0 = e i }) };
}

impl Equality for UTCTimeAsn1 {
    ghost use Rattle.equality_and_copies.specs.contracts.equality.leaves.UTCTimeEquality.TheImpl.Laws.{is_equality-law as utc_time};

    ghost is_equality = { told_by (λ v. v.0) utc_time (λ v w e i. record { 0 = e i }) };
}

impl Equality for RawElement {
    ghost is_equality = { told_by
        (λ v. (v.first, v.content))
        (both unsigned_Decides bytes_decides)
        (λ v w e i. record { first = (e i).0; content = (e i).1 }) };
}

impl Equality for Asn1RawDer {
    ghost use Rattle.equality_and_copies.specs.WrappedEquality.{elements};

    ghost is_equality = { elements };
}
