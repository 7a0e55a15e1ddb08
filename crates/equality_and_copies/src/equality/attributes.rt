//! Attributes of certification requests.
ghost use Rattle.std.specs.Cmp.Lexicographic.{bytes_decides, pointwise_decides};
ghost use Rattle.equality_and_copies.specs.Equalities.{told_by, fields, both, last, variants, or_field};
ghost use Rattle.equality_and_copies.specs.contracts.equality.leaves.RawElementEquality.TheImpl.Laws.{is_equality-law as raw};
ghost use Rattle.equality_and_copies.specs.contracts.equality.extensions.ExtensionEquality.TheImpl.Laws.{is_equality-law as extension};
ghost use Rattle.equality_and_copies.specs.contracts.equality.leaves.ObjectIdentifierAsn1Equality.TheImpl.Laws.{is_equality-law as oid};
ghost use Rattle.equality_and_copies.specs.contracts.equality.parts.TimeEquality.TheImpl.Laws.{is_equality-law as time};

use crate::equality::Equality;
use x509_certificates::{AnyValues, Attribute, AttributeValues, OpenSslAttributes};

impl Equality for AnyValues {
    ghost is_equality = { told_by (λ v. v.0) (pointwise_decides raw) (λ v w e i. record { 0 = e i }) };
}

impl Equality for AttributeValues {
    ghost use Rattle.equality_and_copies.specs.contracts.equality.attributes.AnyValuesEquality.TheImpl.Laws.{is_equality-law as any_values};
    ghost use Rattle.x509_certificates.specs.contracts.attribute_values.AttributeValues.{«enum»};

    ghost is_equality = { variants «enum»
        (or_field (pointwise_decides (pointwise_decides extension)) (or_field (pointwise_decides oid)
        (or_field (pointwise_decides (pointwise_decides oid)) (or_field (pointwise_decides bytes_decides)
        (or_field (pointwise_decides time) (or_field any_values tt)))))) };
}

impl Equality for Attribute {
    ghost use Rattle.equality_and_copies.specs.contracts.equality.attributes.AttributeValuesEquality.TheImpl.Laws.{is_equality-law as attribute_values};
    ghost use Rattle.x509_certificates.specs.contracts.attribute.Attribute.{the_type};

    ghost is_equality = { fields the_type (both oid (last attribute_values)) };
}

impl Equality for OpenSslAttributes {
    ghost use Rattle.equality_and_copies.specs.contracts.equality.attributes.AttributeEquality.TheImpl.Laws.{is_equality-law as attribute};

    ghost is_equality = { told_by (λ v. v.0) (pointwise_decides attribute) (λ v w e i. record { 0 = e i }) };
}
