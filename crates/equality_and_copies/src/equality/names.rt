//! Names (RFC 5280, sections 4.1.2.4 and 4.2.1.6).
ghost use Rattle.std.specs.Cmp.Lexicographic.{bytes_decides, pointwise_decides};
ghost use Rattle.equality_and_copies.specs.Equalities.{fields, both, last, options, bare, variants, or_field};
ghost use Rattle.equality_and_copies.specs.WrappedEquality.{optional, explicit_tag};
ghost use Rattle.equality_and_copies.specs.contracts.equality.parts.DirectoryStringEquality.TheImpl.Laws.{is_equality-law as directory_string};
ghost use Rattle.equality_and_copies.specs.contracts.equality.leaves.RawElementEquality.TheImpl.Laws.{is_equality-law as raw};
ghost use Rattle.equality_and_copies.specs.contracts.equality.leaves.ObjectIdentifierAsn1Equality.TheImpl.Laws.{is_equality-law as oid};
ghost use Rattle.x509_fields.specs.contracts.name_attr.NameAttr.{the_type as name_attr_type};
ghost use Rattle.x509_fields.specs.contracts.attribute_type_and_value.AttributeValue.{«enum» as attribute_value_enum};
ghost use Rattle.x509_fields.specs.contracts.edi_party_name.EdiPartyName.{the_type as edi_party_name_type};
ghost use Rattle.x509_fields.specs.contracts.other_name.OtherName.{the_type as other_name_type};

use crate::equality::Equality;
use x509_fields::{
    AttributeTypeAndValue, AttributeValue, EdiPartyName, GeneralName, Name, NameAttr, OtherName,
};

impl Equality for NameAttr {
    ghost is_equality = { bare name_attr_type tt };
}

impl Equality for AttributeValue {
    ghost is_equality = { variants attribute_value_enum (or_field directory_string (or_field bytes_decides (or_field raw tt))) };
}

impl Equality for AttributeTypeAndValue {
    ghost use Rattle.equality_and_copies.specs.contracts.equality.names.AttributeValueEquality.TheImpl.Laws.{is_equality-law as attribute_value};
    ghost use Rattle.x509_fields.specs.contracts.attribute_type_and_value.AttributeTypeAndValue.{the_type};

    ghost is_equality = { fields the_type (both oid (last attribute_value)) };
}

impl Equality for Name {
    ghost use Rattle.equality_and_copies.specs.contracts.equality.names.AttributeTypeAndValueEquality.TheImpl.Laws.{is_equality-law as attribute};

    ghost is_equality = { pointwise_decides (pointwise_decides attribute) };
}

impl Equality for EdiPartyName {
    ghost is_equality = { fields edi_party_name_type
        (both (optional (options (explicit_tag directory_string))) (last (explicit_tag directory_string))) };
}

impl Equality for OtherName {
    ghost is_equality = { fields other_name_type (both oid (last (explicit_tag raw))) };
}

impl Equality for GeneralName {
    ghost use Rattle.equality_and_copies.specs.contracts.equality.names.OtherNameEquality.TheImpl.Laws.{is_equality-law as other_name};
    ghost use Rattle.equality_and_copies.specs.contracts.equality.names.NameEquality.TheImpl.Laws.{is_equality-law as name};
    ghost use Rattle.equality_and_copies.specs.contracts.equality.names.EdiPartyNameEquality.TheImpl.Laws.{is_equality-law as edi_party_name};
    ghost use Rattle.x509_fields.specs.contracts.general_name.GeneralName.{«enum»};

    ghost is_equality = { variants «enum»
        (or_field other_name (or_field bytes_decides (or_field bytes_decides (or_field name (or_field edi_party_name
        (or_field bytes_decides (or_field bytes_decides (or_field oid tt)))))))) };
}
