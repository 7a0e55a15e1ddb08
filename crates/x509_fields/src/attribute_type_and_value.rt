//! Attributes of names.
ghost use Rattle.x509_fields.specs.NameAttrs.{attribute_content, is_common_content, string_number};
ghost use Rattle.x509_fields.specs.Attributes.{value_raw, is_value_of, directory_raw, is_directory_text, is_string_content, is_email_content};
ghost use Rattle.x509_fields.specs.declared.attribute_type_and_value.AttributeValue.{AttributeValue};
ghost use Rattle.x509_fields.specs.declared.directory_string.DirectoryString.{DirectoryString};
ghost use Rattle.asn1_leaves.specs.CharSets.{is_general_string};
ghost use Rattle.asn1_leaves.specs.ObjectIdentifier.{oid_content};
ghost use Rattle.std.specs.Prelude.{◌≡◌, ◌==◌, ℕ, List, None, Some, true, IsTrue, IfOk, MatchOption, MatchResult};
ghost use Rattle.asn1_der.specs.Octets.{ia5_string_octet, sequence_octet};

use crate::DirectoryString;
use crate::agreed::{Agreed, read_agreed};
use crate::attribute_parameters::AttributeTypeAndValueParameters;
use crate::name_attr::NameAttr;
use asn1_der::octets::{BMP_STRING, IA5_STRING, PRINTABLE_STRING, SEQUENCE, UTF8_STRING};
use byte_streams::{Sink, Source};
use picky_asn1::oid::ObjectIdentifier;
use picky_asn1::wrapper::{
    BmpStringAsn1, IA5StringAsn1, ObjectIdentifierAsn1, PrintableStringAsn1, Utf8StringAsn1,
};
use picky_asn1_der::{Asn1DerError, Deserializer, Fields, RawElement, Row2, Serializer, Tagged};
use std::alloc::{AllocError, Global};
use x509_spelling::Exact;

/// The value of an attribute.
#[derive(Debug, Drop, PartialEq, Eq)]
pub enum AttributeValue {
    /// A string of a name.
    Directory(DirectoryString),
    /// An address of electronic mail.
    Email(IA5StringAsn1),
    /// An element of any type.
    Custom(RawElement),
}

/// An attribute of a name, and its value.
///
/// ```text
/// AttributeTypeAndValue ::= SEQUENCE {
///      type     AttributeType,
///      value    AttributeValue }
///
/// AttributeType ::= OBJECT IDENTIFIER
///
/// AttributeValue ::= ANY -- DEFINED BY AttributeType
/// ```
#[derive(Debug, Drop, PartialEq, Eq)]
pub struct AttributeTypeAndValue {
    ty: ObjectIdentifierAsn1,
    value: AttributeValue,
    pub ghost of_its_type: { IsTrue (is_value_of ty.0 value) },
}

impl Clone for AttributeValue {
    ghost is_clone = { λ value copy. copy ≡ value };

    fn clone(&self) -> Result<AttributeValue, AllocError> {
        Ok(match self {
            AttributeValue::Directory(string) => AttributeValue::Directory(string.clone()?),
            AttributeValue::Email(address) => AttributeValue::Email(address.clone()?),
            AttributeValue::Custom(raw) => AttributeValue::Custom(raw.clone()?),
        })
    }
}

impl Clone for AttributeTypeAndValue {
    ghost is_clone = { λ attribute copy. copy ≡ attribute };

    fn clone(&self) -> Result<AttributeTypeAndValue, AllocError> {
        let ty = self.ty.clone()?;
        let value = self.value.clone()?;
        Ok(AttributeTypeAndValue { ty, value })
    }
}

type AttributeRow = Row2<ObjectIdentifierAsn1, RawElement>;

impl AttributeTypeAndValue {
    ghost use Rattle.x509_fields.specs.AttributeMade.{IsOfAttribute, IsOfAddress};
    ghost use Rattle.x509_fields.specs.Parameters.{IsViewOf, common_name_of};

    /// The attribute's identifier.
    pub fn ty(&self) -> &ObjectIdentifierAsn1
        ensures { result.now ≡ self.now.ty }
    {
        &self.ty
    }

    /// The value, as the identifier names it.
    pub fn value(&self) -> AttributeTypeAndValueParameters<'_>
        ensures { IsViewOf result self.now }
    {
        match &self.value {
            AttributeValue::Directory(string) => name_of(&self.ty.0).with_string(string),
            AttributeValue::Email(address) => AttributeTypeAndValueParameters::EmailAddress(
                address,
            ),
            AttributeValue::Custom(raw) => AttributeTypeAndValueParameters::Custom(raw),
        }
    }

    /// The value, by its type.
    pub fn typed_value(&self) -> &AttributeValue
        ensures { result.now ≡ self.now.value }
    {
        &self.value
    }

    /// The common name that this is, where it is one.
    pub fn common_name(&self) -> Option<&DirectoryString>
        ensures { MatchOption result (common_name_of self.now ≡ None) (λ name. common_name_of self.now ≡ Some name.now) }
    {
        match &self.value {
            AttributeValue::Directory(string) if is_common_name(&self.ty.0) => Some(string),
            _ => None,
        }
    }

    /// An attribute that has a string of a name.
    pub fn of_string(
        alloc: Global,
        name: NameAttr,
        value: DirectoryString,
    ) -> Result<Self, AllocError>
        ensures { IfOk result (λ made. IsOfAttribute name value made) }
    {
        let oid = name.identifier(alloc)?;
        look_at_text(&value);
        Ok(AttributeTypeAndValue {
            ty: ObjectIdentifierAsn1(oid),
            value: AttributeValue::Directory(value),
        })
    }

    /// The name of the thing itself.
    pub fn new_common_name(alloc: Global, value: DirectoryString) -> Result<Self, AllocError>
        ensures { IfOk result (λ made. IsOfAttribute NameAttr.CommonName value made) }
    {
        AttributeTypeAndValue::of_string(alloc, NameAttr::CommonName, value)
    }

    /// A family's name.
    pub fn new_surname(alloc: Global, value: DirectoryString) -> Result<Self, AllocError>
        ensures { IfOk result (λ made. IsOfAttribute NameAttr.Surname value made) }
    {
        AttributeTypeAndValue::of_string(alloc, NameAttr::Surname, value)
    }

    /// A number that distinguishes devices or people.
    pub fn new_serial_number(alloc: Global, value: DirectoryString) -> Result<Self, AllocError>
        ensures { IfOk result (λ made. IsOfAttribute NameAttr.SerialNumber value made) }
    {
        AttributeTypeAndValue::of_string(alloc, NameAttr::SerialNumber, value)
    }

    /// A country, by two letters.
    pub fn new_country_name(alloc: Global, value: DirectoryString) -> Result<Self, AllocError>
        ensures { IfOk result (λ made. IsOfAttribute NameAttr.CountryName value made) }
    {
        AttributeTypeAndValue::of_string(alloc, NameAttr::CountryName, value)
    }

    /// A place.
    pub fn new_locality_name(alloc: Global, value: DirectoryString) -> Result<Self, AllocError>
        ensures { IfOk result (λ made. IsOfAttribute NameAttr.LocalityName value made) }
    {
        AttributeTypeAndValue::of_string(alloc, NameAttr::LocalityName, value)
    }

    /// A state or province.
    pub fn new_state_or_province_name(
        alloc: Global,
        value: DirectoryString,
    ) -> Result<Self, AllocError>
        ensures { IfOk result (λ made. IsOfAttribute NameAttr.StateOrProvinceName value made) }
    {
        AttributeTypeAndValue::of_string(alloc, NameAttr::StateOrProvinceName, value)
    }

    /// A street.
    pub fn new_street_name(alloc: Global, value: DirectoryString) -> Result<Self, AllocError>
        ensures { IfOk result (λ made. IsOfAttribute NameAttr.StreetName value made) }
    {
        AttributeTypeAndValue::of_string(alloc, NameAttr::StreetName, value)
    }

    /// An organization.
    pub fn new_organization_name(alloc: Global, value: DirectoryString) -> Result<Self, AllocError>
        ensures { IfOk result (λ made. IsOfAttribute NameAttr.OrganizationName value made) }
    {
        AttributeTypeAndValue::of_string(alloc, NameAttr::OrganizationName, value)
    }

    /// A part of an organization.
    pub fn new_organizational_unit_name(
        alloc: Global,
        value: DirectoryString,
    ) -> Result<Self, AllocError>
        ensures { IfOk result (λ made. IsOfAttribute NameAttr.OrganizationalUnitName value made) }
    {
        AttributeTypeAndValue::of_string(alloc, NameAttr::OrganizationalUnitName, value)
    }

    /// A person's given names.
    pub fn new_given_name(alloc: Global, value: DirectoryString) -> Result<Self, AllocError>
        ensures { IfOk result (λ made. IsOfAttribute NameAttr.GivenName value made) }
    {
        AttributeTypeAndValue::of_string(alloc, NameAttr::GivenName, value)
    }

    /// A telephone number.
    pub fn new_phone(alloc: Global, value: DirectoryString) -> Result<Self, AllocError>
        ensures { IfOk result (λ made. IsOfAttribute NameAttr.Phone value made) }
    {
        AttributeTypeAndValue::of_string(alloc, NameAttr::Phone, value)
    }

    /// An address of electronic mail.
    pub fn new_email_address(alloc: Global, address: IA5StringAsn1) -> Result<Self, AllocError>
        ensures { IfOk result (λ made. IsOfAddress address made) }
    {
        let oid = x509_oids::email_address(alloc)?;
        let _octets = address.as_bytes();
        Ok(AttributeTypeAndValue {
            ty: ObjectIdentifierAsn1(oid),
            value: AttributeValue::Email(address),
        })
    }
}

// A string of a name holds a text of its type.
fn look_at_text(string: &DirectoryString)
    ensures { IsTrue (is_directory_text string.now) }
{
    match string {
        DirectoryString::PrintableString(text) => {
            let _octets = text.as_bytes();
        }
        DirectoryString::Utf8String(text) => {
            let _octets = text.as_bytes();
        }
        DirectoryString::BmpString(text) => {
            let _octets = text.as_bytes();
        }
    }
}

impl Agreed<AttributeRow> for AttributeTypeAndValue {
    ghost use Rattle.x509_fields.specs.Attributes.{value_raw};

    ghost row_of = { λ v. (v.ty, (value_raw v.value, tt)) };

    fn of_fields(alloc: Global, fields: AttributeRow) -> Result<Option<Self>, AllocError> {
        let (ty, (raw, ())) = fields;
        let Some(value) = value_of(alloc, &ty.0, raw)? else {
            return Ok(None);
        };
        Ok(Some(AttributeTypeAndValue { ty, value }))
    }
}

impl Tagged for AttributeTypeAndValue {
    ghost use Rattle.std.proofs.Common.{ap, refl, true};
    ghost use Rattle.asn1_der.specs.Tagged.{sequence};
    ghost use Rattle.asn1_der.proofs.Tagged.{sequence_laws};
    ghost use Rattle.x509_fields.specs.Attributes.{value_raw};
    ghost use Rattle.x509_fields.specs.AttributeLaws.{same_attribute, held_tag_laws};

    type Row = AttributeTypeAndValue;

    const FIRST: u8 = SEQUENCE;

    ghost FIRST = { sequence_octet };

    ghost row_tree = { λ octet v. sequence ⟦<AttributeRow as Fields>⟧.trees octet (v.ty, (value_raw v.value, tt)) };

    ghost row_laws = { held_tag_laws (sequence ⟦<AttributeRow as Fields>⟧.trees) (sequence_laws ⟦<AttributeRow as Fields>⟧.trees (⟦<AttributeRow as Fields>⟧.injective (refl {a = true})))
        (λ v. (v.ty, (value_raw v.value, tt))) same_attribute };

    ghost row_of = { λ v. v };

    ghost one_row = { λ v w e. e };

    fn read_row<R: Source>(tag: u8, from: &mut Deserializer<R>) -> Result<Self, Asn1DerError> {
        read_agreed::<AttributeTypeAndValue, AttributeRow, R>(tag, from)
    }

    fn of_row(row: Self) -> Self {
        row
    }

    fn write_row<W: Sink>(&self, tag: u8, to: &mut Serializer<W>) -> Result<usize, Asn1DerError> {
        match &self.value {
            AttributeValue::Directory(string) => to.list(tag, &(&self.ty, (string, ()))),
            AttributeValue::Email(address) => to.list(tag, &(&self.ty, (address, ()))),
            AttributeValue::Custom(raw) => to.list(tag, &(&self.ty, (raw, ()))),
        }
    }
}

impl Exact for AttributeTypeAndValue {
    ghost plain = { tt };
}

// The value that the element is, of the type that the identifier decides; none where it isn't of that type.
fn value_of(
    alloc: Global,
    oid: &ObjectIdentifier,
    raw: RawElement,
) -> Result<Option<AttributeValue>, AllocError>
    ensures { IfOk result (λ read. MatchOption read
        ((value : AttributeValue) → IsTrue (is_value_of oid.now value) → value_raw value ≡ raw → ⊥)
        (λ value. IsTrue (is_value_of oid.now value) × (value_raw value ≡ raw))) }
{
    if is_string_attribute(oid) {
        let Some(string) = directory_of(alloc, &raw)? else {
            return Ok(None);
        };
        return Ok(Some(AttributeValue::Directory(string)));
    }
    if is_email_address(oid) {
        let Some(address) = email_of(alloc, &raw)? else {
            return Ok(None);
        };
        return Ok(Some(AttributeValue::Email(address)));
    }
    Ok(Some(AttributeValue::Custom(raw)))
}

// Whether this is an attribute that has a string of a name.
fn is_string_attribute(oid: &ObjectIdentifier) -> bool
    ensures { result ≡ is_string_content (oid_content oid.now) }
{
    let [first, second, number] = oid.as_bytes() else {
        return false;
    };
    *first == 0x55 && *second == 4 && matches!(*number, 3..=11 | 20 | 42)
}

// The attribute that has this identifier.
#[tactic(auto, using(crate::specs::NameAttrs::number_told))]
fn name_of(oid: &ObjectIdentifier) -> NameAttr
    requires { IsTrue (is_string_content (oid_content oid.now)) }
    ensures { oid_content oid.now ≡ attribute_content result }
{
    match string_number(oid) {
        3 => NameAttr::CommonName,
        4 => NameAttr::Surname,
        5 => NameAttr::SerialNumber,
        6 => NameAttr::CountryName,
        7 => NameAttr::LocalityName,
        8 => NameAttr::StateOrProvinceName,
        9 => NameAttr::StreetName,
        10 => NameAttr::OrganizationName,
        11 => NameAttr::OrganizationalUnitName,
        42 => NameAttr::GivenName,
        _ => NameAttr::Phone,
    }
}

// The arc behind id-at, 0 where there is none.
fn string_number(oid: &ObjectIdentifier) -> u8
    ensures { result ≡ string_number (oid_content oid.now) }
{
    match oid.as_bytes() {
        [_, _, number] => *number,
        _ => 0,
    }
}

// Whether this is commonName.
fn is_common_name(oid: &ObjectIdentifier) -> bool
    ensures { result ≡ is_common_content (oid_content oid.now) }
{
    oid.as_bytes() == [0x55, 4, 3].as_slice()
}

// Whether this is emailAddress.
fn is_email_address(oid: &ObjectIdentifier) -> bool
    ensures { result ≡ is_email_content (oid_content oid.now) }
{
    oid.as_bytes() == [0x2A, 0x86, 0x48, 0x86, 0xF7, 0x0D, 1, 9, 1].as_slice()
}

// The address that the element is, none where it is none.
fn email_of(alloc: Global, raw: &RawElement) -> Result<Option<IA5StringAsn1>, AllocError>
    ensures { IfOk result (λ read. MatchOption read
        ((address : List ℕ) → IsTrue (is_general_string address) → record { first = ia5_string_octet; content = address } ≡ raw.now → ⊥)
        (λ address. IsTrue (is_general_string address) × (record { first = ia5_string_octet; content = address } ≡ raw.now))) }
{
    if raw.first() != IA5_STRING {
        return Ok(None);
    }
    IA5StringAsn1::from_content(alloc, raw.content())
}

// The string that the element is, none where it is none of a name.
fn directory_of(alloc: Global, raw: &RawElement) -> Result<Option<DirectoryString>, AllocError>
    ensures { IfOk result (λ read. MatchOption read
        ((string : DirectoryString) → IsTrue (is_directory_text string) → directory_raw string ≡ raw.now → ⊥)
        (λ string. IsTrue (is_directory_text string) × (directory_raw string ≡ raw.now))) }
{
    if raw.first() == PRINTABLE_STRING {
        let string = PrintableStringAsn1::from_content(alloc, raw.content())?;
        return Ok(string.map(DirectoryString::PrintableString));
    }
    if raw.first() == UTF8_STRING {
        let string = Utf8StringAsn1::from_content(alloc, raw.content())?;
        return Ok(string.map(DirectoryString::Utf8String));
    }
    if raw.first() == BMP_STRING {
        let string = BmpStringAsn1::from_content(alloc, raw.content())?;
        return Ok(string.map(DirectoryString::BmpString));
    }
    Ok(None)
}
