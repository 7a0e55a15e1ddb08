//! Attributes that have a string of a name.
ghost use Rattle.std.specs.Prelude.{◌≡◌, IfOk};
ghost use Rattle.x509_fields.specs.NameAttrs.{attribute_arcs};
ghost use Rattle.x509_fields.specs.Parameters.{IsStringView};

use crate::DirectoryString;
use crate::attribute_parameters::AttributeTypeAndValueParameters;
use picky_asn1::oid::ObjectIdentifier;
use std::alloc::{AllocError, Global};

/// An attribute of a name, of which the value is a string.
#[derive(Clone, Copy, Debug, PartialEq, Eq)]
pub enum NameAttr {
    /// The name of the thing itself.
    CommonName,
    /// A family's name.
    Surname,
    /// A number that distinguishes devices or people.
    SerialNumber,
    /// A country, by two letters.
    CountryName,
    /// A place.
    LocalityName,
    /// A state or province.
    StateOrProvinceName,
    /// A street.
    StreetName,
    /// An organization.
    OrganizationName,
    /// A part of an organization.
    OrganizationalUnitName,
    /// A person's given names.
    GivenName,
    /// A telephone number.
    Phone,
}

impl NameAttr {
    /// The attribute's identifier.
    pub fn identifier(self, alloc: Global) -> Result<ObjectIdentifier, AllocError>
        ensures { IfOk result (λ oid. oid ≡ attribute_arcs self) }
    {
        match self {
            NameAttr::CommonName => x509_oids::at_common_name(alloc),
            NameAttr::Surname => x509_oids::at_surname(alloc),
            NameAttr::SerialNumber => x509_oids::at_serial_number(alloc),
            NameAttr::CountryName => x509_oids::at_country_name(alloc),
            NameAttr::LocalityName => x509_oids::at_locality_name(alloc),
            NameAttr::StateOrProvinceName => x509_oids::at_state_or_province_name(alloc),
            NameAttr::StreetName => x509_oids::at_street_name(alloc),
            NameAttr::OrganizationName => x509_oids::at_organisation_name(alloc),
            NameAttr::OrganizationalUnitName => x509_oids::at_organisational_unit_name(alloc),
            NameAttr::GivenName => x509_oids::at_givenname(alloc),
            NameAttr::Phone => x509_oids::at_phone(alloc),
        }
    }

    /// A string as the value of this attribute.
    pub fn with_string(self, string: &DirectoryString) -> AttributeTypeAndValueParameters<'_>
        ensures { IsStringView result self string.now }
    {
        match self {
            NameAttr::CommonName => AttributeTypeAndValueParameters::CommonName(string),
            NameAttr::Surname => AttributeTypeAndValueParameters::Surname(string),
            NameAttr::SerialNumber => AttributeTypeAndValueParameters::SerialNumber(string),
            NameAttr::CountryName => AttributeTypeAndValueParameters::CountryName(string),
            NameAttr::LocalityName => AttributeTypeAndValueParameters::LocalityName(string),
            NameAttr::StateOrProvinceName => AttributeTypeAndValueParameters::StateOrProvinceName(
                string,
            ),
            NameAttr::StreetName => AttributeTypeAndValueParameters::StreetName(string),
            NameAttr::OrganizationName => AttributeTypeAndValueParameters::OrganizationName(string),
            NameAttr::OrganizationalUnitName =>
                AttributeTypeAndValueParameters::OrganizationalUnitName(string),
            NameAttr::GivenName => AttributeTypeAndValueParameters::GivenName(string),
            NameAttr::Phone => AttributeTypeAndValueParameters::Phone(string),
        }
    }
}
