//! Values of attributes of names, borrowed (RFC 5280, section 4.1.2.4).
use crate::DirectoryString;
use picky_asn1::wrapper::IA5StringAsn1;
use picky_asn1_der::RawElement;

/// The value of an attribute, as the attribute's identifier names it.
#[derive(Clone, Copy, Debug, PartialEq, Eq)]
pub enum AttributeTypeAndValueParameters<'a> {
    /// The name of the thing itself.
    CommonName(&'a DirectoryString),
    /// A family's name.
    Surname(&'a DirectoryString),
    /// A number that distinguishes devices or people.
    SerialNumber(&'a DirectoryString),
    /// A country, by two letters.
    CountryName(&'a DirectoryString),
    /// A place.
    LocalityName(&'a DirectoryString),
    /// A state or province.
    StateOrProvinceName(&'a DirectoryString),
    /// A street.
    StreetName(&'a DirectoryString),
    /// An organization.
    OrganizationName(&'a DirectoryString),
    /// A part of an organization.
    OrganizationalUnitName(&'a DirectoryString),
    /// An address of electronic mail.
    EmailAddress(&'a IA5StringAsn1),
    /// A person's given names.
    GivenName(&'a DirectoryString),
    /// A telephone number.
    Phone(&'a DirectoryString),
    /// An element of any type.
    Custom(&'a RawElement),
}
