//! The fields that X.509 certificates and requests are made of (RFC 5280, section 4.1): names, times, strings, versions and basic
//! constraints, each with its spellings.
//!
//! The names and fields are the ported crate's. `x509_codec` reads a value from every spelling that is accepted for it, counts what
//! deviates there, and writes the strict spelling. A name (sections 4.1.2.4 and 4.2.1.6) is spelled in one way.
//!
//! The value and its count are those that `Spelled` of the type defines. Names and other exact types are read if and only if the bytes are
//! their DER (`Exact`), and have a count of 0 alone. `Time::moment` is the moment of a time of either type. The value of an attribute of a
//! name has the type that its identifier decides. The makers of attributes return what their names say, and `Name::find_common_name`
//! returns the first common name. What is printed of a name, a time and a string is proved.
#![tactic(auto)]

mod agreed;
mod attribute_parameters;
mod attribute_type_and_value;
mod basic_constraints;
mod bmp_text;
mod directory_string;
mod edi_party_name;
mod escaped;
mod general_name;
mod general_text;
mod name;
mod name_attr;
mod name_text;
mod other_name;
mod raw_algorithm_identifier;
mod rfc4514;
mod time;
mod validity;
mod version;

pub use agreed::{Agreed, read_agreed};
pub use attribute_parameters::AttributeTypeAndValueParameters;
pub use attribute_type_and_value::{AttributeTypeAndValue, AttributeValue};
pub use basic_constraints::BasicConstraints;
pub use directory_string::DirectoryString;
pub use edi_party_name::EdiPartyName;
pub use general_name::{GeneralName, GeneralNames};
pub use name::{DirectoryName, Name, RdnSequence, RelativeDistinguishedName};
pub use name_attr::NameAttr;
pub use name_text::NamePrettyFormatter;
pub use other_name::OtherName;
pub use raw_algorithm_identifier::{RawAlgorithmIdentifier, RawParameters};
pub use rfc4514::Rfc4514;
pub use time::Time;
pub use validity::Validity;
pub use version::Version;
