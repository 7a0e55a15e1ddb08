//! Spellings of extensions and attributes, and of what is in them, by the names of their types.
use crate::first_of;
use crate::x509::line::Recorded;
use crate::x509::told::{Answer, spelled_as};
use picky_asn1_x509::{
    Attribute, Attributes, AuthorityKeyIdentifier, BasicConstraints, ExtendedKeyUsage, Extension,
    Extensions, KeyUsage, OpenSslAttributes,
};
use std::alloc::Global;

/// Whether a spelling of such a type is read, counted and rewritten as expected; none for any other type.
pub fn agrees(alloc: Global, recorded: &Recorded<'_>) -> Option<Answer> {
    first_of(&[
        spelled_as::<Attribute>(alloc, recorded, "Attribute"),
        spelled_as::<Attributes>(alloc, recorded, "Attributes"),
        spelled_as::<AuthorityKeyIdentifier>(alloc, recorded, "AuthorityKeyIdentifier"),
        spelled_as::<BasicConstraints>(alloc, recorded, "BasicConstraints"),
        spelled_as::<ExtendedKeyUsage>(alloc, recorded, "ExtendedKeyUsage"),
        spelled_as::<Extension>(alloc, recorded, "Extension"),
        spelled_as::<Extensions>(alloc, recorded, "Extensions"),
        spelled_as::<KeyUsage>(alloc, recorded, "KeyUsage"),
        spelled_as::<OpenSslAttributes>(alloc, recorded, "OpenSslAttributes"),
    ])
}
