//! Mechanisms.
use picky_asn1::wrapper::{Asn1SequenceOf, ObjectIdentifierAsn1};

/// A mechanism (RFC 4178, section 4.1).
///
/// ```text
/// MechType ::= OBJECT IDENTIFIER
/// ```
pub type MechType = ObjectIdentifierAsn1;

/// Mechanisms, the best first (RFC 4178, section 4.1).
///
/// ```text
/// MechTypeList ::= SEQUENCE OF MechType
/// ```
pub type MechTypeList = Asn1SequenceOf<MechType>;
