//! Identifier octets (X.690, section 8.1.2).
pub use picky_asn1_der::{Tag, TagClass, TagPeeker};
