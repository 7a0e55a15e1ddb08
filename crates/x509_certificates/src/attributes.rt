//! Lists of attributes (RFC 2986, section 4.1).
use crate::attribute::Attribute;
use crate::{ListElement, SpelledList};
use asn1_der::octets::SEQUENCE;

/// Attributes, in their order.
///
/// ```text
/// SEQUENCE OF Attribute
/// ```
pub type Attributes = SpelledList<SEQUENCE, Attribute>;

impl ListElement for Attribute {
    ghost use Rattle.std.proofs.Common.{refl};

    ghost one_octet = { refl };

    ghost is_copy = { λ value copy same. same };
}
