//! Lists of extensions (RFC 5280, section 4.1).
use crate::extension::Extension;
use crate::spelled_list::{ListElement, SpelledList};
use asn1_der::octets::SEQUENCE;

/// The extensions of a certificate, in their order.
///
/// ```text
/// Extensions  ::=  SEQUENCE SIZE (1..MAX) OF Extension
/// ```
///
/// An empty list is read too.
pub type Extensions = SpelledList<SEQUENCE, Extension>;

impl ListElement for Extension {
    ghost use Rattle.std.proofs.Common.{refl};

    ghost one_octet = { refl };

    ghost is_copy = { λ value copy same. same };
}
