//! GeneralString in DER (X.690, section 8.23).
ghost use Rattle.std.specs.Prelude.{◌≡◌, IfOk};
ghost use Rattle.asn1_der.specs.Octets.{general_string_octet};

use crate::general_string::GeneralStringAsn1;
use asn1_der::octets::GENERAL_STRING;
use byte_streams::Sink;
use picky_asn1_der::{Asn1DerError, Leaf, Rule, Serializer};
use std::alloc::{AllocError, Global};

impl Leaf for GeneralStringAsn1 {
    ghost use Rattle.asn1_leaves.specs.CharSets.{is_general_string};

    const OCTET: u8 = GENERAL_STRING;

    const RULE: Rule = Rule::Characters;

    ghost OCTET = { general_string_octet };

    ghost is_valid = { is_general_string };

    ghost content_of = { λ characters. characters };

    ghost one_content = { λ v w _ _ e. e };

    fn decode(alloc: Global, content: &[u8]) -> Result<Option<Self>, AllocError> {
        GeneralStringAsn1::from_content(alloc, content)
    }

    fn write_content<W: Sink>(
        &self,
        tag: u8,
        to: &mut Serializer<W>,
    ) -> Result<usize, Asn1DerError> {
        to.element(tag, self.as_bytes())
    }
}
