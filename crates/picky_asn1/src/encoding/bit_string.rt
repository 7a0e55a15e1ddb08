//! A BIT STRING in DER.
ghost use Rattle.std.specs.Prelude.{◌≡◌, IfOk};
ghost use Rattle.asn1_der.specs.Octets.{bit_string_octet};

use crate::bit_string::BitStringAsn1;
use asn1_der::octets::BIT_STRING;
use byte_streams::Sink;
use picky_asn1_der::{Asn1DerError, Leaf, Rule, Serializer};
use std::alloc::{AllocError, Global};

impl Leaf for BitStringAsn1 {
    ghost use Rattle.picky_asn1.specs.BitString.{is_bit_string, bit_content};
    ghost use Rattle.picky_asn1.specs.BitStringLaws.{bit_content-injective};

    const OCTET: u8 = BIT_STRING;

    const RULE: Rule = Rule::BitString;

    ghost OCTET = { bit_string_octet };

    ghost is_valid = { is_bit_string };

    ghost content_of = { bit_content };

    ghost one_content = { λ v w _ _ e. bit_content-injective v w e };

    fn decode(alloc: Global, content: &[u8]) -> Result<Option<Self>, AllocError> {
        BitStringAsn1::from_content(alloc, content)
    }

    fn write_content<W: Sink>(
        &self,
        tag: u8,
        to: &mut Serializer<W>,
    ) -> Result<usize, Asn1DerError> {
        to.element_behind(tag, self.unused(), self.as_bytes())
    }
}
