//! An INTEGER in DER.
ghost use Rattle.std.specs.Prelude.{◌≡◌, IfOk};
ghost use Rattle.asn1_der.specs.Octets.{integer_octet};

use crate::integer::IntegerAsn1;
use asn1_der::octets::INTEGER;
use byte_streams::Sink;
use picky_asn1_der::{Asn1DerError, Leaf, Rule, Serializer};
use std::alloc::{AllocError, Global};

impl Leaf for IntegerAsn1 {
    ghost use Rattle.std.specs.Prelude.{true};
    ghost use Rattle.picky_asn1.specs.Integer.{integer_content};
    ghost use Rattle.picky_asn1.specs.IntegerLaws.{integer_content-injective};

    const OCTET: u8 = INTEGER;

    const RULE: Rule = Rule::Integer;

    ghost OCTET = { integer_octet };

    ghost is_valid = { λ _. true };

    ghost content_of = { integer_content };

    ghost one_content = { λ v w _ _ e. integer_content-injective v w e };

    fn decode(alloc: Global, content: &[u8]) -> Result<Option<Self>, AllocError> {
        IntegerAsn1::from_content(alloc, content)
    }

    fn write_content<W: Sink>(
        &self,
        tag: u8,
        to: &mut Serializer<W>,
    ) -> Result<usize, Asn1DerError> {
        to.element(tag, self.as_signed_bytes_be())
    }
}
