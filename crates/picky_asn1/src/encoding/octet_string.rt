//! An OCTET STRING in DER.
ghost use Rattle.std.specs.Prelude.{◌≡◌, IfOk};
ghost use Rattle.asn1_der.specs.Octets.{octet_string_octet};

use crate::octet_string::OctetStringAsn1;
use asn1_der::octets::OCTET_STRING;
use byte_streams::Sink;
use picky_asn1_der::{Asn1DerError, Leaf, Rule, Serializer};
use std::alloc::{AllocError, Global};

impl Leaf for OctetStringAsn1 {
    ghost use Rattle.std.specs.Prelude.{true};

    const OCTET: u8 = OCTET_STRING;

    const RULE: Rule = Rule::Characters;

    ghost OCTET = { octet_string_octet };

    ghost is_valid = { λ _. true };

    ghost content_of = { λ octets. octets };

    ghost one_content = { λ v w _ _ e. e };

    fn decode(alloc: Global, content: &[u8]) -> Result<Option<Self>, AllocError> {
        let octets = OctetStringAsn1::new(alloc, content)?;
        Ok(Some(octets))
    }

    fn write_content<W: Sink>(
        &self,
        tag: u8,
        to: &mut Serializer<W>,
    ) -> Result<usize, Asn1DerError> {
        to.element(tag, self.as_bytes())
    }
}
