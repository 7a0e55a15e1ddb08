//! The string types in DER: the number of the type is the identifier octet.
ghost use Rattle.std.specs.Prelude.{◌≡◌, IfOk};

use crate::restricted_string::{CharSet, RestrictedString};
use byte_streams::Sink;
use picky_asn1_der::{Asn1DerError, Leaf, Rule, Serializer};
use std::alloc::{AllocError, Global};

impl<C: CharSet> Leaf for RestrictedString<C> {
    const OCTET: u8 = C::NUMBER;

    const RULE: Rule = Rule::Characters;

    ghost OCTET = { C.NUMBER };

    ghost is_valid = { C.is_text };

    ghost content_of = { λ octets. octets };

    ghost one_content = { λ v w _ _ e. e };

    fn decode(alloc: Global, content: &[u8]) -> Result<Option<Self>, AllocError> {
        RestrictedString::from_content(alloc, content)
    }

    fn write_content<W: Sink>(
        &self,
        tag: u8,
        to: &mut Serializer<W>,
    ) -> Result<usize, Asn1DerError> {
        to.element(tag, self.as_bytes())
    }
}
