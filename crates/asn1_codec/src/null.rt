//! NULL.
ghost use Rattle.std.specs.Prelude.{◌≡◌, IfOk};
ghost use Rattle.asn1_der.specs.Octets.{null_octet};

use crate::leaf::Leaf;
use crate::ser::Serializer;
use asn1_der::octets::NULL;
use asn1_der::{Asn1DerError, Rule};
use byte_streams::Sink;
use std::alloc::{AllocError, Global};

/// NULL (X.690, section 8.8): `05 00`.
impl Leaf for () {
    ghost use Rattle.std.specs.Prelude.{true, refl};
    ghost use Rattle.asn1_codec.specs.Nulls.{null_content};

    const OCTET: u8 = NULL;

    const RULE: Rule = Rule::Null;

    ghost OCTET = { null_octet };

    ghost is_valid = { λ _. true };

    ghost content_of = { null_content };

    ghost one_content = { λ v w _ _ e. refl };

    fn decode(alloc: Global, content: &[u8]) -> Result<Option<Self>, AllocError> {
        if content.is_empty() {
            Ok(Some(()))
        } else {
            Ok(None)
        }
    }

    fn write_content<W: Sink>(
        &self,
        tag: u8,
        to: &mut Serializer<W>,
    ) -> Result<usize, Asn1DerError> {
        to.element(tag, &[])
    }
}
