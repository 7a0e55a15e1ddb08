//! BOOLEAN.
ghost use Rattle.std.specs.Prelude.{◌≡◌, IfOk};
ghost use Rattle.asn1_der.specs.Octets.{boolean_octet};

use crate::leaf::Leaf;
use crate::ser::Serializer;
use asn1_der::octets::BOOLEAN;
use asn1_der::{Asn1DerError, Rule};
use byte_streams::Sink;
use std::alloc::{AllocError, Global};

/// BOOLEAN (X.690, sections 8.2 and 11.1): `01 01 00` is false and `01 01 FF` true.
impl Leaf for bool {
    ghost use Rattle.std.specs.Prelude.{true};
    ghost use Rattle.asn1_codec.specs.Booleans.{bool_content};
    ghost use Rattle.asn1_codec.specs.BooleanLaws.{bool_content-injective};

    const OCTET: u8 = BOOLEAN;

    const RULE: Rule = Rule::Boolean;

    ghost OCTET = { boolean_octet };

    ghost is_valid = { λ _. true };

    ghost content_of = { bool_content };

    ghost one_content = { λ v w _ _ e. bool_content-injective v w e };

    fn decode(alloc: Global, content: &[u8]) -> Result<Option<Self>, AllocError> {
        match content {
            [0x00] => Ok(Some(false)),
            [0xFF] => Ok(Some(true)),
            _ => Ok(None),
        }
    }

    fn write_content<W: Sink>(
        &self,
        tag: u8,
        to: &mut Serializer<W>,
    ) -> Result<usize, Asn1DerError> {
        let octet = if *self { 0xFF } else { 0x00 };
        to.element(tag, &[octet])
    }
}
