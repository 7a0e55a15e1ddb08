//! Numbers of which a type has one.
ghost use Rattle.std.specs.Prelude.{◌≡◌, ◌%◌, IfOk};
ghost use Rattle.asn1_der.specs.Octets.{integer_octet};

use crate::exact::Exact;
use asn1_der::octets::INTEGER;
use byte_streams::Sink;
use picky_asn1_der::{Asn1DerError, Leaf, Rule, Serializer};
use std::alloc::{AllocError, Global};

/// The INTEGER `N`, which is below 128, as a version that a type always has.
#[derive(Clone, Copy, Debug, PartialEq, Eq)]
pub struct FixedNumber<const N: u8>;

impl<const N: u8> Leaf for FixedNumber<N> {
    ghost use Rattle.std.specs.Prelude.{true, refl, ◌∷◌, []};

    const OCTET: u8 = INTEGER;

    const RULE: Rule = Rule::Integer;

    ghost OCTET = { integer_octet };

    ghost is_valid = { λ _. true };

    ghost content_of = { λ _. N % 128 ∷ [] };

    ghost one_content = { λ v w _ _ _. refl };

    fn decode(_alloc: Global, content: &[u8]) -> Result<Option<Self>, AllocError> {
        let [number] = content else {
            return Ok(None);
        };
        if *number != N % 128 {
            return Ok(None);
        }
        Ok(Some(FixedNumber))
    }

    fn write_content<W: Sink>(
        &self,
        tag: u8,
        to: &mut Serializer<W>,
    ) -> Result<usize, Asn1DerError> {
        to.element(tag, &[N % 128])
    }
}

impl<const N: u8> Exact for FixedNumber<N> {
    ghost plain = { tt };
}
