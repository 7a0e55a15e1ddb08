//! An OBJECT IDENTIFIER in DER.
ghost use Rattle.std.specs.Prelude.{◌≡◌, IfOk};
ghost use Rattle.asn1_der.specs.Octets.{object_identifier_octet};

use crate::oid::ObjectIdentifier;
use crate::wrapper::ObjectIdentifierAsn1;
use asn1_der::octets::OBJECT_IDENTIFIER;
use byte_streams::Sink;
use picky_asn1_der::{Asn1DerError, Leaf, Rule, Serializer};
use std::alloc::{AllocError, Global};

impl Leaf for ObjectIdentifierAsn1 {
    ghost use Rattle.asn1_leaves.specs.ObjectIdentifier.{is_object_identifier, oid_content};
    ghost use Rattle.asn1_leaves.proofs.OidLemmas.{oid_content-injective};

    const OCTET: u8 = OBJECT_IDENTIFIER;

    const RULE: Rule = Rule::ObjectIdentifier;

    ghost OCTET = { object_identifier_octet };

    ghost is_valid = { λ oid. is_object_identifier oid.0 };

    ghost content_of = { λ oid. oid_content oid.0 };

    ghost one_content = { λ v w left right e. let same = oid_content-injective v.0 w.0 left right e in λ i. record { 0 = same i } };

    fn decode(alloc: Global, content: &[u8]) -> Result<Option<Self>, AllocError> {
        let Some(oid) = ObjectIdentifier::from_content(alloc, content)? else {
            return Ok(None);
        };
        Ok(Some(ObjectIdentifierAsn1(oid)))
    }

    fn write_content<W: Sink>(
        &self,
        tag: u8,
        to: &mut Serializer<W>,
    ) -> Result<usize, Asn1DerError> {
        to.element(tag, self.0.as_bytes())
    }
}
