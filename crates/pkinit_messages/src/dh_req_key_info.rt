//! The algorithm of a client's public value.
ghost use Rattle.asn1_der.specs.Octets.{sequence_octet};

use crate::dh_domain_parameters::DhDomainParameters;
use asn1_der::octets::SEQUENCE;
use byte_streams::{Sink, Source};
use picky_asn1::wrapper::ObjectIdentifierAsn1;
use picky_asn1_der::{
    Asn1DerError, Deserializer, Fields, Row2, Serializer, Tagged, fields_of, from_fields,
    read_sequence,
};

/// The algorithm of a client's public value, with its group (RFC 4556, section 3.2.1; RFC 3279, section 2.3.3).
///
/// ```text
/// AlgorithmIdentifier ::= SEQUENCE {
///      algorithm   OBJECT IDENTIFIER,
///      parameters  DomainParameters }
/// ```
#[derive(Debug, Drop, PartialEq, Eq, Clone)]
pub struct DhReqKeyInfo {
    /// The algorithm.
    pub identifier: ObjectIdentifierAsn1,
    /// The group.
    pub key_info: DhDomainParameters,
}

type DhReqKeyInfoRow = Row2<ObjectIdentifierAsn1, DhDomainParameters>;

impl Tagged for DhReqKeyInfo {
    ghost use Rattle.std.proofs.Common.{ap, refl, true};
    ghost use Rattle.asn1_der.specs.Tagged.{sequence};
    ghost use Rattle.asn1_der.proofs.Tagged.{sequence_laws};

    type Row = DhReqKeyInfoRow;

    const FIRST: u8 = SEQUENCE;

    ghost FIRST = { sequence_octet };

    ghost row_tree = { sequence ⟦<DhReqKeyInfoRow as Fields>⟧.trees };

    ghost row_laws = { sequence_laws ⟦<DhReqKeyInfoRow as Fields>⟧.trees (⟦<DhReqKeyInfoRow as Fields>⟧.injective (refl {a = true})) };

    ghost row_of = { λ v. (v.identifier, (v.key_info, tt)) };

    ghost one_row = { λ v w e. ap (λ f. record { identifier = f.0; key_info = f.1.0 }) e };

    fn read_row<R: Source>(tag: u8, from: &mut Deserializer<R>) -> Result<Self::Row, Asn1DerError> {
        read_sequence(tag, from)
    }

    fn of_row(row: Self::Row) -> Self {
        from_fields![row; identifier, key_info]
    }

    fn write_row<W: Sink>(&self, tag: u8, to: &mut Serializer<W>) -> Result<usize, Asn1DerError> {
        to.list(tag, &fields_of![self; identifier, key_info])
    }
}
