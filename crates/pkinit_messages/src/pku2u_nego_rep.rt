//! Replies of a negotiation.
ghost use Rattle.asn1_der.specs.Octets.{sequence_octet};

use crate::pku2u_nego_req_metadata::Pku2uNegoReqMetadata;
use asn1_der::octets::SEQUENCE;
use byte_streams::{Sink, Source};
use picky_asn1::wrapper::Asn1SequenceOf;
use picky_asn1_der::{
    Asn1DerError, Deserializer, ExplicitContextTag0, Fields, Row1, Serializer, Tagged, fields_of,
    from_fields, read_sequence,
};

/// A service's part in a negotiation of PKU2U, as Windows sends it.
///
/// ```text
/// SEQUENCE {
///      metadata   [0] SEQUENCE OF SEQUENCE { inner [0] IMPLICIT OCTET STRING } }
/// ```
#[derive(Debug, Drop, PartialEq, Eq, Clone)]
pub struct Pku2uNegoRep {
    /// Whom the service trusts.
    pub metadata: ExplicitContextTag0<Asn1SequenceOf<Pku2uNegoReqMetadata>>,
}

type Pku2uNegoRepRow = Row1<ExplicitContextTag0<Asn1SequenceOf<Pku2uNegoReqMetadata>>>;

impl Tagged for Pku2uNegoRep {
    ghost use Rattle.std.proofs.Common.{ap, refl, true};
    ghost use Rattle.asn1_der.specs.Tagged.{sequence};
    ghost use Rattle.asn1_der.proofs.Tagged.{sequence_laws};

    type Row = Pku2uNegoRepRow;

    const FIRST: u8 = SEQUENCE;

    ghost FIRST = { sequence_octet };

    ghost row_tree = { sequence ⟦<Pku2uNegoRepRow as Fields>⟧.trees };

    ghost row_laws = { sequence_laws ⟦<Pku2uNegoRepRow as Fields>⟧.trees (⟦<Pku2uNegoRepRow as Fields>⟧.injective (refl {a = true})) };

    ghost row_of = { λ v. (v.metadata, tt) };

    ghost one_row = { λ v w e. ap (λ f. record { metadata = f.0 }) e };

    fn read_row<R: Source>(tag: u8, from: &mut Deserializer<R>) -> Result<Self::Row, Asn1DerError> {
        read_sequence(tag, from)
    }

    fn of_row(row: Self::Row) -> Self {
        from_fields![row; metadata]
    }

    fn write_row<W: Sink>(&self, tag: u8, to: &mut Serializer<W>) -> Result<usize, Asn1DerError> {
        to.list(tag, &fields_of![self; metadata])
    }
}
