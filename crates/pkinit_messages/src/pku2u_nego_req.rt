//! Requests of a negotiation.
ghost use Rattle.asn1_der.specs.Octets.{sequence_octet};

use crate::pku2u_nego_body::Pku2uNegoBody;
use crate::pku2u_nego_req_metadata::Pku2uNegoReqMetadata;
use asn1_der::octets::SEQUENCE;
use byte_streams::{Sink, Source};
use picky_asn1::wrapper::Asn1SequenceOf;
use picky_asn1_der::{
    Asn1DerError, Deserializer, ExplicitContextTag0, ExplicitContextTag1, Fields, Row2, Serializer,
    Tagged, fields_of, from_fields, read_sequence,
};

/// A client's part in a negotiation of PKU2U, as Windows sends it.
///
/// ```text
/// SEQUENCE {
///      metadata   [0] SEQUENCE OF SEQUENCE { inner [0] IMPLICIT OCTET STRING },
///      body       [1] SEQUENCE { realm [0] Realm, sname [1] PrincipalName } }
/// ```
#[derive(Debug, Drop, PartialEq, Eq, Clone)]
pub struct Pku2uNegoReq {
    /// Whom the client trusts.
    pub metadata: ExplicitContextTag0<Asn1SequenceOf<Pku2uNegoReqMetadata>>,
    /// The service.
    pub body: ExplicitContextTag1<Pku2uNegoBody>,
}

type Pku2uNegoReqRow = Row2<
    ExplicitContextTag0<Asn1SequenceOf<Pku2uNegoReqMetadata>>,
    ExplicitContextTag1<Pku2uNegoBody>,
>;

impl Tagged for Pku2uNegoReq {
    ghost use Rattle.std.proofs.Common.{ap, refl, true};
    ghost use Rattle.asn1_der.specs.Tagged.{sequence};
    ghost use Rattle.asn1_der.proofs.Tagged.{sequence_laws};

    type Row = Pku2uNegoReqRow;

    const FIRST: u8 = SEQUENCE;

    ghost FIRST = { sequence_octet };

    ghost row_tree = { sequence ⟦<Pku2uNegoReqRow as Fields>⟧.trees };

    ghost row_laws = { sequence_laws ⟦<Pku2uNegoReqRow as Fields>⟧.trees (⟦<Pku2uNegoReqRow as Fields>⟧.injective (refl {a = true})) };

    ghost row_of = { λ v. (v.metadata, (v.body, tt)) };

    ghost one_row = { λ v w e. ap (λ f. record { metadata = f.0; body = f.1.0 }) e };

    fn read_row<R: Source>(tag: u8, from: &mut Deserializer<R>) -> Result<Self::Row, Asn1DerError> {
        read_sequence(tag, from)
    }

    fn of_row(row: Self::Row) -> Self {
        from_fields![row; metadata, body]
    }

    fn write_row<W: Sink>(&self, tag: u8, to: &mut Serializer<W>) -> Result<usize, Asn1DerError> {
        to.list(tag, &fields_of![self; metadata, body])
    }
}
