//! Metadata of PKU2U.
ghost use Rattle.asn1_der.specs.Octets.{sequence_octet};

use asn1_der::octets::SEQUENCE;
use byte_streams::{Sink, Source};
use picky_asn1::wrapper::OctetStringAsn1;
use picky_asn1_der::{
    Asn1DerError, Deserializer, Fields, ImplicitContextTag0, Row1, Serializer, Tagged, fields_of,
    from_fields, read_sequence,
};

/// What a peer that is named in a negotiation of PKU2U is known by, as Windows sends it.
///
/// ```text
/// SEQUENCE {
///      inner   [0] IMPLICIT OCTET STRING }
/// ```
#[derive(Debug, Drop, PartialEq, Eq, Clone)]
pub struct Pku2uNegoReqMetadata {
    /// The DER of a Name (RFC 5280, section 4.1.2.6).
    pub inner: ImplicitContextTag0<OctetStringAsn1>,
}

type Pku2uNegoReqMetadataRow = Row1<ImplicitContextTag0<OctetStringAsn1>>;

impl Tagged for Pku2uNegoReqMetadata {
    ghost use Rattle.std.proofs.Common.{ap, refl, true};
    ghost use Rattle.asn1_der.specs.Tagged.{sequence};
    ghost use Rattle.asn1_der.proofs.Tagged.{sequence_laws};

    type Row = Pku2uNegoReqMetadataRow;

    const FIRST: u8 = SEQUENCE;

    ghost FIRST = { sequence_octet };

    ghost row_tree = { sequence ⟦<Pku2uNegoReqMetadataRow as Fields>⟧.trees };

    ghost row_laws = { sequence_laws ⟦<Pku2uNegoReqMetadataRow as Fields>⟧.trees (⟦<Pku2uNegoReqMetadataRow as Fields>⟧.injective (refl {a = true})) };

    ghost row_of = { λ v. (v.inner, tt) };

    ghost one_row = { λ v w e. ap (λ f. record { inner = f.0 }) e };

    fn read_row<R: Source>(tag: u8, from: &mut Deserializer<R>) -> Result<Self::Row, Asn1DerError> {
        read_sequence(tag, from)
    }

    fn of_row(row: Self::Row) -> Self {
        from_fields![row; inner]
    }

    fn write_row<W: Sink>(&self, tag: u8, to: &mut Serializer<W>) -> Result<usize, Asn1DerError> {
        to.list(tag, &fields_of![self; inner])
    }
}
