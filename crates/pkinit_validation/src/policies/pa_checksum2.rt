//! A digest of the request's body, with its algorithm.
ghost use Rattle.asn1_der.specs.Octets.{sequence_octet};

use asn1_der::octets::SEQUENCE;
use byte_streams::{Sink, Source};
use cms_signed_data::general_form::AnyAlgorithm;
use picky_asn1::wrapper::OctetStringAsn1;
use picky_asn1_der::{
    Asn1DerError, Deserializer, ExplicitContextTag0, ExplicitContextTag1, Fields, Row2, Serializer,
    Tagged, fields_of, from_fields, read_sequence,
};

/// A digest of the request's body, with its algorithm (MS-PKCA, section 2.2.3).
///
/// ```text
/// PAChecksum2 ::= SEQUENCE {
///      checksum             [0] OCTET STRING,
///      algorithmIdentifier  [1] AlgorithmIdentifier }
/// ```
#[derive(Drop)]
pub struct PaChecksum2 {
    /// The digest.
    pub checksum: ExplicitContextTag0<OctetStringAsn1>,
    /// The digest's algorithm.
    pub algorithm_identifier: ExplicitContextTag1<AnyAlgorithm>,
}

type PaChecksum2Row = Row2<ExplicitContextTag0<OctetStringAsn1>, ExplicitContextTag1<AnyAlgorithm>>;

impl Tagged for PaChecksum2 {
    ghost use Rattle.std.proofs.Common.{ap, refl, true};
    ghost use Rattle.asn1_der.specs.Tagged.{sequence};
    ghost use Rattle.asn1_der.proofs.Tagged.{sequence_laws};

    type Row = PaChecksum2Row;

    const FIRST: u8 = SEQUENCE;

    ghost FIRST = { sequence_octet };

    ghost row_tree = { sequence ⟦<PaChecksum2Row as Fields>⟧.trees };

    ghost row_laws = { sequence_laws ⟦<PaChecksum2Row as Fields>⟧.trees (⟦<PaChecksum2Row as Fields>⟧.injective (refl {a = true})) };

    ghost row_of = { λ v. (v.checksum, (v.algorithm_identifier, tt)) };

    ghost one_row = { λ v w e. ap (λ f. record { checksum = f.0; algorithm_identifier = f.1.0 }) e };

    fn read_row<R: Source>(tag: u8, from: &mut Deserializer<R>) -> Result<Self::Row, Asn1DerError> {
        read_sequence(tag, from)
    }

    fn of_row(row: Self::Row) -> Self {
        from_fields![row; checksum, algorithm_identifier]
    }

    fn write_row<W: Sink>(&self, tag: u8, to: &mut Serializer<W>) -> Result<usize, Asn1DerError> {
        to.list(tag, &fields_of![self; checksum, algorithm_identifier])
    }
}
