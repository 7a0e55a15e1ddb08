//! Key derivation functions, as a client lists them.
ghost use Rattle.asn1_der.specs.Octets.{sequence_octet};

use asn1_der::octets::SEQUENCE;
use byte_streams::{Sink, Source};
use picky_asn1::wrapper::ObjectIdentifierAsn1;
use picky_asn1_der::{
    Asn1DerError, Deserializer, Elements, ExplicitContextTag0, Fields, RawElement, Serializer,
    Tagged, fields_of, from_fields, read_sequence,
};

/// A key derivation function (RFC 8636, section 6).
///
/// ```text
/// KDFAlgorithmId ::= SEQUENCE {
///      kdf-id  [0] OBJECT IDENTIFIER,
///      ... }
/// ```
#[derive(Drop)]
pub struct KdfAlgorithmId {
    /// The function's identifier.
    pub kdf_id: ExplicitContextTag0<ObjectIdentifierAsn1>,
    /// All elements behind it.
    pub further: Elements<RawElement>,
}

type KdfAlgorithmIdRow = (
    ExplicitContextTag0<ObjectIdentifierAsn1>,
    Elements<RawElement>,
);

impl Tagged for KdfAlgorithmId {
    ghost use Rattle.std.proofs.Common.{ap, refl, true};
    ghost use Rattle.asn1_der.specs.Tagged.{sequence};
    ghost use Rattle.asn1_der.proofs.Tagged.{sequence_laws};

    type Row = KdfAlgorithmIdRow;

    const FIRST: u8 = SEQUENCE;

    ghost FIRST = { sequence_octet };

    ghost row_tree = { sequence ⟦<KdfAlgorithmIdRow as Fields>⟧.trees };

    ghost row_laws = { sequence_laws ⟦<KdfAlgorithmIdRow as Fields>⟧.trees (⟦<KdfAlgorithmIdRow as Fields>⟧.injective (refl {a = true})) };

    ghost row_of = { λ v. (v.kdf_id, v.further) };

    ghost one_row = { λ v w e. ap (λ f. record { kdf_id = f.0; further = f.1 }) e };

    fn read_row<R: Source>(tag: u8, from: &mut Deserializer<R>) -> Result<Self::Row, Asn1DerError> {
        read_sequence(tag, from)
    }

    fn of_row(row: Self::Row) -> Self {
        from_fields![row; kdf_id; further]
    }

    fn write_row<W: Sink>(&self, tag: u8, to: &mut Serializer<W>) -> Result<usize, Asn1DerError> {
        to.list(tag, &fields_of![self; kdf_id; further])
    }
}
