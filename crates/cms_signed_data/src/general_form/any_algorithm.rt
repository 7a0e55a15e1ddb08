//! Algorithm identifiers with parameters of any type.
ghost use Rattle.asn1_der.specs.Octets.{sequence_octet};

use asn1_der::octets::SEQUENCE;
use byte_streams::{Sink, Source};
use picky_asn1::wrapper::ObjectIdentifierAsn1;
use picky_asn1_der::{
    Asn1DerError, Deserializer, Elements, Fields, RawElement, Serializer, Tagged, fields_of,
    from_fields, read_sequence,
};

/// An algorithm with parameters of any type, or with none.
///
/// ```text
/// AlgorithmIdentifier ::= SEQUENCE {
///      algorithm   OBJECT IDENTIFIER,
///      parameters  ANY DEFINED BY algorithm OPTIONAL }
/// ```
#[derive(Drop)]
pub struct AnyAlgorithm {
    /// The algorithm's identifier.
    pub algorithm: ObjectIdentifierAsn1,
    /// All elements behind it.
    pub parameters: Elements<RawElement>,
}

type AnyAlgorithmRow = (ObjectIdentifierAsn1, Elements<RawElement>);

impl Tagged for AnyAlgorithm {
    ghost use Rattle.std.proofs.Common.{ap, refl, true};
    ghost use Rattle.asn1_der.specs.Tagged.{sequence};
    ghost use Rattle.asn1_der.proofs.Tagged.{sequence_laws};

    type Row = AnyAlgorithmRow;

    const FIRST: u8 = SEQUENCE;

    ghost FIRST = { sequence_octet };

    ghost row_tree = { sequence ⟦<AnyAlgorithmRow as Fields>⟧.trees };

    ghost row_laws = { sequence_laws ⟦<AnyAlgorithmRow as Fields>⟧.trees (⟦<AnyAlgorithmRow as Fields>⟧.injective (refl {a = true})) };

    ghost row_of = { λ v. (v.algorithm, v.parameters) };

    ghost one_row = { λ v w e. ap (λ f. record { algorithm = f.0; parameters = f.1 }) e };

    fn read_row<R: Source>(tag: u8, from: &mut Deserializer<R>) -> Result<Self::Row, Asn1DerError> {
        read_sequence(tag, from)
    }

    fn of_row(row: Self::Row) -> Self {
        from_fields![row; algorithm; parameters]
    }

    fn write_row<W: Sink>(&self, tag: u8, to: &mut Serializer<W>) -> Result<usize, Asn1DerError> {
        to.list(tag, &fields_of![self; algorithm; parameters])
    }
}
