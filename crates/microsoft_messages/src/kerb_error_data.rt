//! Data of errors.
ghost use Rattle.asn1_der.specs.Octets.{sequence_octet};

use asn1_der::octets::SEQUENCE;
use byte_streams::{Sink, Source};
use picky_asn1::wrapper::{IntegerAsn1, OctetStringAsn1};
use picky_asn1_der::{
    Asn1DerError, Deserializer, ExplicitContextTag1, ExplicitContextTag2, Fields, Optional, Row2,
    Serializer, Tagged, fields_of, from_fields, read_sequence,
};

/// What a KDC adds to an error's code (MS-KILE, section 2.2.2).
///
/// ```text
/// KERB-ERROR-DATA ::= SEQUENCE {
///      data-type    [1] INTEGER,
///      data-value   [2] OCTET STRING OPTIONAL }
/// ```
#[derive(Debug, Drop, PartialEq, Eq, Clone)]
pub struct KerbErrorData {
    /// What the data is.
    pub data_type: ExplicitContextTag1<IntegerAsn1>,
    /// The data.
    pub data_value: Optional<Option<ExplicitContextTag2<OctetStringAsn1>>>,
}

type KerbErrorDataRow = Row2<
    ExplicitContextTag1<IntegerAsn1>,
    Optional<Option<ExplicitContextTag2<OctetStringAsn1>>>,
>;

impl Tagged for KerbErrorData {
    ghost use Rattle.std.proofs.Common.{ap, refl, true};
    ghost use Rattle.asn1_der.specs.Tagged.{sequence};
    ghost use Rattle.asn1_der.proofs.Tagged.{sequence_laws};

    type Row = KerbErrorDataRow;

    const FIRST: u8 = SEQUENCE;

    ghost FIRST = { sequence_octet };

    ghost row_tree = { sequence ⟦<KerbErrorDataRow as Fields>⟧.trees };

    ghost row_laws = { sequence_laws ⟦<KerbErrorDataRow as Fields>⟧.trees (⟦<KerbErrorDataRow as Fields>⟧.injective (refl {a = true})) };

    ghost row_of = { λ v. (v.data_type, (v.data_value, tt)) };

    ghost one_row = { λ v w e. ap (λ f. record { data_type = f.0; data_value = f.1.0 }) e };

    fn read_row<R: Source>(tag: u8, from: &mut Deserializer<R>) -> Result<Self::Row, Asn1DerError> {
        read_sequence(tag, from)
    }

    fn of_row(row: Self::Row) -> Self {
        from_fields![row; data_type, data_value]
    }

    fn write_row<W: Sink>(&self, tag: u8, to: &mut Serializer<W>) -> Result<usize, Asn1DerError> {
        to.list(tag, &fields_of![self; data_type, data_value])
    }
}
