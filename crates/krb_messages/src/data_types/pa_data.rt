//! Preauthentication data.
ghost use Rattle.asn1_der.specs.Octets.{sequence_octet};

use asn1_der::octets::SEQUENCE;
use byte_streams::{Sink, Source};
use picky_asn1::wrapper::{IntegerAsn1, OctetStringAsn1};
use picky_asn1_der::{
    Asn1DerError, Deserializer, ExplicitContextTag1, ExplicitContextTag2, Fields, Row2, Serializer,
    Tagged, fields_of, from_fields, read_sequence,
};

/// One entry of preauthentication data (RFC 4120, section 5.2.7).
///
/// ```text
/// PA-DATA ::= SEQUENCE {
///      -- NOTE: first tag is [1], not [0]
///      padata-type    [1] Int32,
///      padata-value   [2] OCTET STRING }
/// ```
#[derive(Debug, PartialEq, Eq, Clone)]
pub struct PaData {
    /// What the entry holds (RFC 4120, section 7.5.2).
    pub padata_type: ExplicitContextTag1<IntegerAsn1>,
    /// The data of that type.
    pub padata_data: ExplicitContextTag2<OctetStringAsn1>,
}

impl Drop for PaData {
    fn drop(self) {
        let PaData {
            padata_type: _,
            padata_data: _,
        } = self;
    }
}

type PaDataRow = Row2<ExplicitContextTag1<IntegerAsn1>, ExplicitContextTag2<OctetStringAsn1>>;

impl Tagged for PaData {
    ghost use Rattle.std.proofs.Common.{ap, refl, true};
    ghost use Rattle.asn1_der.specs.Tagged.{sequence};
    ghost use Rattle.asn1_der.proofs.Tagged.{sequence_laws};

    type Row = PaDataRow;

    const FIRST: u8 = SEQUENCE;

    ghost FIRST = { sequence_octet };

    ghost row_tree = { sequence ⟦<PaDataRow as Fields>⟧.trees };

    ghost row_laws = { sequence_laws ⟦<PaDataRow as Fields>⟧.trees (⟦<PaDataRow as Fields>⟧.injective (refl {a = true})) };

    ghost row_of = { λ v. (v.padata_type, (v.padata_data, tt)) };

    ghost one_row = { λ v w e. ap (λ f. record { padata_type = f.0; padata_data = f.1.0 }) e };

    fn read_row<R: Source>(tag: u8, from: &mut Deserializer<R>) -> Result<Self::Row, Asn1DerError> {
        read_sequence(tag, from)
    }

    fn of_row(row: Self::Row) -> Self {
        from_fields![row; padata_type, padata_data]
    }

    fn write_row<W: Sink>(&self, tag: u8, to: &mut Serializer<W>) -> Result<usize, Asn1DerError> {
        to.list(tag, &fields_of![self; padata_type, padata_data])
    }
}
