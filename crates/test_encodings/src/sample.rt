//! A SEQUENCE with an optional field in its middle, and its bytes, as `openssl asn1parse -genconf` writes them.
ghost use Rattle.asn1_der.specs.Octets.{sequence_octet};

use asn1_der::octets::SEQUENCE;
use byte_streams::{Sink, Source};
use picky_asn1_der::{
    Asn1DerError, Deserializer, ExplicitContextTag0, ExplicitContextTag1, ExplicitContextTag2,
    Fields, Optional, Row3, Serializer, Tagged, fields_of, from_fields, read_sequence,
};

#[derive(Debug, Drop, PartialEq, Eq)]
pub struct Sample {
    pub version: ExplicitContextTag0<u32>,
    pub kind: Optional<Option<ExplicitContextTag1<u32>>>,
    pub count: ExplicitContextTag2<u32>,
}

type SampleRow = Row3<
    ExplicitContextTag0<u32>,
    Optional<Option<ExplicitContextTag1<u32>>>,
    ExplicitContextTag2<u32>,
>;

impl Tagged for Sample {
    ghost use Rattle.std.proofs.Common.{ap, refl, true};
    ghost use Rattle.asn1_der.specs.Tagged.{sequence};
    ghost use Rattle.asn1_der.proofs.Tagged.{sequence_laws};

    type Row = SampleRow;

    const FIRST: u8 = SEQUENCE;

    ghost FIRST = { sequence_octet };

    ghost row_tree = { sequence ⟦<SampleRow as Fields>⟧.trees };

    ghost row_laws = { sequence_laws ⟦<SampleRow as Fields>⟧.trees (⟦<SampleRow as Fields>⟧.injective (refl {a = true})) };

    ghost row_of = { λ v. (v.version, (v.kind, (v.count, tt))) };

    ghost one_row = { λ v w e. ap (λ f. record { version = f.0; kind = f.1.0; count = f.1.1.0 }) e };

    fn read_row<R: Source>(tag: u8, from: &mut Deserializer<R>) -> Result<Self::Row, Asn1DerError> {
        read_sequence(tag, from)
    }

    fn of_row(row: Self::Row) -> Self {
        from_fields![row; version, kind, count]
    }

    fn write_row<W: Sink>(&self, tag: u8, to: &mut Serializer<W>) -> Result<usize, Asn1DerError> {
        to.list(tag, &fields_of![self; version, kind, count])
    }
}

pub fn sample_of(kind: Option<ExplicitContextTag1<u32>>) -> Sample {
    Sample {
        version: 5.into(),
        kind: kind.into(),
        count: 1.into(),
    }
}

pub const SHORT_SAMPLE: [u8; 12] = [
    0x30, 0x0A, 0xA0, 0x03, 0x02, 0x01, 0x05, 0xA2, 0x03, 0x02, 0x01, 0x01,
];

pub const LONG_SAMPLE: [u8; 18] = [
    0x30, 0x10, 0xA0, 0x03, 0x02, 0x01, 0x05, 0xA1, 0x04, 0x02, 0x02, 0x00, 0x80, 0xA2, 0x03, 0x02,
    0x01, 0x01,
];
