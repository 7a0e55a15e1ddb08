//! Checksums.
ghost use Rattle.asn1_der.specs.Octets.{sequence_octet};

use asn1_der::octets::SEQUENCE;
use byte_streams::{Sink, Source};
use picky_asn1::wrapper::{IntegerAsn1, OctetStringAsn1};
use picky_asn1_der::{
    Asn1DerError, Deserializer, ExplicitContextTag0, ExplicitContextTag1, Fields, Row2, Serializer,
    Tagged, fields_of, from_fields, read_sequence,
};

/// A checksum (RFC 4120, section 5.2.9).
///
/// ```text
/// Checksum ::= SEQUENCE {
///      cksumtype   [0] Int32,
///      checksum    [1] OCTET STRING }
/// ```
#[derive(Debug, PartialEq, Eq, Clone)]
pub struct Checksum {
    /// The checksum type (RFC 3961, section 8).
    pub cksumtype: ExplicitContextTag0<IntegerAsn1>,
    /// The bytes of the checksum.
    pub checksum: ExplicitContextTag1<OctetStringAsn1>,
}

impl Drop for Checksum {
    fn drop(self) {
        let Checksum {
            cksumtype: _,
            checksum: _,
        } = self;
    }
}

type ChecksumRow = Row2<ExplicitContextTag0<IntegerAsn1>, ExplicitContextTag1<OctetStringAsn1>>;

impl Tagged for Checksum {
    ghost use Rattle.std.proofs.Common.{ap, refl, true};
    ghost use Rattle.asn1_der.specs.Tagged.{sequence};
    ghost use Rattle.asn1_der.proofs.Tagged.{sequence_laws};

    type Row = ChecksumRow;

    const FIRST: u8 = SEQUENCE;

    ghost FIRST = { sequence_octet };

    ghost row_tree = { sequence ⟦<ChecksumRow as Fields>⟧.trees };

    ghost row_laws = { sequence_laws ⟦<ChecksumRow as Fields>⟧.trees (⟦<ChecksumRow as Fields>⟧.injective (refl {a = true})) };

    ghost row_of = { λ v. (v.cksumtype, (v.checksum, tt)) };

    ghost one_row = { λ v w e. ap (λ f. record { cksumtype = f.0; checksum = f.1.0 }) e };

    fn read_row<R: Source>(tag: u8, from: &mut Deserializer<R>) -> Result<Self::Row, Asn1DerError> {
        read_sequence(tag, from)
    }

    fn of_row(row: Self::Row) -> Self {
        from_fields![row; cksumtype, checksum]
    }

    fn write_row<W: Sink>(&self, tag: u8, to: &mut Serializer<W>) -> Result<usize, Asn1DerError> {
        to.list(tag, &fields_of![self; cksumtype, checksum])
    }
}
