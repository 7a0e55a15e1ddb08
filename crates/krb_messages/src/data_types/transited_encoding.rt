//! Realms that a client passed.
ghost use Rattle.asn1_der.specs.Octets.{sequence_octet};

use asn1_der::octets::SEQUENCE;
use byte_streams::{Sink, Source};
use picky_asn1::wrapper::{IntegerAsn1, OctetStringAsn1};
use picky_asn1_der::{
    Asn1DerError, Deserializer, ExplicitContextTag0, ExplicitContextTag1, Fields, Row2, Serializer,
    Tagged, fields_of, from_fields, read_sequence,
};

/// The realms that took part in the authentication of a client (RFC 4120, section 5.3).
///
/// ```text
/// TransitedEncoding ::= SEQUENCE {
///      tr-type    [0] Int32 -- must be registered --,
///      contents   [1] OCTET STRING }
/// ```
#[derive(Debug, PartialEq, Eq, Clone)]
pub struct TransitedEncoding {
    /// How the contents are spelled (RFC 4120, section 7.5.5): 1 is DOMAIN-X500-COMPRESS.
    pub tr_type: ExplicitContextTag0<IntegerAsn1>,
    /// The realms in that spelling (RFC 4120, section 3.3.3.2); empty where there are none.
    pub contents: ExplicitContextTag1<OctetStringAsn1>,
}

impl Drop for TransitedEncoding {
    fn drop(self) {
        let TransitedEncoding {
            tr_type: _,
            contents: _,
        } = self;
    }
}

type TransitedEncodingRow = Row2<
    ExplicitContextTag0<IntegerAsn1>,
    ExplicitContextTag1<OctetStringAsn1>,
>;

impl Tagged for TransitedEncoding {
    ghost use Rattle.std.proofs.Common.{ap, refl, true};
    ghost use Rattle.asn1_der.specs.Tagged.{sequence};
    ghost use Rattle.asn1_der.proofs.Tagged.{sequence_laws};

    type Row = TransitedEncodingRow;

    const FIRST: u8 = SEQUENCE;

    ghost FIRST = { sequence_octet };

    ghost row_tree = { sequence ⟦<TransitedEncodingRow as Fields>⟧.trees };

    ghost row_laws = { sequence_laws ⟦<TransitedEncodingRow as Fields>⟧.trees (⟦<TransitedEncodingRow as Fields>⟧.injective (refl {a = true})) };

    ghost row_of = { λ v. (v.tr_type, (v.contents, tt)) };

    ghost one_row = { λ v w e. ap (λ f. record { tr_type = f.0; contents = f.1.0 }) e };

    fn read_row<R: Source>(tag: u8, from: &mut Deserializer<R>) -> Result<Self::Row, Asn1DerError> {
        read_sequence(tag, from)
    }

    fn of_row(row: Self::Row) -> Self {
        from_fields![row; tr_type, contents]
    }

    fn write_row<W: Sink>(&self, tag: u8, to: &mut Serializer<W>) -> Result<usize, Asn1DerError> {
        to.list(tag, &fields_of![self; tr_type, contents])
    }
}
