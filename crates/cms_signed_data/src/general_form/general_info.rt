//! Signed data as a message carries it (RFC 5652, section 3).
ghost use Rattle.asn1_der.specs.Octets.{sequence_octet};

use crate::general_form::general_signed::GeneralSigned;
use asn1_der::octets::SEQUENCE;
use byte_streams::{Sink, Source};
use picky_asn1::wrapper::ObjectIdentifierAsn1;
use picky_asn1_der::{
    Asn1DerError, Deserializer, ExplicitContextTag0, Fields, Row2, Serializer, Tagged, fields_of,
    from_fields, read_sequence,
};

/// Signed data under its type.
///
/// ```text
/// ContentInfo ::= SEQUENCE {
///   contentType ContentType,
///   content [0] EXPLICIT ANY DEFINED BY contentType }
/// ```
#[derive(Drop)]
pub struct GeneralInfo {
    /// The type.
    pub content_type: ObjectIdentifierAsn1,
    /// The signed data.
    pub content: ExplicitContextTag0<GeneralSigned>,
}

type GeneralInfoRow = Row2<ObjectIdentifierAsn1, ExplicitContextTag0<GeneralSigned>>;

impl Tagged for GeneralInfo {
    ghost use Rattle.std.proofs.Common.{ap, refl, true};
    ghost use Rattle.asn1_der.specs.Tagged.{sequence};
    ghost use Rattle.asn1_der.proofs.Tagged.{sequence_laws};

    type Row = GeneralInfoRow;

    const FIRST: u8 = SEQUENCE;

    ghost FIRST = { sequence_octet };

    ghost row_tree = { sequence ⟦<GeneralInfoRow as Fields>⟧.trees };

    ghost row_laws = { sequence_laws ⟦<GeneralInfoRow as Fields>⟧.trees (⟦<GeneralInfoRow as Fields>⟧.injective (refl {a = true})) };

    ghost row_of = { λ v. (v.content_type, (v.content, tt)) };

    ghost one_row = { λ v w e. ap (λ f. record { content_type = f.0; content = f.1.0 }) e };

    fn read_row<R: Source>(tag: u8, from: &mut Deserializer<R>) -> Result<Self::Row, Asn1DerError> {
        read_sequence(tag, from)
    }

    fn of_row(row: Self::Row) -> Self {
        from_fields![row; content_type, content]
    }

    fn write_row<W: Sink>(&self, tag: u8, to: &mut Serializer<W>) -> Result<usize, Asn1DerError> {
        to.list(tag, &fields_of![self; content_type, content])
    }
}
