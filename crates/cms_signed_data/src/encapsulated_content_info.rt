//! A content with its type (RFC 5652, section 5.2).
ghost use Rattle.std.specs.Prelude.{◌≡◌, MatchResult};
ghost use Rattle.asn1_der.specs.Octets.{sequence_octet};

use asn1_der::octets::SEQUENCE;
use byte_streams::{Sink, Source};
use picky_asn1::wrapper::{ExplicitContextTag0, ObjectIdentifierAsn1, OctetStringAsn1};
use picky_asn1_der::{
    Asn1DerError, Deserializer, Fields, Row2, Serializer, Tagged, fields_of, from_fields,
    read_sequence,
};
use x509_spelling::Exact;

/// A content with its type. A missing content isn't read.
///
/// ```text
/// EncapsulatedContentInfo ::= SEQUENCE {
///   eContentType ContentType,
///   eContent [0] EXPLICIT OCTET STRING OPTIONAL }
/// ```
#[derive(Drop)]
pub struct EncapsulatedContentInfo {
    /// The content's type.
    pub content_type: ObjectIdentifierAsn1,
    /// The content.
    pub content: ExplicitContextTag0<OctetStringAsn1>,
}

type EncapsulatedContentInfoRow = Row2<ObjectIdentifierAsn1, ExplicitContextTag0<OctetStringAsn1>>;

impl Tagged for EncapsulatedContentInfo {
    ghost use Rattle.std.proofs.Common.{ap, refl, true};
    ghost use Rattle.asn1_der.specs.Tagged.{sequence};
    ghost use Rattle.asn1_der.proofs.Tagged.{sequence_laws};

    type Row = EncapsulatedContentInfoRow;

    const FIRST: u8 = SEQUENCE;

    ghost FIRST = { sequence_octet };

    ghost row_tree = { sequence ⟦<EncapsulatedContentInfoRow as Fields>⟧.trees };

    ghost row_laws = { sequence_laws ⟦<EncapsulatedContentInfoRow as Fields>⟧.trees (⟦<EncapsulatedContentInfoRow as Fields>⟧.injective (refl {a = true})) };

    ghost row_of = { λ v. (v.content_type, (v.content, tt)) };

    ghost one_row = { λ v w e. ap (λ f. record { content_type = f.0; content = f.1.0 }) e };

    fn read_row<R: Source>(tag: u8, from: &mut Deserializer<R>) -> Result<Self::Row, Asn1DerError> {
        read_sequence(tag, from)
    }

    fn of_row(row: Self::Row) -> Self {
        from_fields![row; content_type, content]
    }

    fn write_row<W: Sink>(&self, tag: u8, to: &mut Serializer<W>) -> Result<usize, Asn1DerError> {
        to.list(tag, &fields_of![self; content_type, content])
    }
}

impl Exact for EncapsulatedContentInfo {
    ghost plain = { tt };
}
