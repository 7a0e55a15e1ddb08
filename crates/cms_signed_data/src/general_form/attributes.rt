//! The attributes that a signature covers, whatever they are (RFC 5652, section 5.3).
ghost use Rattle.asn1_der.specs.Octets.{context_0_octet, sequence_octet};

use asn1_der::octets::{CONTEXT_0, SEQUENCE};
use byte_streams::{Sink, Source};
use picky_asn1::wrapper::{Asn1SetOf, ObjectIdentifierAsn1};
use picky_asn1_der::{
    Asn1DerError, Deserializer, Elements, Fields, RawElement, Row2, Serializer, Tagged, fields_of,
    from_fields, read_sequence,
};

/// An attribute with values of any type.
///
/// ```text
/// Attribute ::= SEQUENCE {
///   attrType OBJECT IDENTIFIER,
///   attrValues SET OF AttributeValue }
/// ```
#[derive(Drop)]
pub struct GeneralAttribute {
    /// The attribute's identifier.
    pub ty: ObjectIdentifierAsn1,
    /// Its values, in their order.
    pub values: Asn1SetOf<RawElement>,
}

type GeneralAttributeRow = Row2<ObjectIdentifierAsn1, Asn1SetOf<RawElement>>;

impl Tagged for GeneralAttribute {
    ghost use Rattle.std.proofs.Common.{ap, refl, true};
    ghost use Rattle.asn1_der.specs.Tagged.{sequence};
    ghost use Rattle.asn1_der.proofs.Tagged.{sequence_laws};

    type Row = GeneralAttributeRow;

    const FIRST: u8 = SEQUENCE;

    ghost FIRST = { sequence_octet };

    ghost row_tree = { sequence ⟦<GeneralAttributeRow as Fields>⟧.trees };

    ghost row_laws = { sequence_laws ⟦<GeneralAttributeRow as Fields>⟧.trees (⟦<GeneralAttributeRow as Fields>⟧.injective (refl {a = true})) };

    ghost row_of = { λ v. (v.ty, (v.values, tt)) };

    ghost one_row = { λ v w e. ap (λ f. record { ty = f.0; values = f.1.0 }) e };

    fn read_row<R: Source>(tag: u8, from: &mut Deserializer<R>) -> Result<Self::Row, Asn1DerError> {
        read_sequence(tag, from)
    }

    fn of_row(row: Self::Row) -> Self {
        from_fields![row; ty, values]
    }

    fn write_row<W: Sink>(&self, tag: u8, to: &mut Serializer<W>) -> Result<usize, Asn1DerError> {
        to.list(tag, &fields_of![self; ty, values])
    }
}

/// The signed attributes, in their order.
///
/// ```text
/// signedAttrs [0] IMPLICIT SignedAttributes
///
/// SignedAttributes ::= SET SIZE (1..MAX) OF Attribute
/// ```
#[derive(Drop)]
pub struct GeneralAttributes(pub Asn1SetOf<GeneralAttribute>);

impl Tagged for GeneralAttributes {
    type Row = Elements<GeneralAttribute>;

    const FIRST: u8 = CONTEXT_0;

    ghost FIRST = { context_0_octet };

    ghost row_tree = { ⟦<Asn1SetOf<GeneralAttribute> as Tagged>⟧.row_tree };

    ghost row_laws = { ⟦<Asn1SetOf<GeneralAttribute> as Tagged>⟧.row_laws };

    ghost row_of = { λ v. v.0 };

    ghost one_row = { λ v w e. λ i. record { 0 = e i } };

    fn read_row<R: Source>(tag: u8, from: &mut Deserializer<R>) -> Result<Self::Row, Asn1DerError> {
        Asn1SetOf::<GeneralAttribute>::read_row(tag, from)
    }

    fn of_row(row: Self::Row) -> Self {
        GeneralAttributes(Asn1SetOf::of_row(row))
    }

    fn write_row<W: Sink>(&self, tag: u8, to: &mut Serializer<W>) -> Result<usize, Asn1DerError> {
        self.0.write_row(tag, to)
    }
}
