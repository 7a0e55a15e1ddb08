//! The attributes that a signature covers (RFC 5652, sections 5.3 and 11).
ghost use Rattle.std.specs.Prelude.{◌≡◌, MatchResult};
ghost use Rattle.asn1_der.specs.Octets.{context_0_octet, sequence_octet};

use crate::set_of_one::SetOfOne;
use asn1_der::octets::{CONTEXT_0, SEQUENCE};
use byte_streams::{Sink, Source};
use picky_asn1::wrapper::{ObjectIdentifierAsn1, OctetStringAsn1};
use picky_asn1_der::{
    Asn1DerError, Deserializer, Fields, Row2, Serializer, Tagged, fields_of, from_fields,
    read_sequence,
};
use x509_spelling::Exact;

/// The attribute content-type (RFC 5652, section 11.1).
///
/// ```text
/// Attribute ::= SEQUENCE {
///   attrType OBJECT IDENTIFIER,
///   attrValues SET OF AttributeValue }
/// ```
#[derive(Drop)]
pub struct ContentTypeAttribute {
    /// The attribute's identifier, id-contentType in the one form.
    pub ty: ObjectIdentifierAsn1,
    /// The content's type.
    pub values: SetOfOne<ObjectIdentifierAsn1>,
}

type ContentTypeAttributeRow = Row2<ObjectIdentifierAsn1, SetOfOne<ObjectIdentifierAsn1>>;

impl Tagged for ContentTypeAttribute {
    ghost use Rattle.std.proofs.Common.{ap, refl, true};
    ghost use Rattle.asn1_der.specs.Tagged.{sequence};
    ghost use Rattle.asn1_der.proofs.Tagged.{sequence_laws};

    type Row = ContentTypeAttributeRow;

    const FIRST: u8 = SEQUENCE;

    ghost FIRST = { sequence_octet };

    ghost row_tree = { sequence ⟦<ContentTypeAttributeRow as Fields>⟧.trees };

    ghost row_laws = { sequence_laws ⟦<ContentTypeAttributeRow as Fields>⟧.trees (⟦<ContentTypeAttributeRow as Fields>⟧.injective (refl {a = true})) };

    ghost row_of = { λ v. (v.ty, (v.values, tt)) };

    ghost one_row = { λ v w e. ap (λ f. record { ty = f.0; values = f.1.0 }) e };

    fn read_row<R: Source>(tag: u8, from: &mut Deserializer<R>) -> Result<Self::Row, Asn1DerError> {
        read_sequence(tag, from)
    }

    fn of_row(row: Self::Row) -> Self {
        from_fields![row; ty, values]
    }

    fn write_row<W: Sink>(&self, tag: u8, to: &mut Serializer<W>) -> Result<usize, Asn1DerError> {
        to.list(tag, &fields_of![self; ty, values])
    }
}

impl Exact for ContentTypeAttribute {
    ghost plain = { tt };
}

/// The attribute message-digest (RFC 5652, section 11.2).
///
/// ```text
/// Attribute ::= SEQUENCE {
///   attrType OBJECT IDENTIFIER,
///   attrValues SET OF AttributeValue }
/// ```
#[derive(Drop)]
pub struct MessageDigestAttribute {
    /// The attribute's identifier, id-messageDigest in the one form.
    pub ty: ObjectIdentifierAsn1,
    /// The content's digest.
    pub values: SetOfOne<OctetStringAsn1>,
}

type MessageDigestAttributeRow = Row2<ObjectIdentifierAsn1, SetOfOne<OctetStringAsn1>>;

impl Tagged for MessageDigestAttribute {
    ghost use Rattle.std.proofs.Common.{ap, refl, true};
    ghost use Rattle.asn1_der.specs.Tagged.{sequence};
    ghost use Rattle.asn1_der.proofs.Tagged.{sequence_laws};

    type Row = MessageDigestAttributeRow;

    const FIRST: u8 = SEQUENCE;

    ghost FIRST = { sequence_octet };

    ghost row_tree = { sequence ⟦<MessageDigestAttributeRow as Fields>⟧.trees };

    ghost row_laws = { sequence_laws ⟦<MessageDigestAttributeRow as Fields>⟧.trees (⟦<MessageDigestAttributeRow as Fields>⟧.injective (refl {a = true})) };

    ghost row_of = { λ v. (v.ty, (v.values, tt)) };

    ghost one_row = { λ v w e. ap (λ f. record { ty = f.0; values = f.1.0 }) e };

    fn read_row<R: Source>(tag: u8, from: &mut Deserializer<R>) -> Result<Self::Row, Asn1DerError> {
        read_sequence(tag, from)
    }

    fn of_row(row: Self::Row) -> Self {
        from_fields![row; ty, values]
    }

    fn write_row<W: Sink>(&self, tag: u8, to: &mut Serializer<W>) -> Result<usize, Asn1DerError> {
        to.list(tag, &fields_of![self; ty, values])
    }
}

impl Exact for MessageDigestAttribute {
    ghost plain = { tt };
}

/// The signed attributes: content-type, then message-digest. Other attributes, and another order, aren't read.
///
/// ```text
/// signedAttrs [0] IMPLICIT SignedAttributes
///
/// SignedAttributes ::= SET SIZE (1..MAX) OF Attribute
/// ```
#[derive(Drop)]
pub struct SignedAttributes {
    /// The attribute content-type.
    pub content_type: ContentTypeAttribute,
    /// The attribute message-digest.
    pub message_digest: MessageDigestAttribute,
}

type SignedAttributesRow = Row2<ContentTypeAttribute, MessageDigestAttribute>;

impl Tagged for SignedAttributes {
    ghost use Rattle.std.proofs.Common.{ap, refl, true};
    ghost use Rattle.asn1_der.specs.Tagged.{sequence};
    ghost use Rattle.asn1_der.proofs.Tagged.{sequence_laws};

    type Row = SignedAttributesRow;

    const FIRST: u8 = CONTEXT_0;

    ghost FIRST = { context_0_octet };

    ghost row_tree = { sequence ⟦<SignedAttributesRow as Fields>⟧.trees };

    ghost row_laws = { sequence_laws ⟦<SignedAttributesRow as Fields>⟧.trees (⟦<SignedAttributesRow as Fields>⟧.injective (refl {a = true})) };

    ghost row_of = { λ v. (v.content_type, (v.message_digest, tt)) };

    ghost one_row = { λ v w e. ap (λ f. record { content_type = f.0; message_digest = f.1.0 }) e };

    fn read_row<R: Source>(tag: u8, from: &mut Deserializer<R>) -> Result<Self::Row, Asn1DerError> {
        read_sequence(tag, from)
    }

    fn of_row(row: Self::Row) -> Self {
        from_fields![row; content_type, message_digest]
    }

    fn write_row<W: Sink>(&self, tag: u8, to: &mut Serializer<W>) -> Result<usize, Asn1DerError> {
        to.list(tag, &fields_of![self; content_type, message_digest])
    }
}

impl Exact for SignedAttributes {
    ghost plain = { tt };
}
