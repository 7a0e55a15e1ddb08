//! Names of other kinds (RFC 5280, section 4.2.1.6).
ghost use Rattle.std.specs.Prelude.{◌≡◌, MatchResult};
ghost use Rattle.asn1_der.specs.Octets.{sequence_octet};

use asn1_der::octets::SEQUENCE;
use byte_streams::{Sink, Source};
use picky_asn1::wrapper::{ExplicitContextTag, ExplicitContextTag0, ObjectIdentifierAsn1};
use picky_asn1_der::{
    Asn1DerError, Deserializer, Fields, RawElement, Row2, Serializer, Tagged, fields_of,
    from_fields, read_sequence,
};
use std::alloc::AllocError;
use x509_spelling::Exact;

/// A name of a kind that an object identifier denotes, as a Kerberos principal is.
///
/// ```text
/// OtherName ::= SEQUENCE {
///      type-id    OBJECT IDENTIFIER,
///      value      [0] EXPLICIT ANY DEFINED BY type-id }
/// ```
#[derive(Debug, Drop, PartialEq, Eq)]
pub struct OtherName {
    /// The kind.
    pub type_id: ObjectIdentifierAsn1,
    /// The name.
    pub value: ExplicitContextTag0<RawElement>,
}

impl Clone for OtherName {
    ghost is_clone = { λ name copy. copy ≡ name };

    fn clone(&self) -> Result<OtherName, AllocError> {
        let type_id = self.type_id.clone()?;
        let value = self.value.0.clone()?;
        Ok(OtherName {
            type_id,
            value: ExplicitContextTag(value),
        })
    }
}

type OtherNameRow = Row2<ObjectIdentifierAsn1, ExplicitContextTag0<RawElement>>;

impl Tagged for OtherName {
    ghost use Rattle.std.proofs.Common.{ap, refl, true};
    ghost use Rattle.asn1_der.specs.Tagged.{sequence};
    ghost use Rattle.asn1_der.proofs.Tagged.{sequence_laws};

    type Row = OtherNameRow;

    const FIRST: u8 = SEQUENCE;

    ghost FIRST = { sequence_octet };

    ghost row_tree = { sequence ⟦<OtherNameRow as Fields>⟧.trees };

    ghost row_laws = { sequence_laws ⟦<OtherNameRow as Fields>⟧.trees (⟦<OtherNameRow as Fields>⟧.injective (refl {a = true})) };

    ghost row_of = { λ v. (v.type_id, (v.value, tt)) };

    ghost one_row = { λ v w e. ap (λ f. record { type_id = f.0; value = f.1.0 }) e };

    fn read_row<R: Source>(tag: u8, from: &mut Deserializer<R>) -> Result<Self::Row, Asn1DerError> {
        read_sequence(tag, from)
    }

    fn of_row(row: Self::Row) -> Self {
        from_fields![row; type_id, value]
    }

    fn write_row<W: Sink>(&self, tag: u8, to: &mut Serializer<W>) -> Result<usize, Asn1DerError> {
        to.list(tag, &fields_of![self; type_id, value])
    }
}

impl Exact for OtherName {
    ghost plain = { tt };
}
