//! Where a smart card's key stands.
ghost use Rattle.asn1_der.specs.Octets.{sequence_octet};

use asn1_der::octets::SEQUENCE;
use byte_streams::{Sink, Source};
use picky_asn1::wrapper::{IntegerAsn1, OctetStringAsn1};
use picky_asn1_der::{
    Asn1DerError, Deserializer, ExplicitContextTag0, ExplicitContextTag1, ExplicitContextTag2,
    ExplicitContextTag3, ExplicitContextTag4, Fields, LentFields, Optional, RecordFields, Row5,
    Serializer, Tagged, fields_of, from_fields, read_sequence,
};
use std::alloc::AllocError;

/// Where a smart card's key stands (MS-CSSP, section 2.2.1.2.2.1).
///
/// ```text
/// TSCspDataDetail ::= SEQUENCE {
///      keySpec         [0] INTEGER,
///      cardName        [1] OCTET STRING OPTIONAL,
///      readerName      [2] OCTET STRING OPTIONAL,
///      containerName   [3] OCTET STRING OPTIONAL,
///      cspName         [4] OCTET STRING OPTIONAL }
/// ```
#[derive(Debug, Drop, PartialEq, Eq)]
pub struct TsCspDataDetail {
    /// What the key is for: 1 to exchange keys, 2 to sign.
    pub key_spec: ExplicitContextTag0<IntegerAsn1>,
    /// The card, in UTF-16.
    pub card_name: Optional<Option<ExplicitContextTag1<OctetStringAsn1>>>,
    /// The reader, in UTF-16.
    pub reader_name: Optional<Option<ExplicitContextTag2<OctetStringAsn1>>>,
    /// The container of the key, in UTF-16.
    pub container_name: Optional<Option<ExplicitContextTag3<OctetStringAsn1>>>,
    /// The provider of cryptographic services, in UTF-16.
    pub csp_name: Optional<Option<ExplicitContextTag4<OctetStringAsn1>>>,
}

type TsCspDataDetailRow = Row5<
    ExplicitContextTag0<IntegerAsn1>,
    Optional<Option<ExplicitContextTag1<OctetStringAsn1>>>,
    Optional<Option<ExplicitContextTag2<OctetStringAsn1>>>,
    Optional<Option<ExplicitContextTag3<OctetStringAsn1>>>,
    Optional<Option<ExplicitContextTag4<OctetStringAsn1>>>,
>;

impl Clone for TsCspDataDetail {
    ghost is_clone = { λ value copy. ⟦<TsCspDataDetailRow as RecordFields>⟧.are_copies (⟦<TsCspDataDetail as Tagged>⟧.row_of value) (⟦<TsCspDataDetail as Tagged>⟧.row_of copy) };

    fn clone(&self) -> Result<TsCspDataDetail, AllocError> {
        let fields =
            fields_of![self; key_spec, card_name, reader_name, container_name, csp_name].copied()?;
        Ok(TsCspDataDetail::of_row(fields))
    }
}

impl Tagged for TsCspDataDetail {
    ghost use Rattle.std.proofs.Common.{ap, refl, true};
    ghost use Rattle.asn1_der.specs.Tagged.{sequence};
    ghost use Rattle.asn1_der.proofs.Tagged.{sequence_laws};

    type Row = TsCspDataDetailRow;

    const FIRST: u8 = SEQUENCE;

    ghost FIRST = { sequence_octet };

    ghost row_tree = { sequence ⟦<TsCspDataDetailRow as Fields>⟧.trees };

    ghost row_laws = { sequence_laws ⟦<TsCspDataDetailRow as Fields>⟧.trees (⟦<TsCspDataDetailRow as Fields>⟧.injective (refl {a = true})) };

    ghost row_of = { λ v. (v.key_spec, (v.card_name, (v.reader_name, (v.container_name, (v.csp_name, tt))))) };

    ghost one_row = { λ v w e. ap (λ f. record { key_spec = f.0; card_name = f.1.0; reader_name = f.1.1.0; container_name = f.1.1.1.0; csp_name = f.1.1.1.1.0 }) e };

    fn read_row<R: Source>(tag: u8, from: &mut Deserializer<R>) -> Result<Self::Row, Asn1DerError> {
        read_sequence(tag, from)
    }

    fn of_row(row: Self::Row) -> Self {
        from_fields![row; key_spec, card_name, reader_name, container_name, csp_name]
    }

    fn write_row<W: Sink>(&self, tag: u8, to: &mut Serializer<W>) -> Result<usize, Asn1DerError> {
        to.list(
            tag,
            &fields_of![self; key_spec, card_name, reader_name, container_name, csp_name],
        )
    }
}
