//! Credentials by smart card.
ghost use Rattle.asn1_der.specs.Octets.{sequence_octet};

use crate::ts_csp_data_detail::TsCspDataDetail;
use asn1_der::octets::SEQUENCE;
use byte_streams::{Sink, Source};
use picky_asn1::wrapper::OctetStringAsn1;
use picky_asn1_der::{
    Asn1DerError, Deserializer, ExplicitContextTag0, ExplicitContextTag1, ExplicitContextTag2,
    ExplicitContextTag3, Fields, LentFields, Optional, RecordFields, Row4, Serializer, Tagged,
    fields_of, from_fields, read_sequence,
};
use std::alloc::AllocError;

/// Credentials by smart card (MS-CSSP, section 2.2.1.2.2).
///
/// ```text
/// TSSmartCardCreds ::= SEQUENCE {
///      pin          [0] OCTET STRING,
///      cspData      [1] TSCspDataDetail,
///      userHint     [2] OCTET STRING OPTIONAL,
///      domainHint   [3] OCTET STRING OPTIONAL }
/// ```
#[derive(Debug, Drop, PartialEq, Eq)]
pub struct TsSmartCardCreds {
    /// The card's number, in UTF-16.
    pub pin: ExplicitContextTag0<OctetStringAsn1>,
    /// Where its key stands.
    pub csp_data: ExplicitContextTag1<TsCspDataDetail>,
    /// The user, in UTF-16.
    pub user_hint: Optional<Option<ExplicitContextTag2<OctetStringAsn1>>>,
    /// The user's domain, in UTF-16.
    pub domain_hint: Optional<Option<ExplicitContextTag3<OctetStringAsn1>>>,
}

type TsSmartCardCredsRow = Row4<
    ExplicitContextTag0<OctetStringAsn1>,
    ExplicitContextTag1<TsCspDataDetail>,
    Optional<Option<ExplicitContextTag2<OctetStringAsn1>>>,
    Optional<Option<ExplicitContextTag3<OctetStringAsn1>>>,
>;

impl Clone for TsSmartCardCreds {
    ghost is_clone = { λ value copy. ⟦<TsSmartCardCredsRow as RecordFields>⟧.are_copies (⟦<TsSmartCardCreds as Tagged>⟧.row_of value) (⟦<TsSmartCardCreds as Tagged>⟧.row_of copy) };

    fn clone(&self) -> Result<TsSmartCardCreds, AllocError> {
        let fields = fields_of![self; pin, csp_data, user_hint, domain_hint].copied()?;
        Ok(TsSmartCardCreds::of_row(fields))
    }
}

impl Tagged for TsSmartCardCreds {
    ghost use Rattle.std.proofs.Common.{ap, refl, true};
    ghost use Rattle.asn1_der.specs.Tagged.{sequence};
    ghost use Rattle.asn1_der.proofs.Tagged.{sequence_laws};

    type Row = TsSmartCardCredsRow;

    const FIRST: u8 = SEQUENCE;

    ghost FIRST = { sequence_octet };

    ghost row_tree = { sequence ⟦<TsSmartCardCredsRow as Fields>⟧.trees };

    ghost row_laws = { sequence_laws ⟦<TsSmartCardCredsRow as Fields>⟧.trees (⟦<TsSmartCardCredsRow as Fields>⟧.injective (refl {a = true})) };

    ghost row_of = { λ v. (v.pin, (v.csp_data, (v.user_hint, (v.domain_hint, tt)))) };

    ghost one_row = { λ v w e. ap (λ f. record { pin = f.0; csp_data = f.1.0; user_hint = f.1.1.0; domain_hint = f.1.1.1.0 }) e };

    fn read_row<R: Source>(tag: u8, from: &mut Deserializer<R>) -> Result<Self::Row, Asn1DerError> {
        read_sequence(tag, from)
    }

    fn of_row(row: Self::Row) -> Self {
        from_fields![row; pin, csp_data, user_hint, domain_hint]
    }

    fn write_row<W: Sink>(&self, tag: u8, to: &mut Serializer<W>) -> Result<usize, Asn1DerError> {
        to.list(
            tag,
            &fields_of![self; pin, csp_data, user_hint, domain_hint],
        )
    }
}
