//! Requests to a service.
ghost use Rattle.asn1_der.specs.Octets.{sequence_octet};

use crate::data_types::{ApOptions, EncryptedData, Ticket};
use asn1_der::octets::SEQUENCE;
use byte_streams::{Sink, Source};
use krb_constants::types::AP_REQ_MSG_TYPE;
use picky_asn1::wrapper::IntegerAsn1;
use picky_asn1_der::{
    ApplicationTag, Asn1DerError, Deserializer, ExplicitContextTag0, ExplicitContextTag1,
    ExplicitContextTag2, ExplicitContextTag3, ExplicitContextTag4, Fields, LentFields,
    RecordFields, Row5, Serializer, Tagged, fields_of, from_fields, read_sequence,
};
use std::alloc::AllocError;

/// What a request to a service holds (RFC 4120, section 5.5.1).
///
/// ```text
/// AP-REQ ::= [APPLICATION 14] SEQUENCE {
///      pvno            [0] INTEGER (5),
///      msg-type        [1] INTEGER (14),
///      ap-options      [2] APOptions,
///      ticket          [3] Ticket,
///      authenticator   [4] EncryptedData -- Authenticator -- }
/// ```
#[derive(Debug, Drop, PartialEq, Eq)]
pub struct ApReqInner {
    /// The version, 5.
    pub pvno: ExplicitContextTag0<IntegerAsn1>,
    /// The message type, 14.
    pub msg_type: ExplicitContextTag1<IntegerAsn1>,
    /// The options that are asked for.
    pub ap_options: ExplicitContextTag2<ApOptions>,
    /// The ticket for the service.
    pub ticket: ExplicitContextTag3<Ticket>,
    /// The authenticator under the session key.
    pub authenticator: ExplicitContextTag4<EncryptedData>,
}

/// A request to a service (RFC 4120, section 5.5.1).
pub type ApReq = ApplicationTag<ApReqInner, AP_REQ_MSG_TYPE>;

type ApReqInnerRow = Row5<
    ExplicitContextTag0<IntegerAsn1>,
    ExplicitContextTag1<IntegerAsn1>,
    ExplicitContextTag2<ApOptions>,
    ExplicitContextTag3<Ticket>,
    ExplicitContextTag4<EncryptedData>,
>;

impl Clone for ApReqInner {
    ghost is_clone = { λ value copy. ⟦<ApReqInnerRow as RecordFields>⟧.are_copies (⟦<ApReqInner as Tagged>⟧.row_of value) (⟦<ApReqInner as Tagged>⟧.row_of copy) };

    fn clone(&self) -> Result<ApReqInner, AllocError> {
        let fields = fields_of![self; pvno, msg_type, ap_options, ticket, authenticator].copied()?;
        Ok(ApReqInner::of_row(fields))
    }
}

impl Tagged for ApReqInner {
    ghost use Rattle.std.proofs.Common.{ap, refl, true};
    ghost use Rattle.asn1_der.specs.Tagged.{sequence};
    ghost use Rattle.asn1_der.proofs.Tagged.{sequence_laws};

    type Row = ApReqInnerRow;

    const FIRST: u8 = SEQUENCE;

    ghost FIRST = { sequence_octet };

    ghost row_tree = { sequence ⟦<ApReqInnerRow as Fields>⟧.trees };

    ghost row_laws = { sequence_laws ⟦<ApReqInnerRow as Fields>⟧.trees (⟦<ApReqInnerRow as Fields>⟧.injective (refl {a = true})) };

    ghost row_of = { λ v. (v.pvno, (v.msg_type, (v.ap_options, (v.ticket, (v.authenticator, tt))))) };

    ghost one_row = { λ v w e. ap (λ f. record { pvno = f.0; msg_type = f.1.0; ap_options = f.1.1.0; ticket = f.1.1.1.0; authenticator = f.1.1.1.1.0 }) e };

    fn read_row<R: Source>(tag: u8, from: &mut Deserializer<R>) -> Result<Self::Row, Asn1DerError> {
        read_sequence(tag, from)
    }

    fn of_row(row: Self::Row) -> Self {
        from_fields![row; pvno, msg_type, ap_options, ticket, authenticator]
    }

    fn write_row<W: Sink>(&self, tag: u8, to: &mut Serializer<W>) -> Result<usize, Asn1DerError> {
        to.list(
            tag,
            &fields_of![self; pvno, msg_type, ap_options, ticket, authenticator],
        )
    }
}
