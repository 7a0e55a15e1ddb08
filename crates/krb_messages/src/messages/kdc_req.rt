//! Requests to a KDC.
ghost use Rattle.asn1_der.specs.Octets.{sequence_octet};

use crate::data_types::PaData;
use crate::messages::KdcReqBody;
use asn1_der::octets::SEQUENCE;
use byte_streams::{Sink, Source};
use krb_constants::types::{AS_REQ_MSG_TYPE, TGS_REQ_MSG_TYPE};
use picky_asn1::wrapper::{Asn1SequenceOf, IntegerAsn1};
use picky_asn1_der::{
    ApplicationTag, Asn1DerError, Deserializer, ExplicitContextTag1, ExplicitContextTag2,
    ExplicitContextTag3, ExplicitContextTag4, Fields, LentFields, Optional, RecordFields, Row4,
    Serializer, Tagged, fields_of, from_fields, read_sequence,
};
use std::alloc::AllocError;

/// A request to a KDC (RFC 4120, section 5.4.1).
///
/// ```text
/// KDC-REQ ::= SEQUENCE {
///      -- NOTE: first tag is [1], not [0]
///      pvno       [1] INTEGER (5),
///      msg-type   [2] INTEGER (10 | 12),
///      padata     [3] SEQUENCE OF PA-DATA OPTIONAL -- NOTE: not empty --,
///      req-body   [4] KDC-REQ-BODY }
/// ```
#[derive(Debug, Drop, PartialEq, Eq)]
pub struct KdcReq {
    /// The version, 5.
    pub pvno: ExplicitContextTag1<IntegerAsn1>,
    /// The message type, 10 or 12.
    pub msg_type: ExplicitContextTag2<IntegerAsn1>,
    /// Preauthentication data.
    pub padata: Optional<Option<ExplicitContextTag3<Asn1SequenceOf<PaData>>>>,
    /// The body.
    pub req_body: ExplicitContextTag4<KdcReqBody>,
}

/// A request for a first ticket (RFC 4120, section 5.4.1).
///
/// ```text
/// AS-REQ ::= [APPLICATION 10] KDC-REQ
/// ```
pub type AsReq = ApplicationTag<KdcReq, AS_REQ_MSG_TYPE>;

/// A request for a service ticket (RFC 4120, section 5.4.1).
///
/// ```text
/// TGS-REQ ::= [APPLICATION 12] KDC-REQ
/// ```
pub type TgsReq = ApplicationTag<KdcReq, TGS_REQ_MSG_TYPE>;

type KdcReqRow = Row4<
    ExplicitContextTag1<IntegerAsn1>,
    ExplicitContextTag2<IntegerAsn1>,
    Optional<Option<ExplicitContextTag3<Asn1SequenceOf<PaData>>>>,
    ExplicitContextTag4<KdcReqBody>,
>;

impl Clone for KdcReq {
    ghost is_clone = { λ value copy. ⟦<KdcReqRow as RecordFields>⟧.are_copies (⟦<KdcReq as Tagged>⟧.row_of value) (⟦<KdcReq as Tagged>⟧.row_of copy) };

    fn clone(&self) -> Result<KdcReq, AllocError> {
        let fields = fields_of![self; pvno, msg_type, padata, req_body].copied()?;
        Ok(KdcReq::of_row(fields))
    }
}

impl Tagged for KdcReq {
    ghost use Rattle.std.proofs.Common.{ap, refl, true};
    ghost use Rattle.asn1_der.specs.Tagged.{sequence};
    ghost use Rattle.asn1_der.proofs.Tagged.{sequence_laws};

    type Row = KdcReqRow;

    const FIRST: u8 = SEQUENCE;

    ghost FIRST = { sequence_octet };

    ghost row_tree = { sequence ⟦<KdcReqRow as Fields>⟧.trees };

    ghost row_laws = { sequence_laws ⟦<KdcReqRow as Fields>⟧.trees (⟦<KdcReqRow as Fields>⟧.injective (refl {a = true})) };

    ghost row_of = { λ v. (v.pvno, (v.msg_type, (v.padata, (v.req_body, tt)))) };

    ghost one_row = { λ v w e. ap (λ f. record { pvno = f.0; msg_type = f.1.0; padata = f.1.1.0; req_body = f.1.1.1.0 }) e };

    fn read_row<R: Source>(tag: u8, from: &mut Deserializer<R>) -> Result<Self::Row, Asn1DerError> {
        read_sequence(tag, from)
    }

    fn of_row(row: Self::Row) -> Self {
        from_fields![row; pvno, msg_type, padata, req_body]
    }

    fn write_row<W: Sink>(&self, tag: u8, to: &mut Serializer<W>) -> Result<usize, Asn1DerError> {
        to.list(tag, &fields_of![self; pvno, msg_type, padata, req_body])
    }
}
