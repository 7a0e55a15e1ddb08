//! Replies of a service.
ghost use Rattle.asn1_der.specs.Octets.{sequence_octet};

use crate::data_types::EncryptedData;
use asn1_der::octets::SEQUENCE;
use byte_streams::{Sink, Source};
use krb_constants::types::AP_REP_MSG_TYPE;
use picky_asn1::wrapper::IntegerAsn1;
use picky_asn1_der::{
    ApplicationTag, Asn1DerError, Deserializer, ExplicitContextTag0, ExplicitContextTag1,
    ExplicitContextTag2, Fields, Row3, Serializer, Tagged, fields_of, from_fields, read_sequence,
};

/// What a reply of a service holds (RFC 4120, section 5.5.2).
///
/// ```text
/// AP-REP ::= [APPLICATION 15] SEQUENCE {
///      pvno       [0] INTEGER (5),
///      msg-type   [1] INTEGER (15),
///      enc-part   [2] EncryptedData -- EncAPRepPart -- }
/// ```
#[derive(Debug, Drop, PartialEq, Eq, Clone)]
pub struct ApRepInner {
    /// The version, 5.
    pub pvno: ExplicitContextTag0<IntegerAsn1>,
    /// The message type, 15.
    pub msg_type: ExplicitContextTag1<IntegerAsn1>,
    /// The part under the session key.
    pub enc_part: ExplicitContextTag2<EncryptedData>,
}

/// A reply of a service (RFC 4120, section 5.5.2), which shows that it could open the ticket.
pub type ApRep = ApplicationTag<ApRepInner, AP_REP_MSG_TYPE>;

type ApRepInnerRow = Row3<
    ExplicitContextTag0<IntegerAsn1>,
    ExplicitContextTag1<IntegerAsn1>,
    ExplicitContextTag2<EncryptedData>,
>;

impl Tagged for ApRepInner {
    ghost use Rattle.std.proofs.Common.{ap, refl, true};
    ghost use Rattle.asn1_der.specs.Tagged.{sequence};
    ghost use Rattle.asn1_der.proofs.Tagged.{sequence_laws};

    type Row = ApRepInnerRow;

    const FIRST: u8 = SEQUENCE;

    ghost FIRST = { sequence_octet };

    ghost row_tree = { sequence ⟦<ApRepInnerRow as Fields>⟧.trees };

    ghost row_laws = { sequence_laws ⟦<ApRepInnerRow as Fields>⟧.trees (⟦<ApRepInnerRow as Fields>⟧.injective (refl {a = true})) };

    ghost row_of = { λ v. (v.pvno, (v.msg_type, (v.enc_part, tt))) };

    ghost one_row = { λ v w e. ap (λ f. record { pvno = f.0; msg_type = f.1.0; enc_part = f.1.1.0 }) e };

    fn read_row<R: Source>(tag: u8, from: &mut Deserializer<R>) -> Result<Self::Row, Asn1DerError> {
        read_sequence(tag, from)
    }

    fn of_row(row: Self::Row) -> Self {
        from_fields![row; pvno, msg_type, enc_part]
    }

    fn write_row<W: Sink>(&self, tag: u8, to: &mut Serializer<W>) -> Result<usize, Asn1DerError> {
        to.list(tag, &fields_of![self; pvno, msg_type, enc_part])
    }
}
