//! Tickets.
ghost use Rattle.asn1_der.specs.Octets.{sequence_octet};

use crate::data_types::{EncryptedData, PrincipalName, Realm};
use asn1_der::octets::SEQUENCE;
use byte_streams::{Sink, Source};
use krb_constants::types::TICKET_TYPE;
use picky_asn1::wrapper::IntegerAsn1;
use picky_asn1_der::{
    ApplicationTag, Asn1DerError, Deserializer, ExplicitContextTag0, ExplicitContextTag1,
    ExplicitContextTag2, ExplicitContextTag3, Fields, LentFields, RecordFields, Row4, Serializer,
    Tagged, fields_of, from_fields, read_sequence,
};
use std::alloc::AllocError;

/// What a ticket holds (RFC 4120, section 5.3).
///
/// ```text
/// Ticket ::= [APPLICATION 1] SEQUENCE {
///      tkt-vno    [0] INTEGER (5),
///      realm      [1] Realm,
///      sname      [2] PrincipalName,
///      enc-part   [3] EncryptedData -- EncTicketPart -- }
/// ```
#[derive(Debug, PartialEq, Eq)]
pub struct TicketInner {
    /// The version, 5.
    pub tkt_vno: ExplicitContextTag0<IntegerAsn1>,
    /// The realm that issued the ticket.
    pub realm: ExplicitContextTag1<Realm>,
    /// The service that the ticket is for.
    pub sname: ExplicitContextTag2<PrincipalName>,
    /// The part under the service's key.
    pub enc_part: ExplicitContextTag3<EncryptedData>,
}

impl Drop for TicketInner {
    fn drop(self) {
        let TicketInner {
            tkt_vno: _,
            realm: _,
            sname: _,
            enc_part: _,
        } = self;
    }
}

/// A ticket (RFC 4120, section 5.3).
pub type Ticket = ApplicationTag<TicketInner, TICKET_TYPE>;

type TicketInnerRow = Row4<
    ExplicitContextTag0<IntegerAsn1>,
    ExplicitContextTag1<Realm>,
    ExplicitContextTag2<PrincipalName>,
    ExplicitContextTag3<EncryptedData>,
>;

impl Clone for TicketInner {
    ghost is_clone = { λ value copy. ⟦<TicketInnerRow as RecordFields>⟧.are_copies (⟦<TicketInner as Tagged>⟧.row_of value) (⟦<TicketInner as Tagged>⟧.row_of copy) };

    fn clone(&self) -> Result<TicketInner, AllocError> {
        let fields = fields_of![self; tkt_vno, realm, sname, enc_part].copied()?;
        Ok(TicketInner::of_row(fields))
    }
}

impl Tagged for TicketInner {
    ghost use Rattle.std.proofs.Common.{ap, refl, true};
    ghost use Rattle.asn1_der.specs.Tagged.{sequence};
    ghost use Rattle.asn1_der.proofs.Tagged.{sequence_laws};

    type Row = TicketInnerRow;

    const FIRST: u8 = SEQUENCE;

    ghost FIRST = { sequence_octet };

    ghost row_tree = { sequence ⟦<TicketInnerRow as Fields>⟧.trees };

    ghost row_laws = { sequence_laws ⟦<TicketInnerRow as Fields>⟧.trees (⟦<TicketInnerRow as Fields>⟧.injective (refl {a = true})) };

    ghost row_of = { λ v. (v.tkt_vno, (v.realm, (v.sname, (v.enc_part, tt)))) };

    ghost one_row = { λ v w e. ap (λ f. record { tkt_vno = f.0; realm = f.1.0; sname = f.1.1.0; enc_part = f.1.1.1.0 }) e };

    fn read_row<R: Source>(tag: u8, from: &mut Deserializer<R>) -> Result<Self::Row, Asn1DerError> {
        read_sequence(tag, from)
    }

    fn of_row(row: Self::Row) -> Self {
        from_fields![row; tkt_vno, realm, sname, enc_part]
    }

    fn write_row<W: Sink>(&self, tag: u8, to: &mut Serializer<W>) -> Result<usize, Asn1DerError> {
        to.list(tag, &fields_of![self; tkt_vno, realm, sname, enc_part])
    }
}
