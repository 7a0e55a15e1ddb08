//! Replies with a ticket of user to user.
ghost use Rattle.asn1_der.specs.Octets.{sequence_octet};

use asn1_der::octets::SEQUENCE;
use byte_streams::{Sink, Source};
use krb_messages::data_types::Ticket;
use picky_asn1::wrapper::IntegerAsn1;
use picky_asn1_der::{
    Asn1DerError, Deserializer, ExplicitContextTag0, ExplicitContextTag1, ExplicitContextTag2,
    Fields, Row3, Serializer, Tagged, fields_of, from_fields, read_sequence,
};

/// A service's reply with its ticket-granting ticket (draft-swift-win2k-krb-user2user, section 4).
///
/// ```text
/// KERB-TGT-REPLY ::= SEQUENCE {
///      pvno       [0] INTEGER,
///      msg-type   [1] INTEGER,
///      ticket     [2] Ticket }
/// ```
#[derive(Debug, Drop, PartialEq, Eq, Clone)]
pub struct TgtRep {
    /// The version, 5.
    pub pvno: ExplicitContextTag0<IntegerAsn1>,
    /// The message type, 17.
    pub msg_type: ExplicitContextTag1<IntegerAsn1>,
    /// The ticket.
    pub ticket: ExplicitContextTag2<Ticket>,
}

type TgtRepRow = Row3<
    ExplicitContextTag0<IntegerAsn1>,
    ExplicitContextTag1<IntegerAsn1>,
    ExplicitContextTag2<Ticket>,
>;

impl Tagged for TgtRep {
    ghost use Rattle.std.proofs.Common.{ap, refl, true};
    ghost use Rattle.asn1_der.specs.Tagged.{sequence};
    ghost use Rattle.asn1_der.proofs.Tagged.{sequence_laws};

    type Row = TgtRepRow;

    const FIRST: u8 = SEQUENCE;

    ghost FIRST = { sequence_octet };

    ghost row_tree = { sequence ⟦<TgtRepRow as Fields>⟧.trees };

    ghost row_laws = { sequence_laws ⟦<TgtRepRow as Fields>⟧.trees (⟦<TgtRepRow as Fields>⟧.injective (refl {a = true})) };

    ghost row_of = { λ v. (v.pvno, (v.msg_type, (v.ticket, tt))) };

    ghost one_row = { λ v w e. ap (λ f. record { pvno = f.0; msg_type = f.1.0; ticket = f.1.1.0 }) e };

    fn read_row<R: Source>(tag: u8, from: &mut Deserializer<R>) -> Result<Self::Row, Asn1DerError> {
        read_sequence(tag, from)
    }

    fn of_row(row: Self::Row) -> Self {
        from_fields![row; pvno, msg_type, ticket]
    }

    fn write_row<W: Sink>(&self, tag: u8, to: &mut Serializer<W>) -> Result<usize, Asn1DerError> {
        to.list(tag, &fields_of![self; pvno, msg_type, ticket])
    }
}
