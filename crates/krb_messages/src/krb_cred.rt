//! Messages that hand tickets on.
ghost use Rattle.asn1_der.specs.Octets.{sequence_octet};

use crate::data_types::{EncryptedData, Ticket};
use asn1_der::octets::SEQUENCE;
use byte_streams::{Sink, Source};
use krb_constants::types::KRB_CRED_MSG_TYPE;
use picky_asn1::wrapper::{Asn1SequenceOf, IntegerAsn1};
use picky_asn1_der::{
    ApplicationTag, Asn1DerError, Deserializer, ExplicitContextTag0, ExplicitContextTag1,
    ExplicitContextTag2, ExplicitContextTag3, Fields, LentFields, RecordFields, Row4, Serializer,
    Tagged, fields_of, from_fields, read_sequence,
};
use std::alloc::AllocError;

/// What a message that hands tickets on holds (RFC 4120, section 5.8.1).
///
/// ```text
/// KRB-CRED ::= [APPLICATION 22] SEQUENCE {
///      pvno       [0] INTEGER (5),
///      msg-type   [1] INTEGER (22),
///      tickets    [2] SEQUENCE OF Ticket,
///      enc-part   [3] EncryptedData -- EncKrbCredPart }
/// ```
#[derive(Debug, Drop, PartialEq, Eq)]
pub struct KrbCredInner {
    /// The version, 5.
    pub pvno: ExplicitContextTag0<IntegerAsn1>,
    /// The message type, 22.
    pub msg_type: ExplicitContextTag1<IntegerAsn1>,
    /// The tickets.
    pub tickets: ExplicitContextTag2<Asn1SequenceOf<Ticket>>,
    /// Their keys, under a key that both sides know.
    pub enc_part: ExplicitContextTag3<EncryptedData>,
}

/// A message that hands tickets on (RFC 4120, section 5.8.1).
pub type KrbCred = ApplicationTag<KrbCredInner, KRB_CRED_MSG_TYPE>;

type KrbCredInnerRow = Row4<
    ExplicitContextTag0<IntegerAsn1>,
    ExplicitContextTag1<IntegerAsn1>,
    ExplicitContextTag2<Asn1SequenceOf<Ticket>>,
    ExplicitContextTag3<EncryptedData>,
>;

impl Clone for KrbCredInner {
    ghost is_clone = { λ value copy. ⟦<KrbCredInnerRow as RecordFields>⟧.are_copies (⟦<KrbCredInner as Tagged>⟧.row_of value) (⟦<KrbCredInner as Tagged>⟧.row_of copy) };

    fn clone(&self) -> Result<KrbCredInner, AllocError> {
        let fields = fields_of![self; pvno, msg_type, tickets, enc_part].copied()?;
        Ok(KrbCredInner::of_row(fields))
    }
}

impl Tagged for KrbCredInner {
    ghost use Rattle.std.proofs.Common.{ap, refl, true};
    ghost use Rattle.asn1_der.specs.Tagged.{sequence};
    ghost use Rattle.asn1_der.proofs.Tagged.{sequence_laws};

    type Row = KrbCredInnerRow;

    const FIRST: u8 = SEQUENCE;

    ghost FIRST = { sequence_octet };

    ghost row_tree = { sequence ⟦<KrbCredInnerRow as Fields>⟧.trees };

    ghost row_laws = { sequence_laws ⟦<KrbCredInnerRow as Fields>⟧.trees (⟦<KrbCredInnerRow as Fields>⟧.injective (refl {a = true})) };

    ghost row_of = { λ v. (v.pvno, (v.msg_type, (v.tickets, (v.enc_part, tt)))) };

    ghost one_row = { λ v w e. ap (λ f. record { pvno = f.0; msg_type = f.1.0; tickets = f.1.1.0; enc_part = f.1.1.1.0 }) e };

    fn read_row<R: Source>(tag: u8, from: &mut Deserializer<R>) -> Result<Self::Row, Asn1DerError> {
        read_sequence(tag, from)
    }

    fn of_row(row: Self::Row) -> Self {
        from_fields![row; pvno, msg_type, tickets, enc_part]
    }

    fn write_row<W: Sink>(&self, tag: u8, to: &mut Serializer<W>) -> Result<usize, Asn1DerError> {
        to.list(tag, &fields_of![self; pvno, msg_type, tickets, enc_part])
    }
}
