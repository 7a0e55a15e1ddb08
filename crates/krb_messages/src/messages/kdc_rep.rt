//! Replies of a KDC.
ghost use Rattle.asn1_der.specs.Octets.{sequence_octet};

use crate::data_types::{EncryptedData, PaData, PrincipalName, Realm, Ticket};
use asn1_der::octets::SEQUENCE;
use byte_streams::{Sink, Source};
use krb_constants::types::{AS_REP_MSG_TYPE, TGS_REP_MSG_TYPE};
use picky_asn1::wrapper::{Asn1SequenceOf, IntegerAsn1};
use picky_asn1_der::{
    ApplicationTag, Asn1DerError, Deserializer, ExplicitContextTag0, ExplicitContextTag1,
    ExplicitContextTag2, ExplicitContextTag3, ExplicitContextTag4, ExplicitContextTag5,
    ExplicitContextTag6, Fields, LentFields, Optional, RecordFields, Row7, Serializer, Tagged,
    fields_of, from_fields, read_sequence,
};
use std::alloc::AllocError;

/// A reply of a KDC (RFC 4120, section 5.4.2).
///
/// ```text
/// KDC-REP ::= SEQUENCE {
///      pvno       [0] INTEGER (5),
///      msg-type   [1] INTEGER (11 | 13),
///      padata     [2] SEQUENCE OF PA-DATA OPTIONAL -- NOTE: not empty --,
///      crealm     [3] Realm,
///      cname      [4] PrincipalName,
///      ticket     [5] Ticket,
///      enc-part   [6] EncryptedData -- EncASRepPart or EncTGSRepPart, as appropriate -- }
/// ```
#[derive(Debug, Drop, PartialEq, Eq)]
pub struct KdcRep {
    /// The version, 5.
    pub pvno: ExplicitContextTag0<IntegerAsn1>,
    /// The message type, 11 or 13.
    pub msg_type: ExplicitContextTag1<IntegerAsn1>,
    /// Preauthentication data.
    pub padata: Optional<Option<ExplicitContextTag2<Asn1SequenceOf<PaData>>>>,
    /// The client's realm.
    pub crealm: ExplicitContextTag3<Realm>,
    /// The client.
    pub cname: ExplicitContextTag4<PrincipalName>,
    /// The ticket.
    pub ticket: ExplicitContextTag5<Ticket>,
    /// The part under a key that the client knows.
    pub enc_part: ExplicitContextTag6<EncryptedData>,
}

/// A reply with a first ticket (RFC 4120, section 5.4.2).
///
/// ```text
/// AS-REP ::= [APPLICATION 11] KDC-REP
/// ```
pub type AsRep = ApplicationTag<KdcRep, AS_REP_MSG_TYPE>;

/// A reply with a service ticket (RFC 4120, section 5.4.2).
///
/// ```text
/// TGS-REP ::= [APPLICATION 13] KDC-REP
/// ```
pub type TgsRep = ApplicationTag<KdcRep, TGS_REP_MSG_TYPE>;

type KdcRepRow = Row7<
    ExplicitContextTag0<IntegerAsn1>,
    ExplicitContextTag1<IntegerAsn1>,
    Optional<Option<ExplicitContextTag2<Asn1SequenceOf<PaData>>>>,
    ExplicitContextTag3<Realm>,
    ExplicitContextTag4<PrincipalName>,
    ExplicitContextTag5<Ticket>,
    ExplicitContextTag6<EncryptedData>,
>;

impl Clone for KdcRep {
    ghost is_clone = { λ value copy. ⟦<KdcRepRow as RecordFields>⟧.are_copies (⟦<KdcRep as Tagged>⟧.row_of value) (⟦<KdcRep as Tagged>⟧.row_of copy) };

    fn clone(&self) -> Result<KdcRep, AllocError> {
        let fields =
            fields_of![self; pvno, msg_type, padata, crealm, cname, ticket, enc_part].copied()?;
        Ok(KdcRep::of_row(fields))
    }
}

impl Tagged for KdcRep {
    ghost use Rattle.std.proofs.Common.{ap, refl, true};
    ghost use Rattle.asn1_der.specs.Tagged.{sequence};
    ghost use Rattle.asn1_der.proofs.Tagged.{sequence_laws};

    type Row = KdcRepRow;

    const FIRST: u8 = SEQUENCE;

    ghost FIRST = { sequence_octet };

    ghost row_tree = { sequence ⟦<KdcRepRow as Fields>⟧.trees };

    ghost row_laws = { sequence_laws ⟦<KdcRepRow as Fields>⟧.trees (⟦<KdcRepRow as Fields>⟧.injective (refl {a = true})) };

    ghost row_of = { λ v. (v.pvno, (v.msg_type, (v.padata, (v.crealm, (v.cname, (v.ticket, (v.enc_part, tt))))))) };

    ghost one_row = { λ v w e. ap (λ f. record { pvno = f.0; msg_type = f.1.0; padata = f.1.1.0; crealm = f.1.1.1.0; cname = f.1.1.1.1.0; ticket = f.1.1.1.1.1.0; enc_part = f.1.1.1.1.1.1.0 }) e };

    fn read_row<R: Source>(tag: u8, from: &mut Deserializer<R>) -> Result<Self::Row, Asn1DerError> {
        read_sequence(tag, from)
    }

    fn of_row(row: Self::Row) -> Self {
        from_fields![row; pvno, msg_type, padata, crealm, cname, ticket, enc_part]
    }

    fn write_row<W: Sink>(&self, tag: u8, to: &mut Serializer<W>) -> Result<usize, Asn1DerError> {
        to.list(
            tag,
            &fields_of![self; pvno, msg_type, padata, crealm, cname, ticket, enc_part],
        )
    }
}
