//! The sealed part of a KDC's reply.
ghost use Rattle.asn1_der.specs.Octets.{sequence_octet};

use crate::data_types::{
    EncryptionKey, HostAddresses, KerberosFlags, KerberosTime, LastReq, PaData, PrincipalName,
    Realm,
};
use asn1_der::octets::SEQUENCE;
use byte_streams::{Sink, Source};
use krb_constants::types::{ENC_AS_REP_PART_TYPE, ENC_TGS_REP_PART_TYPE};
use picky_asn1::wrapper::{Asn1SequenceOf, IntegerAsn1};
use picky_asn1_der::{
    ApplicationTag, Asn1DerError, Deserializer, ExplicitContextTag0, ExplicitContextTag1,
    ExplicitContextTag2, ExplicitContextTag3, ExplicitContextTag4, ExplicitContextTag5,
    ExplicitContextTag6, ExplicitContextTag7, ExplicitContextTag8, ExplicitContextTag9,
    ExplicitContextTag10, ExplicitContextTag11, ExplicitContextTag12, Fields, LentFields, Optional,
    RecordFields, Row13, Serializer, Tagged, fields_of, from_fields, read_sequence, row,
};
use std::alloc::AllocError;

/// What a reply of a KDC holds under a key that the client knows (RFC 4120, section 5.4.2).
///
/// ```text
/// EncKDCRepPart ::= SEQUENCE {
///      key                 [0] EncryptionKey,
///      last-req            [1] LastReq,
///      nonce               [2] UInt32,
///      key-expiration      [3] KerberosTime OPTIONAL,
///      flags               [4] TicketFlags,
///      authtime            [5] KerberosTime,
///      starttime           [6] KerberosTime OPTIONAL,
///      endtime             [7] KerberosTime,
///      renew-till          [8] KerberosTime OPTIONAL,
///      srealm              [9] Realm,
///      sname               [10] PrincipalName,
///      caddr               [11] HostAddresses OPTIONAL,
///      encrypted-pa-data   [12] SEQUENCE OF PA-DATA OPTIONAL }
/// ```
#[derive(Debug, Drop, PartialEq, Eq)]
pub struct EncKdcRepPart {
    /// The session key, which client and service share.
    pub key: ExplicitContextTag0<EncryptionKey>,
    /// The times of the client's last requests.
    pub last_req: ExplicitContextTag1<LastReq>,
    /// The number of the request.
    pub nonce: ExplicitContextTag2<IntegerAsn1>,
    /// When the client's key ends.
    pub key_expiration: Optional<Option<ExplicitContextTag3<KerberosTime>>>,
    /// The flags of the ticket (RFC 4120, section 5.3, TicketFlags).
    pub flags: ExplicitContextTag4<KerberosFlags>,
    /// When the client authenticated for the first ticket.
    pub auth_time: ExplicitContextTag5<KerberosTime>,
    /// When the ticket starts; where it is missing, `auth_time` counts.
    pub start_time: Optional<Option<ExplicitContextTag6<KerberosTime>>>,
    /// When the ticket ends.
    pub end_time: ExplicitContextTag7<KerberosTime>,
    /// When a renewable ticket ends for good.
    pub renew_till: Optional<Option<ExplicitContextTag8<KerberosTime>>>,
    /// The service's realm.
    pub srealm: ExplicitContextTag9<Realm>,
    /// The service.
    pub sname: ExplicitContextTag10<PrincipalName>,
    /// The addresses that the ticket may be used from; where they are missing, any.
    pub caddr: Optional<Option<ExplicitContextTag11<HostAddresses>>>,
    /// Further preauthentication data (RFC 6806, section 11).
    pub encrypted_pa_data: Optional<Option<ExplicitContextTag12<Asn1SequenceOf<PaData>>>>,
}

/// The sealed part of a reply with a first ticket (RFC 4120, section 5.4.2).
///
/// ```text
/// EncASRepPart ::=
///      [APPLICATION 25] EncKDCRepPart
/// ```
pub type EncAsRepPart = ApplicationTag<EncKdcRepPart, ENC_AS_REP_PART_TYPE>;

/// The sealed part of a reply with a service ticket (RFC 4120, section 5.4.2).
///
/// ```text
/// EncTGSRepPart ::=
///      [APPLICATION 26] EncKDCRepPart
/// ```
pub type EncTgsRepPart = ApplicationTag<EncKdcRepPart, ENC_TGS_REP_PART_TYPE>;

type EncKdcRepPartRow = Row13<
    ExplicitContextTag0<EncryptionKey>,
    ExplicitContextTag1<LastReq>,
    ExplicitContextTag2<IntegerAsn1>,
    Optional<Option<ExplicitContextTag3<KerberosTime>>>,
    ExplicitContextTag4<KerberosFlags>,
    ExplicitContextTag5<KerberosTime>,
    Optional<Option<ExplicitContextTag6<KerberosTime>>>,
    ExplicitContextTag7<KerberosTime>,
    Optional<Option<ExplicitContextTag8<KerberosTime>>>,
    ExplicitContextTag9<Realm>,
    ExplicitContextTag10<PrincipalName>,
    Optional<Option<ExplicitContextTag11<HostAddresses>>>,
    Optional<Option<ExplicitContextTag12<Asn1SequenceOf<PaData>>>>,
>;

impl Clone for EncKdcRepPart {
    ghost is_clone = { λ value copy. ⟦<EncKdcRepPartRow as RecordFields>⟧.are_copies (⟦<EncKdcRepPart as Tagged>⟧.row_of value) (⟦<EncKdcRepPart as Tagged>⟧.row_of copy) };

    fn clone(&self) -> Result<EncKdcRepPart, AllocError> {
        let row![key, last_req, nonce, key_expiration] =
            fields_of![self; key, last_req, nonce, key_expiration].copied()?;
        let row![flags, auth_time, start_time, end_time] =
            fields_of![self; flags, auth_time, start_time, end_time].copied()?;
        let row![renew_till, srealm, sname, caddr, encrypted_pa_data] =
            fields_of![self; renew_till, srealm, sname, caddr, encrypted_pa_data].copied()?;
        Ok(EncKdcRepPart {
            key,
            last_req,
            nonce,
            key_expiration,
            flags,
            auth_time,
            start_time,
            end_time,
            renew_till,
            srealm,
            sname,
            caddr,
            encrypted_pa_data,
        })
    }
}

impl Tagged for EncKdcRepPart {
    ghost use Rattle.std.proofs.Common.{ap, refl, true};
    ghost use Rattle.asn1_der.specs.Tagged.{sequence};
    ghost use Rattle.asn1_der.proofs.Tagged.{sequence_laws};

    type Row = EncKdcRepPartRow;

    const FIRST: u8 = SEQUENCE;

    ghost FIRST = { sequence_octet };

    ghost row_tree = { sequence ⟦<EncKdcRepPartRow as Fields>⟧.trees };

    ghost row_laws = { sequence_laws ⟦<EncKdcRepPartRow as Fields>⟧.trees (⟦<EncKdcRepPartRow as Fields>⟧.injective (refl {a = true})) };

    ghost row_of = { λ v. (v.key, (v.last_req, (v.nonce, (v.key_expiration, (v.flags, (v.auth_time, (v.start_time, (v.end_time, (v.renew_till, (v.srealm, (v.sname, (v.caddr, (v.encrypted_pa_data, tt))))))))))))) };

    ghost one_row = { λ v w e. ap (λ f. record { key = f.0; last_req = f.1.0; nonce = f.1.1.0; key_expiration = f.1.1.1.0; flags = f.1.1.1.1.0; auth_time = f.1.1.1.1.1.0; start_time = f.1.1.1.1.1.1.0; end_time = f.1.1.1.1.1.1.1.0; renew_till = f.1.1.1.1.1.1.1.1.0; srealm = f.1.1.1.1.1.1.1.1.1.0; sname = f.1.1.1.1.1.1.1.1.1.1.0; caddr = f.1.1.1.1.1.1.1.1.1.1.1.0; encrypted_pa_data = f.1.1.1.1.1.1.1.1.1.1.1.1.0 }) e };

    fn read_row<R: Source>(tag: u8, from: &mut Deserializer<R>) -> Result<Self::Row, Asn1DerError> {
        read_sequence(tag, from)
    }

    fn of_row(row: Self::Row) -> Self {
        from_fields![row;
            key, last_req, nonce, key_expiration, flags, auth_time, start_time, end_time,
            renew_till, srealm, sname, caddr, encrypted_pa_data
        ]
    }

    fn write_row<W: Sink>(&self, tag: u8, to: &mut Serializer<W>) -> Result<usize, Asn1DerError> {
        to.list(
            tag,
            &fields_of![self;
                key, last_req, nonce, key_expiration, flags, auth_time, start_time, end_time,
                renew_till, srealm, sname, caddr, encrypted_pa_data
            ],
        )
    }
}
