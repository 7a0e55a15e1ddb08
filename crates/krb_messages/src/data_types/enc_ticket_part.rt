//! The sealed part of a ticket.
ghost use Rattle.asn1_der.specs.Octets.{sequence_octet};

use crate::data_types::{
    AuthorizationData, EncryptionKey, HostAddresses, KerberosFlags, KerberosTime, PrincipalName,
    Realm, TransitedEncoding,
};
use asn1_der::octets::SEQUENCE;
use byte_streams::{Sink, Source};
use krb_constants::types::ENC_TICKET_PART_TYPE;
use picky_asn1_der::{
    ApplicationTag, Asn1DerError, Deserializer, ExplicitContextTag0, ExplicitContextTag1,
    ExplicitContextTag2, ExplicitContextTag3, ExplicitContextTag4, ExplicitContextTag5,
    ExplicitContextTag6, ExplicitContextTag7, ExplicitContextTag8, ExplicitContextTag9,
    ExplicitContextTag10, Fields, LentFields, Optional, RecordFields, Row11, Serializer, Tagged,
    fields_of, from_fields, read_sequence,
};
use std::alloc::AllocError;

/// What a ticket holds under the service's key (RFC 4120, section 5.3).
///
/// ```text
/// EncTicketPart ::= [APPLICATION 3] SEQUENCE {
///      flags                [0] TicketFlags,
///      key                  [1] EncryptionKey,
///      crealm               [2] Realm,
///      cname                [3] PrincipalName,
///      transited            [4] TransitedEncoding,
///      authtime             [5] KerberosTime,
///      starttime            [6] KerberosTime OPTIONAL,
///      endtime              [7] KerberosTime,
///      renew-till           [8] KerberosTime OPTIONAL,
///      caddr                [9] HostAddresses OPTIONAL,
///      authorization-data   [10] AuthorizationData OPTIONAL }
/// ```
#[derive(Debug, Drop, PartialEq, Eq)]
pub struct EncTicketPartInner {
    /// The flags of the ticket (RFC 4120, section 5.3, TicketFlags).
    pub flags: ExplicitContextTag0<KerberosFlags>,
    /// The session key, which client and service share.
    pub key: ExplicitContextTag1<EncryptionKey>,
    /// The client's realm.
    pub crealm: ExplicitContextTag2<Realm>,
    /// The client.
    pub cname: ExplicitContextTag3<PrincipalName>,
    /// The realms between that of the client and that of the service.
    pub transited: ExplicitContextTag4<TransitedEncoding>,
    /// When the client authenticated for the first ticket.
    pub auth_time: ExplicitContextTag5<KerberosTime>,
    /// When the ticket starts; where it is missing, `auth_time` counts.
    pub starttime: Optional<Option<ExplicitContextTag6<KerberosTime>>>,
    /// When the ticket ends.
    pub endtime: ExplicitContextTag7<KerberosTime>,
    /// When a renewable ticket ends for good.
    pub renew_till: Optional<Option<ExplicitContextTag8<KerberosTime>>>,
    /// The addresses that the ticket may be used from; where they are missing, any.
    pub caddr: Optional<Option<ExplicitContextTag9<HostAddresses>>>,
    /// What narrows the rights that the ticket grants.
    pub authorization_data: Optional<Option<ExplicitContextTag10<AuthorizationData>>>,
}

/// The sealed part of a ticket (RFC 4120, section 5.3).
pub type EncTicketPart = ApplicationTag<EncTicketPartInner, ENC_TICKET_PART_TYPE>;

type EncTicketPartInnerRow = Row11<
    ExplicitContextTag0<KerberosFlags>,
    ExplicitContextTag1<EncryptionKey>,
    ExplicitContextTag2<Realm>,
    ExplicitContextTag3<PrincipalName>,
    ExplicitContextTag4<TransitedEncoding>,
    ExplicitContextTag5<KerberosTime>,
    Optional<Option<ExplicitContextTag6<KerberosTime>>>,
    ExplicitContextTag7<KerberosTime>,
    Optional<Option<ExplicitContextTag8<KerberosTime>>>,
    Optional<Option<ExplicitContextTag9<HostAddresses>>>,
    Optional<Option<ExplicitContextTag10<AuthorizationData>>>,
>;

impl Clone for EncTicketPartInner {
    ghost is_clone = { λ value copy. ⟦<EncTicketPartInnerRow as RecordFields>⟧.are_copies (⟦<EncTicketPartInner as Tagged>⟧.row_of value) (⟦<EncTicketPartInner as Tagged>⟧.row_of copy) };

    fn clone(&self) -> Result<EncTicketPartInner, AllocError> {
        let fields =
            fields_of![self; flags, key, crealm, cname, transited, auth_time, starttime, endtime, renew_till, caddr, authorization_data].copied()?;
        Ok(EncTicketPartInner::of_row(fields))
    }
}

impl Tagged for EncTicketPartInner {
    ghost use Rattle.std.proofs.Common.{ap, refl, true};
    ghost use Rattle.asn1_der.specs.Tagged.{sequence};
    ghost use Rattle.asn1_der.proofs.Tagged.{sequence_laws};

    type Row = EncTicketPartInnerRow;

    const FIRST: u8 = SEQUENCE;

    ghost FIRST = { sequence_octet };

    ghost row_tree = { sequence ⟦<EncTicketPartInnerRow as Fields>⟧.trees };

    ghost row_laws = { sequence_laws ⟦<EncTicketPartInnerRow as Fields>⟧.trees (⟦<EncTicketPartInnerRow as Fields>⟧.injective (refl {a = true})) };

    ghost row_of = { λ v. (v.flags, (v.key, (v.crealm, (v.cname, (v.transited, (v.auth_time, (v.starttime, (v.endtime, (v.renew_till, (v.caddr, (v.authorization_data, tt))))))))))) };

    ghost one_row = { λ v w e. ap (λ f. record { flags = f.0; key = f.1.0; crealm = f.1.1.0; cname = f.1.1.1.0; transited = f.1.1.1.1.0; auth_time = f.1.1.1.1.1.0; starttime = f.1.1.1.1.1.1.0; endtime = f.1.1.1.1.1.1.1.0; renew_till = f.1.1.1.1.1.1.1.1.0; caddr = f.1.1.1.1.1.1.1.1.1.0; authorization_data = f.1.1.1.1.1.1.1.1.1.1.0 }) e };

    fn read_row<R: Source>(tag: u8, from: &mut Deserializer<R>) -> Result<Self::Row, Asn1DerError> {
        read_sequence(tag, from)
    }

    fn of_row(row: Self::Row) -> Self {
        from_fields![row;
            flags, key, crealm, cname, transited, auth_time, starttime, endtime, renew_till, caddr,
            authorization_data
        ]
    }

    fn write_row<W: Sink>(&self, tag: u8, to: &mut Serializer<W>) -> Result<usize, Asn1DerError> {
        to.list(
            tag,
            &fields_of![self;
                flags, key, crealm, cname, transited, auth_time, starttime, endtime, renew_till,
                caddr, authorization_data
            ],
        )
    }
}
