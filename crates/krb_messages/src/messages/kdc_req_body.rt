//! The body of a request.
ghost use Rattle.asn1_der.specs.Octets.{sequence_octet};

use crate::data_types::{
    EncryptedData, HostAddresses, KerberosFlags, KerberosTime, PrincipalName, Realm, Ticket,
};
use asn1_der::octets::SEQUENCE;
use byte_streams::{Sink, Source};
use picky_asn1::wrapper::{Asn1SequenceOf, IntegerAsn1};
use picky_asn1_der::{
    Asn1DerError, Deserializer, ExplicitContextTag0, ExplicitContextTag1, ExplicitContextTag2,
    ExplicitContextTag3, ExplicitContextTag4, ExplicitContextTag5, ExplicitContextTag6,
    ExplicitContextTag7, ExplicitContextTag8, ExplicitContextTag9, ExplicitContextTag10,
    ExplicitContextTag11, Fields, LentFields, Optional, RecordFields, Row12, Serializer, Tagged,
    fields_of, from_fields, read_sequence, row,
};
use std::alloc::AllocError;

/// The body of a request to a KDC (RFC 4120, section 5.4.1).
///
/// ```text
/// KDC-REQ-BODY ::= SEQUENCE {
///      kdc-options              [0] KDCOptions,
///      cname                    [1] PrincipalName OPTIONAL -- Used only in AS-REQ --,
///      realm                    [2] Realm -- Server's realm, also client's in AS-REQ --,
///      sname                    [3] PrincipalName OPTIONAL,
///      from                     [4] KerberosTime OPTIONAL,
///      till                     [5] KerberosTime,
///      rtime                    [6] KerberosTime OPTIONAL,
///      nonce                    [7] UInt32,
///      etype                    [8] SEQUENCE OF Int32 -- EncryptionType, in preference order --,
///      addresses                [9] HostAddresses OPTIONAL,
///      enc-authorization-data   [10] EncryptedData OPTIONAL -- AuthorizationData --,
///      additional-tickets       [11] SEQUENCE OF Ticket OPTIONAL -- NOTE: not empty -- }
/// ```
#[derive(Debug, Drop, PartialEq, Eq)]
pub struct KdcReqBody {
    /// The options that are asked for.
    pub kdc_options: ExplicitContextTag0<KerberosFlags>,
    /// The client, in an AS request.
    pub cname: Optional<Option<ExplicitContextTag1<PrincipalName>>>,
    /// The service's realm, and in an AS request the client's.
    pub realm: ExplicitContextTag2<Realm>,
    /// The service.
    pub sname: Optional<Option<ExplicitContextTag3<PrincipalName>>>,
    /// When a postdated ticket is to start.
    pub from: Optional<Option<ExplicitContextTag4<KerberosTime>>>,
    /// When the ticket is to end.
    pub till: ExplicitContextTag5<KerberosTime>,
    /// When a renewable ticket is to end.
    pub rtime: Optional<Option<ExplicitContextTag6<KerberosTime>>>,
    /// A number that the reply repeats.
    pub nonce: ExplicitContextTag7<IntegerAsn1>,
    /// The encryption types, in the client's order.
    pub etype: ExplicitContextTag8<Asn1SequenceOf<IntegerAsn1>>,
    /// The addresses that the ticket is to be for.
    pub addresses: Optional<Option<ExplicitContextTag9<HostAddresses>>>,
    /// Encrypted authorization data, in a TGS request.
    pub enc_authorization_data: Optional<Option<ExplicitContextTag10<EncryptedData>>>,
    /// Further tickets, as an option asks for them.
    pub additional_tickets: Optional<Option<ExplicitContextTag11<Asn1SequenceOf<Ticket>>>>,
}

type KdcReqBodyRow = Row12<
    ExplicitContextTag0<KerberosFlags>,
    Optional<Option<ExplicitContextTag1<PrincipalName>>>,
    ExplicitContextTag2<Realm>,
    Optional<Option<ExplicitContextTag3<PrincipalName>>>,
    Optional<Option<ExplicitContextTag4<KerberosTime>>>,
    ExplicitContextTag5<KerberosTime>,
    Optional<Option<ExplicitContextTag6<KerberosTime>>>,
    ExplicitContextTag7<IntegerAsn1>,
    ExplicitContextTag8<Asn1SequenceOf<IntegerAsn1>>,
    Optional<Option<ExplicitContextTag9<HostAddresses>>>,
    Optional<Option<ExplicitContextTag10<EncryptedData>>>,
    Optional<Option<ExplicitContextTag11<Asn1SequenceOf<Ticket>>>>,
>;

impl Clone for KdcReqBody {
    ghost is_clone = { λ value copy. ⟦<KdcReqBodyRow as RecordFields>⟧.are_copies (⟦<KdcReqBody as Tagged>⟧.row_of value) (⟦<KdcReqBody as Tagged>⟧.row_of copy) };

    fn clone(&self) -> Result<KdcReqBody, AllocError> {
        let row![kdc_options, cname, realm, sname] =
            fields_of![self; kdc_options, cname, realm, sname].copied()?;
        let row![from, till, rtime, nonce] = fields_of![self; from, till, rtime, nonce].copied()?;
        let row![etype, addresses, enc_authorization_data, additional_tickets] =
            fields_of![self; etype, addresses, enc_authorization_data, additional_tickets].copied()?;
        Ok(KdcReqBody {
            kdc_options,
            cname,
            realm,
            sname,
            from,
            till,
            rtime,
            nonce,
            etype,
            addresses,
            enc_authorization_data,
            additional_tickets,
        })
    }
}

impl Tagged for KdcReqBody {
    ghost use Rattle.std.proofs.Common.{ap, refl, true};
    ghost use Rattle.asn1_der.specs.Tagged.{sequence};
    ghost use Rattle.asn1_der.proofs.Tagged.{sequence_laws};

    type Row = KdcReqBodyRow;

    const FIRST: u8 = SEQUENCE;

    ghost FIRST = { sequence_octet };

    ghost row_tree = { sequence ⟦<KdcReqBodyRow as Fields>⟧.trees };

    ghost row_laws = { sequence_laws ⟦<KdcReqBodyRow as Fields>⟧.trees (⟦<KdcReqBodyRow as Fields>⟧.injective (refl {a = true})) };

    ghost row_of = { λ v. (v.kdc_options, (v.cname, (v.realm, (v.sname, (v.from, (v.till, (v.rtime, (v.nonce, (v.etype, (v.addresses, (v.enc_authorization_data, (v.additional_tickets, tt)))))))))))) };

    ghost one_row = { λ v w e. ap (λ f. record { kdc_options = f.0; cname = f.1.0; realm = f.1.1.0; sname = f.1.1.1.0; from = f.1.1.1.1.0; till = f.1.1.1.1.1.0; rtime = f.1.1.1.1.1.1.0; nonce = f.1.1.1.1.1.1.1.0; etype = f.1.1.1.1.1.1.1.1.0; addresses = f.1.1.1.1.1.1.1.1.1.0; enc_authorization_data = f.1.1.1.1.1.1.1.1.1.1.0; additional_tickets = f.1.1.1.1.1.1.1.1.1.1.1.0 }) e };

    fn read_row<R: Source>(tag: u8, from: &mut Deserializer<R>) -> Result<Self::Row, Asn1DerError> {
        read_sequence(tag, from)
    }

    fn of_row(row: Self::Row) -> Self {
        from_fields![row;
            kdc_options, cname, realm, sname, from, till, rtime, nonce, etype, addresses,
            enc_authorization_data, additional_tickets
        ]
    }

    fn write_row<W: Sink>(&self, tag: u8, to: &mut Serializer<W>) -> Result<usize, Asn1DerError> {
        to.list(
            tag,
            &fields_of![self;
                kdc_options, cname, realm, sname, from, till, rtime, nonce, etype, addresses,
                enc_authorization_data, additional_tickets
            ],
        )
    }
}
