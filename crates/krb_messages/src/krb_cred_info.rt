//! The information on a ticket that is handed on.
ghost use Rattle.asn1_der.specs.Octets.{sequence_octet};

use crate::data_types::{
    EncryptionKey, HostAddresses, KerberosFlags, KerberosTime, PrincipalName, Realm,
};
use asn1_der::octets::SEQUENCE;
use byte_streams::{Sink, Source};
use picky_asn1_der::{
    Asn1DerError, Deserializer, ExplicitContextTag0, ExplicitContextTag1, ExplicitContextTag2,
    ExplicitContextTag3, ExplicitContextTag4, ExplicitContextTag5, ExplicitContextTag6,
    ExplicitContextTag7, ExplicitContextTag8, ExplicitContextTag9, ExplicitContextTag10, Fields,
    LentFields, Optional, RecordFields, Row11, Serializer, Tagged, fields_of, from_fields,
    read_sequence, row,
};
use std::alloc::AllocError;

/// The information on a ticket that is handed on (RFC 4120, section 5.8.1).
///
/// ```text
/// KrbCredInfo ::= SEQUENCE {
///      key          [0] EncryptionKey,
///      prealm       [1] Realm OPTIONAL,
///      pname        [2] PrincipalName OPTIONAL,
///      flags        [3] TicketFlags OPTIONAL,
///      authtime     [4] KerberosTime OPTIONAL,
///      starttime    [5] KerberosTime OPTIONAL,
///      endtime      [6] KerberosTime OPTIONAL,
///      renew-till   [7] KerberosTime OPTIONAL,
///      srealm       [8] Realm OPTIONAL,
///      sname        [9] PrincipalName OPTIONAL,
///      caddr        [10] HostAddresses OPTIONAL }
/// ```
#[derive(Debug, Drop, PartialEq, Eq)]
pub struct KrbCredInfo {
    /// The session key.
    pub key: ExplicitContextTag0<EncryptionKey>,
    /// The client's realm.
    pub prealm: Optional<Option<ExplicitContextTag1<Realm>>>,
    /// The client.
    pub pname: Optional<Option<ExplicitContextTag2<PrincipalName>>>,
    /// The ticket's flags.
    pub flags: Optional<Option<ExplicitContextTag3<KerberosFlags>>>,
    /// When the client authenticated first.
    pub auth_time: Optional<Option<ExplicitContextTag4<KerberosTime>>>,
    /// When the ticket starts.
    pub start_time: Optional<Option<ExplicitContextTag5<KerberosTime>>>,
    /// When the ticket ends.
    pub end_time: Optional<Option<ExplicitContextTag6<KerberosTime>>>,
    /// When a renewable ticket ends for good.
    pub renew_till: Optional<Option<ExplicitContextTag7<KerberosTime>>>,
    /// The service's realm.
    pub srealm: Optional<Option<ExplicitContextTag8<Realm>>>,
    /// The service.
    pub sname: Optional<Option<ExplicitContextTag9<PrincipalName>>>,
    /// The addresses that the ticket is for.
    pub caddr: Optional<Option<ExplicitContextTag10<HostAddresses>>>,
}

type KrbCredInfoRow = Row11<
    ExplicitContextTag0<EncryptionKey>,
    Optional<Option<ExplicitContextTag1<Realm>>>,
    Optional<Option<ExplicitContextTag2<PrincipalName>>>,
    Optional<Option<ExplicitContextTag3<KerberosFlags>>>,
    Optional<Option<ExplicitContextTag4<KerberosTime>>>,
    Optional<Option<ExplicitContextTag5<KerberosTime>>>,
    Optional<Option<ExplicitContextTag6<KerberosTime>>>,
    Optional<Option<ExplicitContextTag7<KerberosTime>>>,
    Optional<Option<ExplicitContextTag8<Realm>>>,
    Optional<Option<ExplicitContextTag9<PrincipalName>>>,
    Optional<Option<ExplicitContextTag10<HostAddresses>>>,
>;

impl Clone for KrbCredInfo {
    ghost is_clone = { λ value copy. ⟦<KrbCredInfoRow as RecordFields>⟧.are_copies (⟦<KrbCredInfo as Tagged>⟧.row_of value) (⟦<KrbCredInfo as Tagged>⟧.row_of copy) };

    fn clone(&self) -> Result<KrbCredInfo, AllocError> {
        let row![key, prealm, pname, flags] = fields_of![self; key, prealm, pname, flags].copied()?;
        let row![auth_time, start_time, end_time, renew_till] =
            fields_of![self; auth_time, start_time, end_time, renew_till].copied()?;
        let row![srealm, sname, caddr] = fields_of![self; srealm, sname, caddr].copied()?;
        Ok(KrbCredInfo {
            key,
            prealm,
            pname,
            flags,
            auth_time,
            start_time,
            end_time,
            renew_till,
            srealm,
            sname,
            caddr,
        })
    }
}

impl Tagged for KrbCredInfo {
    ghost use Rattle.std.proofs.Common.{ap, refl, true};
    ghost use Rattle.asn1_der.specs.Tagged.{sequence};
    ghost use Rattle.asn1_der.proofs.Tagged.{sequence_laws};

    type Row = KrbCredInfoRow;

    const FIRST: u8 = SEQUENCE;

    ghost FIRST = { sequence_octet };

    ghost row_tree = { sequence ⟦<KrbCredInfoRow as Fields>⟧.trees };

    ghost row_laws = { sequence_laws ⟦<KrbCredInfoRow as Fields>⟧.trees (⟦<KrbCredInfoRow as Fields>⟧.injective (refl {a = true})) };

    ghost row_of = { λ v. (v.key, (v.prealm, (v.pname, (v.flags, (v.auth_time, (v.start_time, (v.end_time, (v.renew_till, (v.srealm, (v.sname, (v.caddr, tt))))))))))) };

    ghost one_row = { λ v w e. ap (λ f. record { key = f.0; prealm = f.1.0; pname = f.1.1.0; flags = f.1.1.1.0; auth_time = f.1.1.1.1.0; start_time = f.1.1.1.1.1.0; end_time = f.1.1.1.1.1.1.0; renew_till = f.1.1.1.1.1.1.1.0; srealm = f.1.1.1.1.1.1.1.1.0; sname = f.1.1.1.1.1.1.1.1.1.0; caddr = f.1.1.1.1.1.1.1.1.1.1.0 }) e };

    fn read_row<R: Source>(tag: u8, from: &mut Deserializer<R>) -> Result<Self::Row, Asn1DerError> {
        read_sequence(tag, from)
    }

    fn of_row(row: Self::Row) -> Self {
        from_fields![row; key, prealm, pname, flags, auth_time, start_time, end_time, renew_till, srealm, sname, caddr]
    }

    fn write_row<W: Sink>(&self, tag: u8, to: &mut Serializer<W>) -> Result<usize, Asn1DerError> {
        to.list(
            tag,
            &fields_of![self; key, prealm, pname, flags, auth_time, start_time, end_time, renew_till, srealm, sname, caddr],
        )
    }
}
