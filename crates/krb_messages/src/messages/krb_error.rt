//! Errors.
ghost use Rattle.asn1_der.specs.Octets.{sequence_octet};

use crate::data_types::{KerberosStringAsn1, KerberosTime, Microseconds, PrincipalName, Realm};
use asn1_der::octets::SEQUENCE;
use byte_streams::{Sink, Source};
use krb_constants::types::KRB_ERROR_MSG_TYPE;
use picky_asn1::wrapper::{IntegerAsn1, OctetStringAsn1};
use picky_asn1_der::{
    ApplicationTag, Asn1DerError, Deserializer, ExplicitContextTag0, ExplicitContextTag1,
    ExplicitContextTag2, ExplicitContextTag3, ExplicitContextTag4, ExplicitContextTag5,
    ExplicitContextTag6, ExplicitContextTag7, ExplicitContextTag8, ExplicitContextTag9,
    ExplicitContextTag10, ExplicitContextTag11, ExplicitContextTag12, Fields, LentFields, Optional,
    RecordFields, Row13, Serializer, Tagged, fields_of, from_fields, read_sequence, row,
};
use std::alloc::AllocError;
use std::fmt;

/// What an error message holds (RFC 4120, section 5.9.1).
///
/// ```text
/// KRB-ERROR ::= [APPLICATION 30] SEQUENCE {
///      pvno         [0] INTEGER (5),
///      msg-type     [1] INTEGER (30),
///      ctime        [2] KerberosTime OPTIONAL,
///      cusec        [3] Microseconds OPTIONAL,
///      stime        [4] KerberosTime,
///      susec        [5] Microseconds,
///      error-code   [6] Int32,
///      crealm       [7] Realm OPTIONAL,
///      cname        [8] PrincipalName OPTIONAL,
///      realm        [9] Realm -- service realm --,
///      sname        [10] PrincipalName -- service name --,
///      e-text       [11] KerberosString OPTIONAL,
///      e-data       [12] OCTET STRING OPTIONAL }
/// ```
#[derive(Debug, Drop, PartialEq, Eq)]
pub struct KrbErrorInner {
    /// The version, 5.
    pub pvno: ExplicitContextTag0<IntegerAsn1>,
    /// The message type, 30.
    pub msg_type: ExplicitContextTag1<IntegerAsn1>,
    /// The client's time.
    pub ctime: Optional<Option<ExplicitContextTag2<KerberosTime>>>,
    /// The microseconds of the client's time.
    pub cusec: Optional<Option<ExplicitContextTag3<Microseconds>>>,
    /// The server's time.
    pub stime: ExplicitContextTag4<KerberosTime>,
    /// The microseconds of the server's time.
    pub susec: ExplicitContextTag5<Microseconds>,
    /// The code (RFC 4120, section 7.5.9).
    pub error_code: ExplicitContextTag6<u32>,
    /// The client's realm.
    pub crealm: Optional<Option<ExplicitContextTag7<Realm>>>,
    /// The client.
    pub cname: Optional<Option<ExplicitContextTag8<PrincipalName>>>,
    /// The service's realm.
    pub realm: ExplicitContextTag9<Realm>,
    /// The service.
    pub sname: ExplicitContextTag10<PrincipalName>,
    /// A text for people.
    pub e_text: Optional<Option<ExplicitContextTag11<KerberosStringAsn1>>>,
    /// Further data, by the code.
    pub e_data: Optional<Option<ExplicitContextTag12<OctetStringAsn1>>>,
}

/// An error message (RFC 4120, section 5.9.1).
pub type KrbError = ApplicationTag<KrbErrorInner, KRB_ERROR_MSG_TYPE>;

/// Prints the code, as `0x06`.
impl fmt::Display for KrbErrorInner {
    fn fmt<W: fmt::Write>(&self, f: &mut fmt::Formatter<W>) -> fmt::Result {
        let code = self.error_code.0;
        write!(f, "0x{code:02X}")
    }
}

type KrbErrorInnerRow = Row13<
    ExplicitContextTag0<IntegerAsn1>,
    ExplicitContextTag1<IntegerAsn1>,
    Optional<Option<ExplicitContextTag2<KerberosTime>>>,
    Optional<Option<ExplicitContextTag3<Microseconds>>>,
    ExplicitContextTag4<KerberosTime>,
    ExplicitContextTag5<Microseconds>,
    ExplicitContextTag6<u32>,
    Optional<Option<ExplicitContextTag7<Realm>>>,
    Optional<Option<ExplicitContextTag8<PrincipalName>>>,
    ExplicitContextTag9<Realm>,
    ExplicitContextTag10<PrincipalName>,
    Optional<Option<ExplicitContextTag11<KerberosStringAsn1>>>,
    Optional<Option<ExplicitContextTag12<OctetStringAsn1>>>,
>;

impl Clone for KrbErrorInner {
    ghost is_clone = { λ value copy. ⟦<KrbErrorInnerRow as RecordFields>⟧.are_copies (⟦<KrbErrorInner as Tagged>⟧.row_of value) (⟦<KrbErrorInner as Tagged>⟧.row_of copy) };

    fn clone(&self) -> Result<KrbErrorInner, AllocError> {
        let row![pvno, msg_type, ctime, cusec] =
            fields_of![self; pvno, msg_type, ctime, cusec].copied()?;
        let row![stime, susec, error_code, crealm] =
            fields_of![self; stime, susec, error_code, crealm].copied()?;
        let row![cname, realm, sname, e_text, e_data] =
            fields_of![self; cname, realm, sname, e_text, e_data].copied()?;
        Ok(KrbErrorInner {
            pvno,
            msg_type,
            ctime,
            cusec,
            stime,
            susec,
            error_code,
            crealm,
            cname,
            realm,
            sname,
            e_text,
            e_data,
        })
    }
}

impl Tagged for KrbErrorInner {
    ghost use Rattle.std.proofs.Common.{ap, refl, true};
    ghost use Rattle.asn1_der.specs.Tagged.{sequence};
    ghost use Rattle.asn1_der.proofs.Tagged.{sequence_laws};

    type Row = KrbErrorInnerRow;

    const FIRST: u8 = SEQUENCE;

    ghost FIRST = { sequence_octet };

    ghost row_tree = { sequence ⟦<KrbErrorInnerRow as Fields>⟧.trees };

    ghost row_laws = { sequence_laws ⟦<KrbErrorInnerRow as Fields>⟧.trees (⟦<KrbErrorInnerRow as Fields>⟧.injective (refl {a = true})) };

    ghost row_of = { λ v. (v.pvno, (v.msg_type, (v.ctime, (v.cusec, (v.stime, (v.susec, (v.error_code, (v.crealm, (v.cname, (v.realm, (v.sname, (v.e_text, (v.e_data, tt))))))))))))) };

    ghost one_row = { λ v w e. ap (λ f. record { pvno = f.0; msg_type = f.1.0; ctime = f.1.1.0; cusec = f.1.1.1.0; stime = f.1.1.1.1.0; susec = f.1.1.1.1.1.0; error_code = f.1.1.1.1.1.1.0; crealm = f.1.1.1.1.1.1.1.0; cname = f.1.1.1.1.1.1.1.1.0; realm = f.1.1.1.1.1.1.1.1.1.0; sname = f.1.1.1.1.1.1.1.1.1.1.0; e_text = f.1.1.1.1.1.1.1.1.1.1.1.0; e_data = f.1.1.1.1.1.1.1.1.1.1.1.1.0 }) e };

    fn read_row<R: Source>(tag: u8, from: &mut Deserializer<R>) -> Result<Self::Row, Asn1DerError> {
        read_sequence(tag, from)
    }

    fn of_row(row: Self::Row) -> Self {
        from_fields![row;
            pvno, msg_type, ctime, cusec, stime, susec, error_code, crealm, cname, realm, sname,
            e_text, e_data
        ]
    }

    fn write_row<W: Sink>(&self, tag: u8, to: &mut Serializer<W>) -> Result<usize, Asn1DerError> {
        to.list(
            tag,
            &fields_of![self;
                pvno, msg_type, ctime, cusec, stime, susec, error_code, crealm, cname, realm, sname,
                e_text, e_data
            ],
        )
    }
}
