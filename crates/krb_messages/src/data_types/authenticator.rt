//! Authenticators.
ghost use Rattle.asn1_der.specs.Octets.{sequence_octet};

use crate::data_types::{
    AuthorizationData, Checksum, EncryptionKey, KerberosTime, Microseconds, PrincipalName, Realm,
};
use asn1_der::octets::SEQUENCE;
use byte_streams::{Sink, Source};
use krb_constants::types::AUTHENTICATOR_TYPE;
use picky_asn1::wrapper::IntegerAsn1;
use picky_asn1_der::{
    ApplicationTag, Asn1DerError, Deserializer, ExplicitContextTag0, ExplicitContextTag1,
    ExplicitContextTag2, ExplicitContextTag3, ExplicitContextTag4, ExplicitContextTag5,
    ExplicitContextTag6, ExplicitContextTag7, ExplicitContextTag8, Fields, LentFields, Optional,
    RecordFields, Row9, Serializer, Tagged, fields_of, from_fields, read_sequence,
};
use std::alloc::AllocError;

/// What an authenticator holds (RFC 4120, section 5.5.1).
///
/// ```text
/// Authenticator ::= [APPLICATION 2] SEQUENCE {
///      authenticator-vno    [0] INTEGER (5),
///      crealm               [1] Realm,
///      cname                [2] PrincipalName,
///      cksum                [3] Checksum OPTIONAL,
///      cusec                [4] Microseconds,
///      ctime                [5] KerberosTime,
///      subkey               [6] EncryptionKey OPTIONAL,
///      seq-number           [7] UInt32 OPTIONAL,
///      authorization-data   [8] AuthorizationData OPTIONAL }
/// ```
#[derive(Debug, Drop, PartialEq, Eq)]
pub struct AuthenticatorInner {
    /// The version, 5.
    pub authenticator_vno: ExplicitContextTag0<IntegerAsn1>,
    /// The client's realm.
    pub crealm: ExplicitContextTag1<Realm>,
    /// The client.
    pub cname: ExplicitContextTag2<PrincipalName>,
    /// A checksum of what the authenticator is sent with.
    pub cksum: Optional<Option<ExplicitContextTag3<Checksum>>>,
    /// The microseconds of the client's time.
    pub cusec: ExplicitContextTag4<Microseconds>,
    /// The client's time.
    pub ctime: ExplicitContextTag5<KerberosTime>,
    /// A key of the client's choice for what follows; where it is missing, the session key counts.
    pub subkey: Optional<Option<ExplicitContextTag6<EncryptionKey>>>,
    /// The first number of the client's messages.
    pub seq_number: Optional<Option<ExplicitContextTag7<IntegerAsn1>>>,
    /// What narrows the rights that the ticket grants further.
    pub authorization_data: Optional<Option<ExplicitContextTag8<AuthorizationData>>>,
}

/// An authenticator (RFC 4120, section 5.5.1): it shows that the client of a ticket knows the session key.
pub type Authenticator = ApplicationTag<AuthenticatorInner, AUTHENTICATOR_TYPE>;

type AuthenticatorInnerRow = Row9<
    ExplicitContextTag0<IntegerAsn1>,
    ExplicitContextTag1<Realm>,
    ExplicitContextTag2<PrincipalName>,
    Optional<Option<ExplicitContextTag3<Checksum>>>,
    ExplicitContextTag4<Microseconds>,
    ExplicitContextTag5<KerberosTime>,
    Optional<Option<ExplicitContextTag6<EncryptionKey>>>,
    Optional<Option<ExplicitContextTag7<IntegerAsn1>>>,
    Optional<Option<ExplicitContextTag8<AuthorizationData>>>,
>;

impl Clone for AuthenticatorInner {
    ghost is_clone = { λ value copy. ⟦<AuthenticatorInnerRow as RecordFields>⟧.are_copies (⟦<AuthenticatorInner as Tagged>⟧.row_of value) (⟦<AuthenticatorInner as Tagged>⟧.row_of copy) };

    fn clone(&self) -> Result<AuthenticatorInner, AllocError> {
        let fields =
            fields_of![self; authenticator_vno, crealm, cname, cksum, cusec, ctime, subkey, seq_number, authorization_data].copied()?;
        Ok(AuthenticatorInner::of_row(fields))
    }
}

impl Tagged for AuthenticatorInner {
    ghost use Rattle.std.proofs.Common.{ap, refl, true};
    ghost use Rattle.asn1_der.specs.Tagged.{sequence};
    ghost use Rattle.asn1_der.proofs.Tagged.{sequence_laws};

    type Row = AuthenticatorInnerRow;

    const FIRST: u8 = SEQUENCE;

    ghost FIRST = { sequence_octet };

    ghost row_tree = { sequence ⟦<AuthenticatorInnerRow as Fields>⟧.trees };

    ghost row_laws = { sequence_laws ⟦<AuthenticatorInnerRow as Fields>⟧.trees (⟦<AuthenticatorInnerRow as Fields>⟧.injective (refl {a = true})) };

    ghost row_of = { λ v. (v.authenticator_vno, (v.crealm, (v.cname, (v.cksum, (v.cusec, (v.ctime, (v.subkey, (v.seq_number, (v.authorization_data, tt))))))))) };

    ghost one_row = { λ v w e. ap (λ f. record { authenticator_vno = f.0; crealm = f.1.0; cname = f.1.1.0; cksum = f.1.1.1.0; cusec = f.1.1.1.1.0; ctime = f.1.1.1.1.1.0; subkey = f.1.1.1.1.1.1.0; seq_number = f.1.1.1.1.1.1.1.0; authorization_data = f.1.1.1.1.1.1.1.1.0 }) e };

    fn read_row<R: Source>(tag: u8, from: &mut Deserializer<R>) -> Result<Self::Row, Asn1DerError> {
        read_sequence(tag, from)
    }

    fn of_row(row: Self::Row) -> Self {
        from_fields![row;
            authenticator_vno, crealm, cname, cksum, cusec, ctime, subkey, seq_number,
            authorization_data
        ]
    }

    fn write_row<W: Sink>(&self, tag: u8, to: &mut Serializer<W>) -> Result<usize, Asn1DerError> {
        to.list(
            tag,
            &fields_of![self;
                authenticator_vno, crealm, cname, cksum, cusec, ctime, subkey, seq_number,
                authorization_data
            ],
        )
    }
}
