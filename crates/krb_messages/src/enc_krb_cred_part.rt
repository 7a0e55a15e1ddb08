//! The sealed part of a message that hands tickets on.
ghost use Rattle.asn1_der.specs.Octets.{sequence_octet};

use crate::data_types::{HostAddress, KerberosTime, Microseconds};
use crate::krb_cred_info::KrbCredInfo;
use asn1_der::octets::SEQUENCE;
use byte_streams::{Sink, Source};
use krb_constants::types::ENC_KRB_CRED_PART_TYPE;
use picky_asn1::wrapper::{Asn1SequenceOf, IntegerAsn1};
use picky_asn1_der::{
    ApplicationTag, Asn1DerError, Deserializer, ExplicitContextTag0, ExplicitContextTag1,
    ExplicitContextTag2, ExplicitContextTag3, ExplicitContextTag4, ExplicitContextTag5, Fields,
    LentFields, Optional, RecordFields, Row6, Serializer, Tagged, fields_of, from_fields,
    read_sequence,
};
use std::alloc::AllocError;

/// What a message that hands tickets on holds under a key that both sides know (RFC 4120, section 5.8.1).
///
/// ```text
/// EncKrbCredPart ::= [APPLICATION 29] SEQUENCE {
///      ticket-info   [0] SEQUENCE OF KrbCredInfo,
///      nonce         [1] UInt32 OPTIONAL,
///      timestamp     [2] KerberosTime OPTIONAL,
///      usec          [3] Microseconds OPTIONAL,
///      s-address     [4] HostAddress OPTIONAL,
///      r-address     [5] HostAddress OPTIONAL }
/// ```
#[derive(Debug, Drop, PartialEq, Eq)]
pub struct EncKrbCredPartInner {
    /// The information on each ticket, in the order of the tickets.
    pub ticket_info: ExplicitContextTag0<Asn1SequenceOf<KrbCredInfo>>,
    /// A number of the receiver.
    pub nonce: Optional<Option<ExplicitContextTag1<IntegerAsn1>>>,
    /// The sender's time.
    pub timestamp: Optional<Option<ExplicitContextTag2<KerberosTime>>>,
    /// The microseconds of that time.
    pub usec: Optional<Option<ExplicitContextTag3<Microseconds>>>,
    /// The sender's address.
    pub s_address: Optional<Option<ExplicitContextTag4<HostAddress>>>,
    /// The receiver's address.
    pub r_address: Optional<Option<ExplicitContextTag5<HostAddress>>>,
}

/// The sealed part of a message that hands tickets on (RFC 4120, section 5.8.1).
pub type EncKrbCredPart = ApplicationTag<EncKrbCredPartInner, ENC_KRB_CRED_PART_TYPE>;

type EncKrbCredPartInnerRow = Row6<
    ExplicitContextTag0<Asn1SequenceOf<KrbCredInfo>>,
    Optional<Option<ExplicitContextTag1<IntegerAsn1>>>,
    Optional<Option<ExplicitContextTag2<KerberosTime>>>,
    Optional<Option<ExplicitContextTag3<Microseconds>>>,
    Optional<Option<ExplicitContextTag4<HostAddress>>>,
    Optional<Option<ExplicitContextTag5<HostAddress>>>,
>;

impl Clone for EncKrbCredPartInner {
    ghost is_clone = { λ value copy. ⟦<EncKrbCredPartInnerRow as RecordFields>⟧.are_copies (⟦<EncKrbCredPartInner as Tagged>⟧.row_of value) (⟦<EncKrbCredPartInner as Tagged>⟧.row_of copy) };

    fn clone(&self) -> Result<EncKrbCredPartInner, AllocError> {
        let fields =
            fields_of![self; ticket_info, nonce, timestamp, usec, s_address, r_address].copied()?;
        Ok(EncKrbCredPartInner::of_row(fields))
    }
}

impl Tagged for EncKrbCredPartInner {
    ghost use Rattle.std.proofs.Common.{ap, refl, true};
    ghost use Rattle.asn1_der.specs.Tagged.{sequence};
    ghost use Rattle.asn1_der.proofs.Tagged.{sequence_laws};

    type Row = EncKrbCredPartInnerRow;

    const FIRST: u8 = SEQUENCE;

    ghost FIRST = { sequence_octet };

    ghost row_tree = { sequence ⟦<EncKrbCredPartInnerRow as Fields>⟧.trees };

    ghost row_laws = { sequence_laws ⟦<EncKrbCredPartInnerRow as Fields>⟧.trees (⟦<EncKrbCredPartInnerRow as Fields>⟧.injective (refl {a = true})) };

    ghost row_of = { λ v. (v.ticket_info, (v.nonce, (v.timestamp, (v.usec, (v.s_address, (v.r_address, tt)))))) };

    ghost one_row = { λ v w e. ap (λ f. record { ticket_info = f.0; nonce = f.1.0; timestamp = f.1.1.0; usec = f.1.1.1.0; s_address = f.1.1.1.1.0; r_address = f.1.1.1.1.1.0 }) e };

    fn read_row<R: Source>(tag: u8, from: &mut Deserializer<R>) -> Result<Self::Row, Asn1DerError> {
        read_sequence(tag, from)
    }

    fn of_row(row: Self::Row) -> Self {
        from_fields![row; ticket_info, nonce, timestamp, usec, s_address, r_address]
    }

    fn write_row<W: Sink>(&self, tag: u8, to: &mut Serializer<W>) -> Result<usize, Asn1DerError> {
        to.list(
            tag,
            &fields_of![self; ticket_info, nonce, timestamp, usec, s_address, r_address],
        )
    }
}
