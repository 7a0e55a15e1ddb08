//! The sealed part of a service's reply.
ghost use Rattle.asn1_der.specs.Octets.{sequence_octet};

use crate::data_types::{EncryptionKey, KerberosTime, Microseconds};
use asn1_der::octets::SEQUENCE;
use byte_streams::{Sink, Source};
use krb_constants::types::ENC_AP_REP_PART_TYPE;
use picky_asn1::wrapper::IntegerAsn1;
use picky_asn1_der::{
    ApplicationTag, Asn1DerError, Deserializer, ExplicitContextTag0, ExplicitContextTag1,
    ExplicitContextTag2, ExplicitContextTag3, Fields, LentFields, Optional, RecordFields, Row4,
    Serializer, Tagged, fields_of, from_fields, read_sequence,
};
use std::alloc::AllocError;

/// What a service's reply holds under the session key (RFC 4120, section 5.5.2).
///
/// ```text
/// EncAPRepPart ::= [APPLICATION 27] SEQUENCE {
///      ctime        [0] KerberosTime,
///      cusec        [1] Microseconds,
///      subkey       [2] EncryptionKey OPTIONAL,
///      seq-number   [3] UInt32 OPTIONAL }
/// ```
#[derive(Debug, Drop, PartialEq, Eq)]
pub struct EncApRepPartInner {
    /// The client's time, as the authenticator has it.
    pub ctime: ExplicitContextTag0<KerberosTime>,
    /// The microseconds of that time.
    pub cusec: ExplicitContextTag1<Microseconds>,
    /// A key of the service's choice for what follows.
    pub subkey: Optional<Option<ExplicitContextTag2<EncryptionKey>>>,
    /// The first number of the service's messages.
    pub seq_number: Optional<Option<ExplicitContextTag3<IntegerAsn1>>>,
}

/// The sealed part of a service's reply (RFC 4120, section 5.5.2).
pub type EncApRepPart = ApplicationTag<EncApRepPartInner, ENC_AP_REP_PART_TYPE>;

type EncApRepPartInnerRow = Row4<
    ExplicitContextTag0<KerberosTime>,
    ExplicitContextTag1<Microseconds>,
    Optional<Option<ExplicitContextTag2<EncryptionKey>>>,
    Optional<Option<ExplicitContextTag3<IntegerAsn1>>>,
>;

impl Clone for EncApRepPartInner {
    ghost is_clone = { λ value copy. ⟦<EncApRepPartInnerRow as RecordFields>⟧.are_copies (⟦<EncApRepPartInner as Tagged>⟧.row_of value) (⟦<EncApRepPartInner as Tagged>⟧.row_of copy) };

    fn clone(&self) -> Result<EncApRepPartInner, AllocError> {
        let fields = fields_of![self; ctime, cusec, subkey, seq_number].copied()?;
        Ok(EncApRepPartInner::of_row(fields))
    }
}

impl Tagged for EncApRepPartInner {
    ghost use Rattle.std.proofs.Common.{ap, refl, true};
    ghost use Rattle.asn1_der.specs.Tagged.{sequence};
    ghost use Rattle.asn1_der.proofs.Tagged.{sequence_laws};

    type Row = EncApRepPartInnerRow;

    const FIRST: u8 = SEQUENCE;

    ghost FIRST = { sequence_octet };

    ghost row_tree = { sequence ⟦<EncApRepPartInnerRow as Fields>⟧.trees };

    ghost row_laws = { sequence_laws ⟦<EncApRepPartInnerRow as Fields>⟧.trees (⟦<EncApRepPartInnerRow as Fields>⟧.injective (refl {a = true})) };

    ghost row_of = { λ v. (v.ctime, (v.cusec, (v.subkey, (v.seq_number, tt)))) };

    ghost one_row = { λ v w e. ap (λ f. record { ctime = f.0; cusec = f.1.0; subkey = f.1.1.0; seq_number = f.1.1.1.0 }) e };

    fn read_row<R: Source>(tag: u8, from: &mut Deserializer<R>) -> Result<Self::Row, Asn1DerError> {
        read_sequence(tag, from)
    }

    fn of_row(row: Self::Row) -> Self {
        from_fields![row; ctime, cusec, subkey, seq_number]
    }

    fn write_row<W: Sink>(&self, tag: u8, to: &mut Serializer<W>) -> Result<usize, Asn1DerError> {
        to.list(tag, &fields_of![self; ctime, cusec, subkey, seq_number])
    }
}
