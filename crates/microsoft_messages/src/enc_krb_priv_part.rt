//! The encrypted part of KRB-PRIV.
ghost use Rattle.asn1_der.specs.Octets.{sequence_octet};

use asn1_der::octets::SEQUENCE;
use byte_streams::{Sink, Source};
use krb_constants::types::KRB_PRIV_ENC_PART;
use krb_messages::data_types::{HostAddress, KerberosTime, Microseconds};
use picky_asn1::wrapper::{IntegerAsn1, OctetStringAsn1};
use picky_asn1_der::{
    ApplicationTag, Asn1DerError, Deserializer, ExplicitContextTag0, ExplicitContextTag1,
    ExplicitContextTag2, ExplicitContextTag3, ExplicitContextTag4, ExplicitContextTag5, Fields,
    LentFields, Optional, RecordFields, Row6, Serializer, Tagged, fields_of, from_fields,
    read_sequence,
};
use std::alloc::AllocError;

/// The fields of EncKrbPrivPart, which is encrypted under a key that both sides know (RFC 4120, section 5.7.1).
///
/// ```text
/// EncKrbPrivPart ::= [APPLICATION 28] SEQUENCE {
///      user-data    [0] OCTET STRING,
///      timestamp    [1] KerberosTime OPTIONAL,
///      usec         [2] Microseconds OPTIONAL,
///      seq-number   [3] UInt32 OPTIONAL,
///      s-address    [4] HostAddress -- sender's addr --,
///      r-address    [5] HostAddress OPTIONAL -- recip's addr }
/// ```
#[derive(Debug, Drop, PartialEq, Eq)]
pub struct EncKrbPrivPartInner {
    /// user-data: the bytes of the application.
    pub user_data: ExplicitContextTag0<OctetStringAsn1>,
    /// The sender's time.
    pub timestamp: Optional<Option<ExplicitContextTag1<KerberosTime>>>,
    /// The microseconds of that time.
    pub usec: Optional<Option<ExplicitContextTag2<Microseconds>>>,
    /// The number of the message among the sender's.
    pub seq_number: Optional<Option<ExplicitContextTag3<IntegerAsn1>>>,
    /// The sender's address.
    pub s_address: ExplicitContextTag4<HostAddress>,
    /// The receiver's address.
    pub r_address: Optional<Option<ExplicitContextTag5<HostAddress>>>,
}

/// EncKrbPrivPart, the encrypted part of KRB-PRIV (RFC 4120, section 5.7.1).
pub type EncKrbPrivPart = ApplicationTag<EncKrbPrivPartInner, KRB_PRIV_ENC_PART>;

type EncKrbPrivPartInnerRow = Row6<
    ExplicitContextTag0<OctetStringAsn1>,
    Optional<Option<ExplicitContextTag1<KerberosTime>>>,
    Optional<Option<ExplicitContextTag2<Microseconds>>>,
    Optional<Option<ExplicitContextTag3<IntegerAsn1>>>,
    ExplicitContextTag4<HostAddress>,
    Optional<Option<ExplicitContextTag5<HostAddress>>>,
>;

impl Clone for EncKrbPrivPartInner {
    ghost is_clone = { λ value copy. ⟦<EncKrbPrivPartInnerRow as RecordFields>⟧.are_copies (⟦<EncKrbPrivPartInner as Tagged>⟧.row_of value) (⟦<EncKrbPrivPartInner as Tagged>⟧.row_of copy) };

    fn clone(&self) -> Result<EncKrbPrivPartInner, AllocError> {
        let fields =
            fields_of![self; user_data, timestamp, usec, seq_number, s_address, r_address].copied()?;
        Ok(EncKrbPrivPartInner::of_row(fields))
    }
}

impl Tagged for EncKrbPrivPartInner {
    ghost use Rattle.std.proofs.Common.{ap, refl, true};
    ghost use Rattle.asn1_der.specs.Tagged.{sequence};
    ghost use Rattle.asn1_der.proofs.Tagged.{sequence_laws};

    type Row = EncKrbPrivPartInnerRow;

    const FIRST: u8 = SEQUENCE;

    ghost FIRST = { sequence_octet };

    ghost row_tree = { sequence ⟦<EncKrbPrivPartInnerRow as Fields>⟧.trees };

    ghost row_laws = { sequence_laws ⟦<EncKrbPrivPartInnerRow as Fields>⟧.trees (⟦<EncKrbPrivPartInnerRow as Fields>⟧.injective (refl {a = true})) };

    ghost row_of = { λ v. (v.user_data, (v.timestamp, (v.usec, (v.seq_number, (v.s_address, (v.r_address, tt)))))) };

    ghost one_row = { λ v w e. ap (λ f. record { user_data = f.0; timestamp = f.1.0; usec = f.1.1.0; seq_number = f.1.1.1.0; s_address = f.1.1.1.1.0; r_address = f.1.1.1.1.1.0 }) e };

    fn read_row<R: Source>(tag: u8, from: &mut Deserializer<R>) -> Result<Self::Row, Asn1DerError> {
        read_sequence(tag, from)
    }

    fn of_row(row: Self::Row) -> Self {
        from_fields![row; user_data, timestamp, usec, seq_number, s_address, r_address]
    }

    fn write_row<W: Sink>(&self, tag: u8, to: &mut Serializer<W>) -> Result<usize, Asn1DerError> {
        to.list(
            tag,
            &fields_of![self; user_data, timestamp, usec, seq_number, s_address, r_address],
        )
    }
}
