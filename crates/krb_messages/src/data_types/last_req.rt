//! Last requests.
ghost use Rattle.asn1_der.specs.Octets.{sequence_octet};

use crate::data_types::KerberosTime;
use asn1_der::octets::SEQUENCE;
use byte_streams::{Sink, Source};
use picky_asn1::wrapper::{Asn1SequenceOf, IntegerAsn1};
use picky_asn1_der::{
    Asn1DerError, Deserializer, ExplicitContextTag0, ExplicitContextTag1, Fields, Row2, Serializer,
    Tagged, fields_of, from_fields, read_sequence,
};

/// A time of a last request (RFC 4120, section 5.4.2).
#[derive(Debug, PartialEq, Eq, Clone)]
pub struct LastReqInner {
    /// Which request the time is of; 0 means that the time says nothing.
    pub lr_type: ExplicitContextTag0<IntegerAsn1>,
    /// The time.
    pub lr_value: ExplicitContextTag1<KerberosTime>,
}

impl Drop for LastReqInner {
    fn drop(self) {
        let LastReqInner {
            lr_type: _,
            lr_value: _,
        } = self;
    }
}

/// The times of a client's last requests (RFC 4120, section 5.4.2).
///
/// ```text
/// LastReq ::= SEQUENCE OF SEQUENCE {
///      lr-type    [0] Int32,
///      lr-value   [1] KerberosTime }
/// ```
pub type LastReq = Asn1SequenceOf<LastReqInner>;

type LastReqInnerRow = Row2<ExplicitContextTag0<IntegerAsn1>, ExplicitContextTag1<KerberosTime>>;

impl Tagged for LastReqInner {
    ghost use Rattle.std.proofs.Common.{ap, refl, true};
    ghost use Rattle.asn1_der.specs.Tagged.{sequence};
    ghost use Rattle.asn1_der.proofs.Tagged.{sequence_laws};

    type Row = LastReqInnerRow;

    const FIRST: u8 = SEQUENCE;

    ghost FIRST = { sequence_octet };

    ghost row_tree = { sequence ⟦<LastReqInnerRow as Fields>⟧.trees };

    ghost row_laws = { sequence_laws ⟦<LastReqInnerRow as Fields>⟧.trees (⟦<LastReqInnerRow as Fields>⟧.injective (refl {a = true})) };

    ghost row_of = { λ v. (v.lr_type, (v.lr_value, tt)) };

    ghost one_row = { λ v w e. ap (λ f. record { lr_type = f.0; lr_value = f.1.0 }) e };

    fn read_row<R: Source>(tag: u8, from: &mut Deserializer<R>) -> Result<Self::Row, Asn1DerError> {
        read_sequence(tag, from)
    }

    fn of_row(row: Self::Row) -> Self {
        from_fields![row; lr_type, lr_value]
    }

    fn write_row<W: Sink>(&self, tag: u8, to: &mut Serializer<W>) -> Result<usize, Asn1DerError> {
        to.list(tag, &fields_of![self; lr_type, lr_value])
    }
}
