//! Preauthentication by a sealed time.
ghost use Rattle.asn1_der.specs.Octets.{sequence_octet};

use crate::data_types::{EncryptedData, KerberosTime, Microseconds};
use asn1_der::octets::SEQUENCE;
use byte_streams::{Sink, Source};
use picky_asn1_der::{
    Asn1DerError, Deserializer, ExplicitContextTag0, ExplicitContextTag1, Fields, Optional, Row2,
    Serializer, Tagged, fields_of, from_fields, read_sequence,
};

/// The time that a client seals under its own key (RFC 4120, section 5.2.7.2).
///
/// ```text
/// PA-ENC-TS-ENC ::= SEQUENCE {
///      patimestamp   [0] KerberosTime,
///      pausec        [1] Microseconds OPTIONAL }
/// ```
#[derive(Debug, PartialEq, Eq, Clone)]
pub struct PaEncTsEnc {
    /// The client's time.
    pub patimestamp: ExplicitContextTag0<KerberosTime>,
    /// The microseconds of the client's time.
    pub pausec: Optional<Option<ExplicitContextTag1<Microseconds>>>,
}

impl Drop for PaEncTsEnc {
    fn drop(self) {
        let PaEncTsEnc {
            patimestamp: _,
            pausec: _,
        } = self;
    }
}

/// A sealed [`PaEncTsEnc`] (RFC 4120, section 5.2.7.2).
///
/// ```text
/// PA-ENC-TIMESTAMP ::= EncryptedData
/// ```
pub type PaEncTimestamp = EncryptedData;

type PaEncTsEncRow = Row2<
    ExplicitContextTag0<KerberosTime>,
    Optional<Option<ExplicitContextTag1<Microseconds>>>,
>;

impl Tagged for PaEncTsEnc {
    ghost use Rattle.std.proofs.Common.{ap, refl, true};
    ghost use Rattle.asn1_der.specs.Tagged.{sequence};
    ghost use Rattle.asn1_der.proofs.Tagged.{sequence_laws};

    type Row = PaEncTsEncRow;

    const FIRST: u8 = SEQUENCE;

    ghost FIRST = { sequence_octet };

    ghost row_tree = { sequence ⟦<PaEncTsEncRow as Fields>⟧.trees };

    ghost row_laws = { sequence_laws ⟦<PaEncTsEncRow as Fields>⟧.trees (⟦<PaEncTsEncRow as Fields>⟧.injective (refl {a = true})) };

    ghost row_of = { λ v. (v.patimestamp, (v.pausec, tt)) };

    ghost one_row = { λ v w e. ap (λ f. record { patimestamp = f.0; pausec = f.1.0 }) e };

    fn read_row<R: Source>(tag: u8, from: &mut Deserializer<R>) -> Result<Self::Row, Asn1DerError> {
        read_sequence(tag, from)
    }

    fn of_row(row: Self::Row) -> Self {
        from_fields![row; patimestamp, pausec]
    }

    fn write_row<W: Sink>(&self, tag: u8, to: &mut Serializer<W>) -> Result<usize, Asn1DerError> {
        to.list(tag, &fields_of![self; patimestamp, pausec])
    }
}
