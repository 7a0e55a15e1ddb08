//! The checksum that ends an exchange of PKU2U.
ghost use Rattle.asn1_der.specs.Octets.{sequence_octet};

use asn1_der::octets::SEQUENCE;
use byte_streams::{Sink, Source};
use krb_messages::data_types::Checksum;
use picky_asn1_der::{
    Asn1DerError, Deserializer, ExplicitContextTag1, Fields, Row1, Serializer, Tagged, fields_of,
    from_fields, read_sequence,
};

/// A checksum over the messages of an exchange of PKU2U (draft-zhu-pku2u-04, section 6).
///
/// ```text
/// KRB-FINISHED ::= SEQUENCE {
///      gss-mic   [1] Checksum,
///      ... }
/// ```
#[derive(Debug, Drop, PartialEq, Eq, Clone)]
pub struct KrbFinished {
    /// The checksum.
    pub gss_mic: ExplicitContextTag1<Checksum>,
}

type KrbFinishedRow = Row1<ExplicitContextTag1<Checksum>>;

impl Tagged for KrbFinished {
    ghost use Rattle.std.proofs.Common.{ap, refl, true};
    ghost use Rattle.asn1_der.specs.Tagged.{sequence};
    ghost use Rattle.asn1_der.proofs.Tagged.{sequence_laws};

    type Row = KrbFinishedRow;

    const FIRST: u8 = SEQUENCE;

    ghost FIRST = { sequence_octet };

    ghost row_tree = { sequence ⟦<KrbFinishedRow as Fields>⟧.trees };

    ghost row_laws = { sequence_laws ⟦<KrbFinishedRow as Fields>⟧.trees (⟦<KrbFinishedRow as Fields>⟧.injective (refl {a = true})) };

    ghost row_of = { λ v. (v.gss_mic, tt) };

    ghost one_row = { λ v w e. ap (λ f. record { gss_mic = f.0 }) e };

    fn read_row<R: Source>(tag: u8, from: &mut Deserializer<R>) -> Result<Self::Row, Asn1DerError> {
        read_sequence(tag, from)
    }

    fn of_row(row: Self::Row) -> Self {
        from_fields![row; gss_mic]
    }

    fn write_row<W: Sink>(&self, tag: u8, to: &mut Serializer<W>) -> Result<usize, Asn1DerError> {
        to.list(tag, &fields_of![self; gss_mic])
    }
}
