//! KRB-PRIV.
ghost use Rattle.asn1_der.specs.Octets.{sequence_octet};

use asn1_der::octets::SEQUENCE;
use byte_streams::{Sink, Source};
use krb_constants::types::KRB_PRIV;
use krb_messages::data_types::EncryptedData;
use picky_asn1::wrapper::IntegerAsn1;
use picky_asn1_der::{
    ApplicationTag, Asn1DerError, Deserializer, ExplicitContextTag0, ExplicitContextTag1,
    ExplicitContextTag3, Fields, Row3, Serializer, Tagged, fields_of, from_fields, read_sequence,
};

/// The fields of KRB-PRIV (RFC 4120, section 5.7.1).
///
/// ```text
/// KRB-PRIV ::= [APPLICATION 21] SEQUENCE {
///      pvno       [0] INTEGER (5),
///      msg-type   [1] INTEGER (21),
///      -- NOTE: there is no [2] tag
///      enc-part   [3] EncryptedData -- EncKrbPrivPart }
/// ```
#[derive(Debug, Drop, PartialEq, Eq, Clone)]
pub struct KrbPrivInner {
    /// The version, 5.
    pub pvno: ExplicitContextTag0<IntegerAsn1>,
    /// The message type, 21.
    pub msg_type: ExplicitContextTag1<IntegerAsn1>,
    /// The part under a key that both sides know.
    pub enc_part: ExplicitContextTag3<EncryptedData>,
}

/// KRB-PRIV, a private message (RFC 4120, section 5.7.1).
pub type KrbPriv = ApplicationTag<KrbPrivInner, KRB_PRIV>;

type KrbPrivInnerRow = Row3<
    ExplicitContextTag0<IntegerAsn1>,
    ExplicitContextTag1<IntegerAsn1>,
    ExplicitContextTag3<EncryptedData>,
>;

impl Tagged for KrbPrivInner {
    ghost use Rattle.std.proofs.Common.{ap, refl, true};
    ghost use Rattle.asn1_der.specs.Tagged.{sequence};
    ghost use Rattle.asn1_der.proofs.Tagged.{sequence_laws};

    type Row = KrbPrivInnerRow;

    const FIRST: u8 = SEQUENCE;

    ghost FIRST = { sequence_octet };

    ghost row_tree = { sequence ⟦<KrbPrivInnerRow as Fields>⟧.trees };

    ghost row_laws = { sequence_laws ⟦<KrbPrivInnerRow as Fields>⟧.trees (⟦<KrbPrivInnerRow as Fields>⟧.injective (refl {a = true})) };

    ghost row_of = { λ v. (v.pvno, (v.msg_type, (v.enc_part, tt))) };

    ghost one_row = { λ v w e. ap (λ f. record { pvno = f.0; msg_type = f.1.0; enc_part = f.1.1.0 }) e };

    fn read_row<R: Source>(tag: u8, from: &mut Deserializer<R>) -> Result<Self::Row, Asn1DerError> {
        read_sequence(tag, from)
    }

    fn of_row(row: Self::Row) -> Self {
        from_fields![row; pvno, msg_type, enc_part]
    }

    fn write_row<W: Sink>(&self, tag: u8, to: &mut Serializer<W>) -> Result<usize, Asn1DerError> {
        to.list(tag, &fields_of![self; pvno, msg_type, enc_part])
    }
}
