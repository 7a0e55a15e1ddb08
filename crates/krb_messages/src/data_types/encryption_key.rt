//! Keys.
ghost use Rattle.asn1_der.specs.Octets.{sequence_octet};

use asn1_der::octets::SEQUENCE;
use byte_streams::{Sink, Source};
use picky_asn1::wrapper::{IntegerAsn1, OctetStringAsn1};
use picky_asn1_der::{
    Asn1DerError, Deserializer, ExplicitContextTag0, ExplicitContextTag1, Fields, Row2, Serializer,
    Tagged, fields_of, from_fields, read_sequence,
};

/// A key (RFC 4120, section 5.2.9). `Debug` prints it.
///
/// ```text
/// EncryptionKey ::= SEQUENCE {
///      keytype    [0] Int32,
///      keyvalue   [1] OCTET STRING }
/// ```
#[derive(Debug, PartialEq, Eq, Clone)]
pub struct EncryptionKey {
    /// The encryption type that the key is for (RFC 3961, section 8).
    pub key_type: ExplicitContextTag0<IntegerAsn1>,
    /// The bytes of the key.
    pub key_value: ExplicitContextTag1<OctetStringAsn1>,
}

impl Drop for EncryptionKey {
    fn drop(self) {
        let EncryptionKey {
            key_type: _,
            key_value: _,
        } = self;
    }
}

type EncryptionKeyRow = Row2<
    ExplicitContextTag0<IntegerAsn1>,
    ExplicitContextTag1<OctetStringAsn1>,
>;

impl Tagged for EncryptionKey {
    ghost use Rattle.std.proofs.Common.{ap, refl, true};
    ghost use Rattle.asn1_der.specs.Tagged.{sequence};
    ghost use Rattle.asn1_der.proofs.Tagged.{sequence_laws};

    type Row = EncryptionKeyRow;

    const FIRST: u8 = SEQUENCE;

    ghost FIRST = { sequence_octet };

    ghost row_tree = { sequence ⟦<EncryptionKeyRow as Fields>⟧.trees };

    ghost row_laws = { sequence_laws ⟦<EncryptionKeyRow as Fields>⟧.trees (⟦<EncryptionKeyRow as Fields>⟧.injective (refl {a = true})) };

    ghost row_of = { λ v. (v.key_type, (v.key_value, tt)) };

    ghost one_row = { λ v w e. ap (λ f. record { key_type = f.0; key_value = f.1.0 }) e };

    fn read_row<R: Source>(tag: u8, from: &mut Deserializer<R>) -> Result<Self::Row, Asn1DerError> {
        read_sequence(tag, from)
    }

    fn of_row(row: Self::Row) -> Self {
        from_fields![row; key_type, key_value]
    }

    fn write_row<W: Sink>(&self, tag: u8, to: &mut Serializer<W>) -> Result<usize, Asn1DerError> {
        to.list(tag, &fields_of![self; key_type, key_value])
    }
}
