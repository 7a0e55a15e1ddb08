//! Encrypted data.
ghost use Rattle.asn1_der.specs.Octets.{sequence_octet};

use asn1_der::octets::SEQUENCE;
use byte_streams::{Sink, Source};
use picky_asn1::wrapper::{IntegerAsn1, OctetStringAsn1};
use picky_asn1_der::{
    Asn1DerError, Deserializer, ExplicitContextTag0, ExplicitContextTag1, ExplicitContextTag2,
    Fields, Optional, Row3, Serializer, Tagged, fields_of, from_fields, read_sequence,
};

/// Encrypted data (RFC 4120, section 5.2.9).
///
/// ```text
/// EncryptedData ::= SEQUENCE {
///      etype    [0] Int32 -- EncryptionType --,
///      kvno     [1] UInt32 OPTIONAL,
///      cipher   [2] OCTET STRING -- ciphertext -- }
/// ```
#[derive(Debug, PartialEq, Eq, Clone)]
pub struct EncryptedData {
    /// The encryption type.
    pub etype: ExplicitContextTag0<IntegerAsn1>,
    /// The number of the key, where that is a principal's long-term one.
    pub kvno: Optional<Option<ExplicitContextTag1<IntegerAsn1>>>,
    /// The ciphertext.
    pub cipher: ExplicitContextTag2<OctetStringAsn1>,
}

impl Drop for EncryptedData {
    fn drop(self) {
        let EncryptedData {
            etype: _,
            kvno: _,
            cipher: _,
        } = self;
    }
}

type EncryptedDataRow = Row3<
    ExplicitContextTag0<IntegerAsn1>,
    Optional<Option<ExplicitContextTag1<IntegerAsn1>>>,
    ExplicitContextTag2<OctetStringAsn1>,
>;

impl Tagged for EncryptedData {
    ghost use Rattle.std.proofs.Common.{ap, refl, true};
    ghost use Rattle.asn1_der.specs.Tagged.{sequence};
    ghost use Rattle.asn1_der.proofs.Tagged.{sequence_laws};

    type Row = EncryptedDataRow;

    const FIRST: u8 = SEQUENCE;

    ghost FIRST = { sequence_octet };

    ghost row_tree = { sequence ⟦<EncryptedDataRow as Fields>⟧.trees };

    ghost row_laws = { sequence_laws ⟦<EncryptedDataRow as Fields>⟧.trees (⟦<EncryptedDataRow as Fields>⟧.injective (refl {a = true})) };

    ghost row_of = { λ v. (v.etype, (v.kvno, (v.cipher, tt))) };

    ghost one_row = { λ v w e. ap (λ f. record { etype = f.0; kvno = f.1.0; cipher = f.1.1.0 }) e };

    fn read_row<R: Source>(tag: u8, from: &mut Deserializer<R>) -> Result<Self::Row, Asn1DerError> {
        read_sequence(tag, from)
    }

    fn of_row(row: Self::Row) -> Self {
        from_fields![row; etype, kvno, cipher]
    }

    fn write_row<W: Sink>(&self, tag: u8, to: &mut Serializer<W>) -> Result<usize, Asn1DerError> {
        to.list(tag, &fields_of![self; etype, kvno, cipher])
    }
}
