//! A client's public value.
ghost use Rattle.asn1_der.specs.Octets.{sequence_octet};

use crate::dh_req_key_info::DhReqKeyInfo;
use asn1_der::octets::SEQUENCE;
use byte_streams::{Sink, Source};
use picky_asn1::wrapper::BitStringAsn1;
use picky_asn1_der::{
    Asn1DerError, Deserializer, Fields, Row2, Serializer, Tagged, fields_of, from_fields,
    read_sequence,
};

/// A client's public value of Diffie and Hellman (RFC 4556, section 3.2.1), as the DER of an INTEGER in a bit string.
///
/// ```text
/// SubjectPublicKeyInfo ::= SEQUENCE {
///      algorithm         AlgorithmIdentifier,
///      subjectPublicKey  BIT STRING }
/// ```
#[derive(Debug, Drop, PartialEq, Eq, Clone)]
pub struct DhReqInfo {
    /// The algorithm and its group.
    pub key_info: DhReqKeyInfo,
    /// The value.
    pub key_value: BitStringAsn1,
}

type DhReqInfoRow = Row2<DhReqKeyInfo, BitStringAsn1>;

impl Tagged for DhReqInfo {
    ghost use Rattle.std.proofs.Common.{ap, refl, true};
    ghost use Rattle.asn1_der.specs.Tagged.{sequence};
    ghost use Rattle.asn1_der.proofs.Tagged.{sequence_laws};

    type Row = DhReqInfoRow;

    const FIRST: u8 = SEQUENCE;

    ghost FIRST = { sequence_octet };

    ghost row_tree = { sequence ⟦<DhReqInfoRow as Fields>⟧.trees };

    ghost row_laws = { sequence_laws ⟦<DhReqInfoRow as Fields>⟧.trees (⟦<DhReqInfoRow as Fields>⟧.injective (refl {a = true})) };

    ghost row_of = { λ v. (v.key_info, (v.key_value, tt)) };

    ghost one_row = { λ v w e. ap (λ f. record { key_info = f.0; key_value = f.1.0 }) e };

    fn read_row<R: Source>(tag: u8, from: &mut Deserializer<R>) -> Result<Self::Row, Asn1DerError> {
        read_sequence(tag, from)
    }

    fn of_row(row: Self::Row) -> Self {
        from_fields![row; key_info, key_value]
    }

    fn write_row<W: Sink>(&self, tag: u8, to: &mut Serializer<W>) -> Result<usize, Asn1DerError> {
        to.list(tag, &fields_of![self; key_info, key_value])
    }
}
