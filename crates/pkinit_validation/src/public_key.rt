//! Public keys of agreements.
ghost use Rattle.asn1_der.specs.Octets.{sequence_octet};

use asn1_der::octets::SEQUENCE;
use byte_streams::{Sink, Source};
use picky_asn1::wrapper::BitStringAsn1;
use picky_asn1_der::{
    Asn1DerError, Asn1RawDer, Deserializer, Fields, Row2, Serializer, Tagged, fields_of,
    from_fields, read_sequence,
};

/// A public key of an agreement of any kind: its algorithm isn't read further.
///
/// ```text
/// SubjectPublicKeyInfo ::= SEQUENCE {
///      algorithm          AlgorithmIdentifier,
///      subjectPublicKey   BIT STRING }
/// ```
#[derive(Drop)]
pub struct AgreementPublicKey {
    /// The algorithm with its group, any element.
    pub algorithm: Asn1RawDer,
    /// The public value.
    pub subject_public_key: BitStringAsn1,
}

type AgreementPublicKeyRow = Row2<Asn1RawDer, BitStringAsn1>;

impl Tagged for AgreementPublicKey {
    ghost use Rattle.std.proofs.Common.{ap, refl, true};
    ghost use Rattle.asn1_der.specs.Tagged.{sequence};
    ghost use Rattle.asn1_der.proofs.Tagged.{sequence_laws};

    type Row = AgreementPublicKeyRow;

    const FIRST: u8 = SEQUENCE;

    ghost FIRST = { sequence_octet };

    ghost row_tree = { sequence ⟦<AgreementPublicKeyRow as Fields>⟧.trees };

    ghost row_laws = { sequence_laws ⟦<AgreementPublicKeyRow as Fields>⟧.trees (⟦<AgreementPublicKeyRow as Fields>⟧.injective (refl {a = true})) };

    ghost row_of = { λ v. (v.algorithm, (v.subject_public_key, tt)) };

    ghost one_row = { λ v w e. ap (λ f. record { algorithm = f.0; subject_public_key = f.1.0 }) e };

    fn read_row<R: Source>(tag: u8, from: &mut Deserializer<R>) -> Result<Self::Row, Asn1DerError> {
        read_sequence(tag, from)
    }

    fn of_row(row: Self::Row) -> Self {
        from_fields![row; algorithm, subject_public_key]
    }

    fn write_row<W: Sink>(&self, tag: u8, to: &mut Serializer<W>) -> Result<usize, Asn1DerError> {
        to.list(tag, &fields_of![self; algorithm, subject_public_key])
    }
}
