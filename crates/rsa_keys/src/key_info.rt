//! SubjectPublicKeyInfo of public values.
ghost use Rattle.std.specs.Prelude.{◌≡◌, true, IfOk, MatchOption};
ghost use Rattle.asn1_der.specs.Octets.{sequence_octet};
ghost use Rattle.picky_asn1_der.specs.Raw.{has_low_number};
ghost use Rattle.rsa_keys.specs.Values.{info_bytes};

use asn1_der::octets::SEQUENCE;
use byte_streams::{Sink, Source};
use picky_asn1::wrapper::{BitStringAsn1Container, IntegerAsn1};
use picky_asn1_der::{
    Asn1DerError, Asn1RawDer, Deserializer, Fields, Row2, Serializer, Tagged, encoding_of,
    fields_of, from_fields, read_sequence, read_whole,
};
use std::alloc::{AllocError, Global};

/// A SubjectPublicKeyInfo whose key is an INTEGER. Its algorithm is any element.
///
/// ```text
/// SubjectPublicKeyInfo ::= SEQUENCE {
///      algorithm          AlgorithmIdentifier,
///      subjectPublicKey   BIT STRING }
///
/// DHPublicKey ::= INTEGER
/// ```
#[derive(Drop)]
pub struct DhPublicKeyInfo {
    /// The algorithm with its parameters.
    pub algorithm: Asn1RawDer,
    /// The key.
    pub subject_public_key: BitStringAsn1Container<IntegerAsn1>,
}

type DhPublicKeyInfoRow = Row2<Asn1RawDer, BitStringAsn1Container<IntegerAsn1>>;

impl Tagged for DhPublicKeyInfo {
    ghost use Rattle.std.proofs.Common.{ap, refl, true};
    ghost use Rattle.asn1_der.specs.Tagged.{sequence};
    ghost use Rattle.asn1_der.proofs.Tagged.{sequence_laws};

    type Row = DhPublicKeyInfoRow;

    const FIRST: u8 = SEQUENCE;

    ghost FIRST = { sequence_octet };

    ghost row_tree = { sequence ⟦<DhPublicKeyInfoRow as Fields>⟧.trees };

    ghost row_laws = { sequence_laws ⟦<DhPublicKeyInfoRow as Fields>⟧.trees (⟦<DhPublicKeyInfoRow as Fields>⟧.injective (refl {a = true})) };

    ghost row_of = { λ v. (v.algorithm, (v.subject_public_key, tt)) };

    ghost one_row = { λ v w e. ap (λ f. record { algorithm = f.0; subject_public_key = f.1.0 }) e };

    fn read_row<R: Source>(tag: u8, from: &mut Deserializer<R>) -> Result<Self::Row, Asn1DerError> {
        read_sequence(tag, from)
    }

    fn of_row(row: Self::Row) -> Self {
        from_fields![row; algorithm, subject_public_key]
    }

    fn write_row<W: Sink>(&self, tag: u8, to: &mut Serializer<W>) -> Result<usize, Asn1DerError> {
        to.list(tag, &fields_of![self; algorithm, subject_public_key])
    }
}

/// The SubjectPublicKeyInfo that the bytes are, or `None`.
pub(crate) fn key_info_in(
    alloc: Global,
    bytes: &[u8],
) -> Result<Option<DhPublicKeyInfo>, AllocError>
    ensures { IfOk result (λ read. MatchOption read
        ((info : DhPublicKeyInfo) → has_low_number info.algorithm.first ≡ true → bytes.now ≡ info_bytes info → ⊥)
        (λ info. bytes.now ≡ info_bytes info)) }
{
    read_whole(alloc, bytes)
}

/// The DER of a SubjectPublicKeyInfo.
pub(crate) fn key_info_bytes(alloc: Global, info: DhPublicKeyInfo) -> Result<Vec<u8>, AllocError>
    requires { has_low_number info.algorithm.first ≡ true }
    ensures { IfOk result (λ bytes. bytes.items ≡ info_bytes info) }
{
    encoding_of(alloc, info)
}
