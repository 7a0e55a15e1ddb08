//! What a KDC answers for an agreement, with the key derivation function that it chose.
ghost use Rattle.asn1_der.specs.Octets.{sequence_octet};

use asn1_der::octets::SEQUENCE;
use byte_streams::{Sink, Source};
use picky_asn1::wrapper::{ObjectIdentifierAsn1, OctetStringAsn1};
use picky_asn1_der::{
    Asn1DerError, Deserializer, ExplicitContextTag0, ExplicitContextTag1, ExplicitContextTag2,
    Fields, ImplicitContextTag0, Optional, Row1, Row3, Serializer, Tagged, fields_of, from_fields,
    read_sequence,
};

/// The key derivation function that a KDC chose (RFC 8636, section 6).
///
/// ```text
/// KDFAlgorithmId ::= SEQUENCE {
///      kdf-id  [0] OBJECT IDENTIFIER,
///      ... }
/// ```
#[derive(Drop)]
pub struct ChosenKdf {
    /// The function's identifier.
    pub kdf_id: ExplicitContextTag0<ObjectIdentifierAsn1>,
}

/// What a KDC answers for an agreement (RFC 4556, section 3.2.3; RFC 8636, section 6).
///
/// ```text
/// DHRepInfo ::= SEQUENCE {
///      dhSignedData    [0] IMPLICIT OCTET STRING,
///      serverDHNonce   [1] DHNonce OPTIONAL,
///      ...,
///      kdf             [2] KDFAlgorithmId OPTIONAL,
///      ... }
/// ```
#[derive(Drop)]
pub struct AgileDhRepInfo {
    /// The DER of a ContentInfo (RFC 5652, section 3) over a KDCDHKeyInfo.
    pub dh_signed_data: ImplicitContextTag0<OctetStringAsn1>,
    /// The KDC's nonce, where it uses its public value again.
    pub server_dh_nonce: Optional<Option<ExplicitContextTag1<OctetStringAsn1>>>,
    /// The key derivation function.
    pub kdf: Optional<Option<ExplicitContextTag2<ChosenKdf>>>,
}

type ChosenKdfRow = Row1<ExplicitContextTag0<ObjectIdentifierAsn1>>;

impl Tagged for ChosenKdf {
    ghost use Rattle.std.proofs.Common.{ap, refl, true};
    ghost use Rattle.asn1_der.specs.Tagged.{sequence};
    ghost use Rattle.asn1_der.proofs.Tagged.{sequence_laws};

    type Row = ChosenKdfRow;

    const FIRST: u8 = SEQUENCE;

    ghost FIRST = { sequence_octet };

    ghost row_tree = { sequence ⟦<ChosenKdfRow as Fields>⟧.trees };

    ghost row_laws = { sequence_laws ⟦<ChosenKdfRow as Fields>⟧.trees (⟦<ChosenKdfRow as Fields>⟧.injective (refl {a = true})) };

    ghost row_of = { λ v. (v.kdf_id, tt) };

    ghost one_row = { λ v w e. ap (λ f. record { kdf_id = f.0 }) e };

    fn read_row<R: Source>(tag: u8, from: &mut Deserializer<R>) -> Result<Self::Row, Asn1DerError> {
        read_sequence(tag, from)
    }

    fn of_row(row: Self::Row) -> Self {
        from_fields![row; kdf_id]
    }

    fn write_row<W: Sink>(&self, tag: u8, to: &mut Serializer<W>) -> Result<usize, Asn1DerError> {
        to.list(tag, &fields_of![self; kdf_id])
    }
}

type AgileDhRepInfoRow = Row3<
    ImplicitContextTag0<OctetStringAsn1>,
    Optional<Option<ExplicitContextTag1<OctetStringAsn1>>>,
    Optional<Option<ExplicitContextTag2<ChosenKdf>>>,
>;

impl Tagged for AgileDhRepInfo {
    ghost use Rattle.std.proofs.Common.{ap, refl, true};
    ghost use Rattle.asn1_der.specs.Tagged.{sequence};
    ghost use Rattle.asn1_der.proofs.Tagged.{sequence_laws};

    type Row = AgileDhRepInfoRow;

    const FIRST: u8 = SEQUENCE;

    ghost FIRST = { sequence_octet };

    ghost row_tree = { sequence ⟦<AgileDhRepInfoRow as Fields>⟧.trees };

    ghost row_laws = { sequence_laws ⟦<AgileDhRepInfoRow as Fields>⟧.trees (⟦<AgileDhRepInfoRow as Fields>⟧.injective (refl {a = true})) };

    ghost row_of = { λ v. (v.dh_signed_data, (v.server_dh_nonce, (v.kdf, tt))) };

    ghost one_row = { λ v w e. ap (λ f. record { dh_signed_data = f.0; server_dh_nonce = f.1.0; kdf = f.1.1.0 }) e };

    fn read_row<R: Source>(tag: u8, from: &mut Deserializer<R>) -> Result<Self::Row, Asn1DerError> {
        read_sequence(tag, from)
    }

    fn of_row(row: Self::Row) -> Self {
        from_fields![row; dh_signed_data, server_dh_nonce, kdf]
    }

    fn write_row<W: Sink>(&self, tag: u8, to: &mut Serializer<W>) -> Result<usize, Asn1DerError> {
        to.list(tag, &fields_of![self; dh_signed_data, server_dh_nonce, kdf])
    }
}
