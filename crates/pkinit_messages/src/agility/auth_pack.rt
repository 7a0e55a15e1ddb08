//! The AuthPack with fields that later documents add.
ghost use Rattle.asn1_der.specs.Octets.{sequence_octet};

use crate::agility::authenticator::ExtensiblePkAuthenticator;
use crate::agility::further::FurtherField;
use crate::agility::kdf_algorithm_id::KdfAlgorithmId;
use asn1_der::octets::SEQUENCE;
use byte_streams::{Sink, Source};
use picky_asn1::wrapper::{Asn1SequenceOf, OctetStringAsn1};
use picky_asn1_der::{
    Asn1DerError, Asn1RawDer, Deserializer, Elements, ExplicitContextTag0, ExplicitContextTag1,
    ExplicitContextTag2, ExplicitContextTag3, ExplicitContextTag4, Fields, Optional, Serializer,
    Tagged, fields_of, from_fields, read_sequence,
};

/// What a client signs to authenticate by certificate (RFC 4556, section 3.2.1; RFC 8636, section 6). Its public value and its CMS types
/// are any elements.
///
/// ```text
/// AuthPack ::= SEQUENCE {
///      pkAuthenticator    [0] PKAuthenticator,
///      clientPublicValue  [1] SubjectPublicKeyInfo
///                             OPTIONAL,
///      supportedCMSTypes  [2] SEQUENCE OF
///                             AlgorithmIdentifier OPTIONAL,
///      clientDHNonce      [3] DHNonce OPTIONAL,
///      ...,
///      supportedKDFs      [4] SEQUENCE OF KDFAlgorithmId
///                             OPTIONAL,
///      ... }
/// ```
#[derive(Drop)]
pub struct ExtensibleAuthPack {
    /// What binds the signature to the request.
    pub pk_authenticator: ExplicitContextTag0<ExtensiblePkAuthenticator>,
    /// The client's share of an agreement.
    pub client_public_value: Optional<Option<ExplicitContextTag1<Asn1RawDer>>>,
    /// Algorithms for a reply under the client's key, the best first.
    pub supported_cms_types: Optional<Option<ExplicitContextTag2<Asn1SequenceOf<Asn1RawDer>>>>,
    /// The client's nonce, where a public value may be used again.
    pub client_dh_nonce: Optional<Option<ExplicitContextTag3<OctetStringAsn1>>>,
    /// Key derivation functions, the best first.
    pub supported_kdfs: Optional<Option<ExplicitContextTag4<Asn1SequenceOf<KdfAlgorithmId>>>>,
    /// Further fields.
    pub further: Elements<FurtherField>,
}

type ExtensibleAuthPackRow = (
    ExplicitContextTag0<ExtensiblePkAuthenticator>,
    (
        Optional<Option<ExplicitContextTag1<Asn1RawDer>>>,
        (
            Optional<Option<ExplicitContextTag2<Asn1SequenceOf<Asn1RawDer>>>>,
            (
                Optional<Option<ExplicitContextTag3<OctetStringAsn1>>>,
                (
                    Optional<Option<ExplicitContextTag4<Asn1SequenceOf<KdfAlgorithmId>>>>,
                    Elements<FurtherField>,
                ),
            ),
        ),
    ),
);

impl Tagged for ExtensibleAuthPack {
    ghost use Rattle.std.proofs.Common.{ap, refl, true};
    ghost use Rattle.asn1_der.specs.Tagged.{sequence};
    ghost use Rattle.asn1_der.proofs.Tagged.{sequence_laws};

    type Row = ExtensibleAuthPackRow;

    const FIRST: u8 = SEQUENCE;

    ghost FIRST = { sequence_octet };

    ghost row_tree = { sequence ⟦<ExtensibleAuthPackRow as Fields>⟧.trees };

    ghost row_laws = { sequence_laws ⟦<ExtensibleAuthPackRow as Fields>⟧.trees (⟦<ExtensibleAuthPackRow as Fields>⟧.injective (refl {a = true})) };

    ghost row_of = { λ v. (v.pk_authenticator, (v.client_public_value, (v.supported_cms_types, (v.client_dh_nonce, (v.supported_kdfs, v.further))))) };

    ghost one_row = { λ v w e. ap (λ f. record { pk_authenticator = f.0; client_public_value = f.1.0; supported_cms_types = f.1.1.0; client_dh_nonce = f.1.1.1.0; supported_kdfs = f.1.1.1.1.0; further = f.1.1.1.1.1 }) e };

    fn read_row<R: Source>(tag: u8, from: &mut Deserializer<R>) -> Result<Self::Row, Asn1DerError> {
        read_sequence(tag, from)
    }

    fn of_row(row: Self::Row) -> Self {
        from_fields![row; pk_authenticator, client_public_value, supported_cms_types, client_dh_nonce, supported_kdfs; further]
    }

    fn write_row<W: Sink>(&self, tag: u8, to: &mut Serializer<W>) -> Result<usize, Asn1DerError> {
        to.list(
            tag,
            &fields_of![self; pk_authenticator, client_public_value, supported_cms_types, client_dh_nonce, supported_kdfs; further],
        )
    }
}
