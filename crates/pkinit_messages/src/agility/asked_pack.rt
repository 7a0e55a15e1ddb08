//! The AuthPack of a client with algorithm agility.
ghost use Rattle.asn1_der.specs.Octets.{sequence_octet};

use crate::agility::dh_rep_info::ChosenKdf;
use crate::pk_authenticator::PkAuthenticator;
use asn1_der::octets::SEQUENCE;
use byte_streams::{Sink, Source};
use picky_asn1::wrapper::Asn1SequenceOf;
use picky_asn1_der::{
    Asn1DerError, Asn1RawDer, Deserializer, ExplicitContextTag0, ExplicitContextTag1,
    ExplicitContextTag2, ExplicitContextTag4, Fields, RawElement, Row4, Serializer, Tagged,
    fields_of, from_fields, read_sequence,
};

/// What a client with algorithm agility signs: an AuthPack with these four fields (RFC 4556, section 3.2.1; RFC 8636, section 6). Its CMS
/// types are any elements.
///
/// ```text
/// AuthPack ::= SEQUENCE {
///      pkAuthenticator    [0] PKAuthenticator,
///      clientPublicValue  [1] SubjectPublicKeyInfo,
///      supportedCMSTypes  [2] SEQUENCE OF
///                             AlgorithmIdentifier,
///      supportedKDFs      [4] SEQUENCE OF KDFAlgorithmId }
/// ```
#[derive(Drop)]
pub struct AgileAuthPack {
    /// What binds the signature to the request.
    pub pk_authenticator: ExplicitContextTag0<PkAuthenticator>,
    /// The client's share of an agreement.
    pub client_public_value: ExplicitContextTag1<Asn1RawDer>,
    /// Algorithms of replies that the client takes, the best first.
    pub supported_cms_types: ExplicitContextTag2<Asn1SequenceOf<RawElement>>,
    /// Key derivation functions, the best first.
    pub supported_kdfs: ExplicitContextTag4<Asn1SequenceOf<ChosenKdf>>,
}

type AgileAuthPackRow = Row4<
    ExplicitContextTag0<PkAuthenticator>,
    ExplicitContextTag1<Asn1RawDer>,
    ExplicitContextTag2<Asn1SequenceOf<RawElement>>,
    ExplicitContextTag4<Asn1SequenceOf<ChosenKdf>>,
>;

impl Tagged for AgileAuthPack {
    ghost use Rattle.std.proofs.Common.{ap, refl, true};
    ghost use Rattle.asn1_der.specs.Tagged.{sequence};
    ghost use Rattle.asn1_der.proofs.Tagged.{sequence_laws};

    type Row = AgileAuthPackRow;

    const FIRST: u8 = SEQUENCE;

    ghost FIRST = { sequence_octet };

    ghost row_tree = { sequence ⟦<AgileAuthPackRow as Fields>⟧.trees };

    ghost row_laws = { sequence_laws ⟦<AgileAuthPackRow as Fields>⟧.trees (⟦<AgileAuthPackRow as Fields>⟧.injective (refl {a = true})) };

    ghost row_of = { λ v. (v.pk_authenticator, (v.client_public_value, (v.supported_cms_types, (v.supported_kdfs, tt)))) };

    ghost one_row = { λ v w e. ap (λ f. record { pk_authenticator = f.0; client_public_value = f.1.0; supported_cms_types = f.1.1.0; supported_kdfs = f.1.1.1.0 }) e };

    fn read_row<R: Source>(tag: u8, from: &mut Deserializer<R>) -> Result<Self::Row, Asn1DerError> {
        read_sequence(tag, from)
    }

    fn of_row(row: Self::Row) -> Self {
        from_fields![row; pk_authenticator, client_public_value, supported_cms_types, supported_kdfs]
    }

    fn write_row<W: Sink>(&self, tag: u8, to: &mut Serializer<W>) -> Result<usize, Asn1DerError> {
        to.list(
            tag,
            &fields_of![self; pk_authenticator, client_public_value, supported_cms_types, supported_kdfs],
        )
    }
}
