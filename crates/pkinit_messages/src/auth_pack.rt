//! The AuthPack that a client signs.
ghost use Rattle.asn1_der.specs.Octets.{sequence_octet};

use crate::client_public_value::ClientPublicValue;
use crate::dh_nonce::DhNonce;
use crate::dh_req_info::DhReqInfo;
use crate::pk_authenticator::PkAuthenticator;
use asn1_der::octets::SEQUENCE;
use byte_streams::{Sink, Source};
use picky_asn1::wrapper::Asn1SequenceOf;
use picky_asn1_der::{
    Asn1DerError, Deserialize, Deserializer, ExplicitContextTag0, ExplicitContextTag1,
    ExplicitContextTag2, ExplicitContextTag3, Fields, LentFields, Optional, RecordFields, Row4,
    Serializer, Tagged, fields_of, from_fields, read_sequence,
};
use std::alloc::AllocError;
use x509_algorithms::AlgorithmIdentifier;
use x509_keys::SubjectPublicKeyInfo;

/// What a client signs to authenticate by certificate (RFC 4556, section 3.2.1). Its public value is a type of the agreement.
///
/// ```text
/// AuthPack ::= SEQUENCE {
///      pkAuthenticator    [0] PKAuthenticator,
///      clientPublicValue  [1] SubjectPublicKeyInfo
///                             OPTIONAL,
///      supportedCMSTypes  [2] SEQUENCE OF
///                             AlgorithmIdentifier OPTIONAL,
///      clientDHNonce      [3] DHNonce OPTIONAL,
///      ... }
/// ```
#[derive(Debug, Drop, PartialEq, Eq)]
pub struct AuthPack<V: ClientPublicValue> {
    /// What binds the signature to the request.
    pub pk_authenticator: ExplicitContextTag0<PkAuthenticator>,
    /// The client's share of an agreement.
    pub client_public_value: Optional<Option<ExplicitContextTag1<V>>>,
    /// Algorithms for a reply under the client's key, the best first.
    pub supported_cms_types: Optional<
        Option<ExplicitContextTag2<Asn1SequenceOf<AlgorithmIdentifier>>>,
    >,
    /// The client's nonce, where a public value may be used again.
    pub client_dh_nonce: Optional<Option<ExplicitContextTag3<DhNonce>>>,
}

/// An AuthPack whose clientPublicValue is a Diffie-Hellman key.
pub type DhAuthPack = AuthPack<DhReqInfo>;

/// An AuthPack whose clientPublicValue is a key on an elliptic curve.
pub type EcAuthPack = AuthPack<SubjectPublicKeyInfo>;

type AuthPackRow<V> = Row4<
    ExplicitContextTag0<PkAuthenticator>,
    Optional<Option<ExplicitContextTag1<V>>>,
    Optional<Option<ExplicitContextTag2<Asn1SequenceOf<AlgorithmIdentifier>>>>,
    Optional<Option<ExplicitContextTag3<DhNonce>>>,
>;

impl<V: ClientPublicValue + Clone> Clone for AuthPack<V> {
    ghost is_clone = { λ pack copy. ⟦<AuthPackRow<V> as RecordFields>⟧.are_copies
        (pack.pk_authenticator, (pack.client_public_value, (pack.supported_cms_types, (pack.client_dh_nonce, tt))))
        (copy.pk_authenticator, (copy.client_public_value, (copy.supported_cms_types, (copy.client_dh_nonce, tt)))) };

    fn clone(&self) -> Result<AuthPack<V>, AllocError> {
        let fields =
            fields_of![self; pk_authenticator, client_public_value, supported_cms_types, client_dh_nonce].copied()?;
        Ok(
            from_fields![fields; pk_authenticator, client_public_value, supported_cms_types, client_dh_nonce],
        )
    }
}

impl<V: Deserialize + ClientPublicValue + Drop> Tagged for AuthPack<V> {
    ghost use Rattle.std.proofs.Common.{refl, true, None, Some};
    ghost use Rattle.asn1_der.specs.Seen.{Alike, seen_part};
    ghost use Rattle.asn1_der.specs.Tagged.{sequence};
    ghost use Rattle.asn1_der.proofs.Alike.{alike-part};
    ghost use Rattle.asn1_der.proofs.Tagged.{sequence_laws_as};
    ghost use Rattle.asn1_der.specs.Refusals.{first_refusal, refusal_of_option, part_refusal};

    type Row = AuthPackRow<V>;

    const FIRST: u8 = SEQUENCE;

    ghost FIRST = { sequence_octet };

    ghost row_tree = { sequence ⟦<AuthPackRow<V> as Fields>⟧.trees };

    ghost row_seen = { ⟦<AuthPackRow<V> as Fields>⟧.seen };

    ghost seen = { seen_part (λ v. (v.pk_authenticator, (v.client_public_value, (v.supported_cms_types, (v.client_dh_nonce, tt))))) ⟦<AuthPackRow<V> as Fields>⟧.seen };

    ghost row_laws = { sequence_laws_as (Alike ⟦<AuthPackRow<V> as Fields>⟧.seen) ⟦<AuthPackRow<V> as Fields>⟧.trees (⟦<AuthPackRow<V> as Fields>⟧.injective (refl {a = true})) };

    ghost row_of = { λ v. (v.pk_authenticator, (v.client_public_value, (v.supported_cms_types, (v.client_dh_nonce, tt)))) };

    ghost one_row = { λ v w e. alike-part ⟦<AuthPackRow<V> as Fields>⟧.seen v w (λ v. (v.pk_authenticator, (v.client_public_value, (v.supported_cms_types, (v.client_dh_nonce, tt))))) (λ f. record { pk_authenticator = f.0; client_public_value = f.1.0; supported_cms_types = f.1.1.0; client_dh_nonce = f.1.1.1.0 }) (λ v. refl) e };

    ghost refuses = { Some (λ v. first_refusal (refusal_of_option (part_refusal (λ field. field.0) V.refusal) v.client_public_value.0) None) };

    fn read_row<R: Source>(tag: u8, from: &mut Deserializer<R>) -> Result<Self::Row, Asn1DerError> {
        read_sequence(tag, from)
    }

    fn of_row(row: Self::Row) -> Self {
        from_fields![row; pk_authenticator, client_public_value, supported_cms_types, client_dh_nonce]
    }

    fn write_row<W: Sink>(&self, tag: u8, to: &mut Serializer<W>) -> Result<usize, Asn1DerError> {
        to.list(
            tag,
            &fields_of![self; pk_authenticator, client_public_value, supported_cms_types, client_dh_nonce],
        )
    }
}
