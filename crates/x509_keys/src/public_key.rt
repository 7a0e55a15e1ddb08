//! Public keys (RFC 5280, section 4.1.2.7).
ghost use Rattle.std.specs.Prelude.{◌≡◌};
ghost use Rattle.x509_keys.specs.PublicKeys.{is_key_of, kinds_of};

use crate::key_identifiers::{EcIdentifiers, EdIdentifiers, MldsaIdentifiers, RsaIdentifiers};
use crate::rsa_public_key::EncapsulatedRsaPublicKey;
use picky_asn1::oid::ObjectIdentifier;
use picky_asn1::wrapper::{BitStringAsn1, BitStringAsn1Container, OctetStringAsn1};
use std::alloc::AllocError;
use x509_spelling::{Identifiers, KindOf, LastKind, Strict, ToldBy};

/// A point of an elliptic curve, as octets (RFC 5480, section 2.2).
pub type EcPoint = OctetStringAsn1;

/// A point of an elliptic curve, as bits.
pub type EncapsulatedEcPoint = BitStringAsn1;

/// A public key of ML-DSA, as bits (RFC 9881, section 4).
pub type EncapsulatedMldsaPublicKey = BitStringAsn1;

/// A public key. The identifier of its algorithm decides its kind.
#[derive(Debug, Drop, PartialEq, Eq)]
pub enum PublicKey {
    /// A key of RSA.
    Rsa(EncapsulatedRsaPublicKey),
    /// A point of a curve that is the algorithm's parameter.
    Ec(EncapsulatedEcPoint),
    /// A key of Ed25519, Ed448, X25519 or X448.
    Ed(EncapsulatedEcPoint),
    /// A key of ML-DSA.
    Mldsa(EncapsulatedMldsaPublicKey),
}

impl Clone for PublicKey {
    ghost is_clone = { λ key copy. copy ≡ key };

    fn clone(&self) -> Result<PublicKey, AllocError> {
        Ok(match self {
            PublicKey::Rsa(key) => PublicKey::Rsa(BitStringAsn1Container(key.0.clone()?)),
            PublicKey::Ec(point) => PublicKey::Ec(point.clone()?),
            PublicKey::Ed(point) => PublicKey::Ed(point.clone()?),
            PublicKey::Mldsa(key) => PublicKey::Mldsa(key.clone()?),
        })
    }
}

type RsaKind = ToldBy<RsaIdentifiers, (Strict<EncapsulatedRsaPublicKey>, ())>;

type EcKind = ToldBy<EcIdentifiers, (EncapsulatedEcPoint, ())>;

type EdKind = ToldBy<EdIdentifiers, (EncapsulatedEcPoint, ())>;

type MldsaKind = ToldBy<MldsaIdentifiers, (EncapsulatedMldsaPublicKey, ())>;

/// The kinds of public keys, in the order in which an identifier is asked for them.
pub type PublicKinds = KindOf<RsaKind, KindOf<EcKind, KindOf<EdKind, LastKind<MldsaKind>>>>;

/// The key that is of this kind.
pub fn of_kinds(kinds: PublicKinds) -> PublicKey
    ensures { kinds_of result ≡ kinds }
{
    match kinds {
        KindOf::This(told) => {
            let (Strict(key), ()) = told.into_fields();
            PublicKey::Rsa(key)
        }
        KindOf::Other(KindOf::This(told)) => {
            let (key, ()) = told.into_fields();
            PublicKey::Ec(key)
        }
        KindOf::Other(KindOf::Other(KindOf::This(told))) => {
            let (key, ()) = told.into_fields();
            PublicKey::Ed(key)
        }
        KindOf::Other(KindOf::Other(KindOf::Other(LastKind(told)))) => {
            let (key, ()) = told.into_fields();
            PublicKey::Mldsa(key)
        }
    }
}

/// Whether an identifier decides this kind of key.
pub fn is_of(oid: &ObjectIdentifier, key: &PublicKey) -> bool
    ensures { result ≡ is_key_of oid.now key.now }
{
    let content = oid.as_bytes();
    let is_rsa = RsaIdentifiers::tell(content);
    let is_elliptic = EcIdentifiers::tell(content);
    let is_named_curve = EdIdentifiers::tell(content);
    let is_mldsa = MldsaIdentifiers::tell(content);
    match key {
        PublicKey::Rsa(_) => is_rsa,
        PublicKey::Ec(_) => !is_rsa && is_elliptic,
        PublicKey::Ed(_) => !is_rsa && (!is_elliptic && is_named_curve),
        PublicKey::Mldsa(_) => !is_rsa && (!is_elliptic && (!is_named_curve && is_mldsa)),
    }
}
