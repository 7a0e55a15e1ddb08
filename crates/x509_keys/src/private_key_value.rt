//! Private keys as an octet string holds them (RFC 5958, section 2).
ghost use Rattle.std.specs.Prelude.{◌≡◌, None, Some, IfOk, MatchOption};
ghost use Rattle.x509_keys.specs.PrivateKeys.{private_kinds};
ghost use Rattle.x509_keys.specs.PublicKeyFields.{field_of_key, key_of_field};
ghost use Rattle.asn1_der.specs.Octets.{octet_string_octet};

use crate::ec_private_key::{ECPrivateKey, EncapsulatedEcSecret};
use crate::rsa_private_key::RsaPrivateKey;
use crate::{EcIdentifiers, EdIdentifiers, RsaIdentifiers};
use byte_streams::Sink;
use picky_asn1::wrapper::{
    BitStringAsn1, ImplicitContextTag, ImplicitContextTag1, OctetStringAsn1Container, Optional,
};
use picky_asn1_der::{Asn1DerError, Serialize, Serializer};
use std::alloc::AllocError;
use x509_spelling::{Enclosed, KindOf, LastKind, Strict, ToldBy};

/// A private key. The identifier of its algorithm decides its kind.
///
/// ```text
/// PrivateKey ::= OCTET STRING
///                   -- Content varies based on type of key. The
///                   -- algorithm identifier dictates the format of
///                   -- the key.
/// ```
#[derive(Debug, Drop, PartialEq, Eq)]
pub enum PrivateKeyValue {
    /// A key of RSA.
    Rsa(OctetStringAsn1Container<RsaPrivateKey>),
    /// A key on a curve that is the algorithm's parameter.
    EC(OctetStringAsn1Container<ECPrivateKey>),
    /// A key of Ed25519, Ed448, X25519 or X448.
    ED(OctetStringAsn1Container<EncapsulatedEcSecret>),
}

impl Clone for PrivateKeyValue {
    ghost is_clone = { λ key copy. copy ≡ key };

    fn clone(&self) -> Result<PrivateKeyValue, AllocError> {
        Ok(match self {
            PrivateKeyValue::Rsa(key) => PrivateKeyValue::Rsa(OctetStringAsn1Container(
                key.0.clone()?,
            )),
            PrivateKeyValue::EC(key) => PrivateKeyValue::EC(OctetStringAsn1Container(
                key.0.clone()?,
            )),
            PrivateKeyValue::ED(key) => PrivateKeyValue::ED(OctetStringAsn1Container(
                key.0.clone()?,
            )),
        })
    }
}

/// A key is written alone too; it is read only behind its algorithm, whose identifier decides its kind.
impl Serialize for PrivateKeyValue {
    ghost use Rattle.asn1_der.specs.Firsts.{only};
    ghost use Rattle.x509_keys.specs.KeyValues.{value_tree, value-begins, value-injective, rest_of, versions_apart};

    ghost tree = { value_tree ⟦<RsaPrivateKey as Serialize>⟧.tree ⟦<ECPrivateKey as Serialize>⟧.tree ⟦<EncapsulatedEcSecret as Serialize>⟧.tree };

    ghost firsts = { only octet_string_octet };

    ghost begins = { value-begins ⟦<RsaPrivateKey as Serialize>⟧.tree ⟦<ECPrivateKey as Serialize>⟧.tree ⟦<EncapsulatedEcSecret as Serialize>⟧.tree };

    ghost injective = { value-injective ⟦<RsaPrivateKey as Serialize>⟧.tree ⟦<ECPrivateKey as Serialize>⟧.tree ⟦<EncapsulatedEcSecret as Serialize>⟧.tree
        ⟦<RsaPrivateKey as Serialize>⟧.injective ⟦<ECPrivateKey as Serialize>⟧.injective ⟦<EncapsulatedEcSecret as Serialize>⟧.injective
        ⟦<RsaPrivateKey as Serialize>⟧.begins ⟦<ECPrivateKey as Serialize>⟧.begins ⟦<EncapsulatedEcSecret as Serialize>⟧.begins
        (λ v w e. versions_apart (rest_of (⟦<RsaPrivateKey as Serialize>⟧.tree v)) (rest_of (⟦<ECPrivateKey as Serialize>⟧.tree w)) e) };

    fn serialize<W: Sink>(&self, to: &mut Serializer<W>) -> Result<usize, Asn1DerError> {
        match self {
            PrivateKeyValue::Rsa(key) => key.serialize(to),
            PrivateKeyValue::EC(key) => key.serialize(to),
            PrivateKeyValue::ED(key) => key.serialize(to),
        }
    }
}

/// The public key behind a private one, perhaps: `publicKey [1] PublicKey OPTIONAL`.
pub type PublicKeyField = Optional<Option<Strict<ImplicitContextTag1<BitStringAsn1>>>>;

type Held<I, T> = ToldBy<I, (Enclosed<T>, (PublicKeyField, ()))>;

/// The kinds of private keys, each with the public key behind it, in the order in which an identifier is asked for them.
pub type PrivateKinds = KindOf<
    Held<RsaIdentifiers, RsaPrivateKey>,
    KindOf<Held<EcIdentifiers, ECPrivateKey>, LastKind<Held<EdIdentifiers, EncapsulatedEcSecret>>>,
>;

/// The private key that is of this kind, and the public one.
pub fn parts_of(kinds: PrivateKinds) -> (PrivateKeyValue, PublicKeyField)
    ensures { private_kinds result.0 result.1 ≡ kinds }
{
    match kinds {
        KindOf::This(told) => {
            let (Enclosed(key), (public_key, ())) = told.into_fields();
            (
                PrivateKeyValue::Rsa(OctetStringAsn1Container(key)),
                public_key,
            )
        }
        KindOf::Other(KindOf::This(told)) => {
            let (Enclosed(key), (public_key, ())) = told.into_fields();
            (
                PrivateKeyValue::EC(OctetStringAsn1Container(key)),
                public_key,
            )
        }
        KindOf::Other(KindOf::Other(LastKind(told))) => {
            let (Enclosed(key), (public_key, ())) = told.into_fields();
            (
                PrivateKeyValue::ED(OctetStringAsn1Container(key)),
                public_key,
            )
        }
    }
}

/// A public key as the field after a private one.
pub fn as_field(public_key: Option<BitStringAsn1>) -> PublicKeyField
    ensures { result ≡ field_of_key public_key }
{
    match public_key {
        Some(key) => Optional(Some(Strict(ImplicitContextTag(key)))),
        None => Optional(None),
    }
}

/// A copy of the field.
pub fn copied_field(field: &PublicKeyField) -> Result<PublicKeyField, AllocError>
    ensures { IfOk result (λ copy. copy ≡ field.now) }
{
    match &field.0 {
        Some(Strict(ImplicitContextTag(key))) => {
            let copy = key.clone()?;
            Ok(Optional(Some(Strict(ImplicitContextTag(copy)))))
        }
        None => Ok(Optional(None)),
    }
}

/// The public key in the field.
pub fn in_field(field: &PublicKeyField) -> Option<&BitStringAsn1>
    ensures { MatchOption result (key_of_field field.now ≡ None) (λ key. key_of_field field.now ≡ Some key.now) }
{
    match &field.0 {
        Some(Strict(ImplicitContextTag(key))) => Some(key),
        None => None,
    }
}
