//! Key functions of RSA and Diffie-Hellman.
ghost use Rattle.std.specs.Prelude.{◌≡◌, IfOk};
ghost use Rattle.std.specs.Option.{option_map};
ghost use Rattle.rsa_keys.specs.Functions.{signed_by_own};

use crate::agreement::{agreed, own_value};
use crate::own_key::OwnKey;
use crate::signature::{check_sha1_signature, check_signature};
use picky_asn1::wrapper::OctetStringAsn1;
use picky_asn1_der::Asn1RawDer;
use public_key_cryptography::{Group, HashFunction};
use std::alloc::{AllocError, Global};
use x509_algorithms::AlgorithmIdentifier;
use x509_keys::{KeyFunctions, Signed, SubjectPublicKeyInfo, Theirs};

/// A party that verifies signatures of RSA, and makes them if it has a key of its own. It agrees on secrets in one group: a peer's value
/// of another group is refused.
#[derive(Drop)]
pub struct RsaKeys {
    group: Group,
    own: Option<OwnKey>,
}

impl RsaKeys {
    /// A party that agrees in this group, with a key of its own or without one.
    pub fn new(group: Group, own: Option<OwnKey>) -> RsaKeys
        ensures { result ≡ record { group = group; own = own } }
    {
        RsaKeys { group, own }
    }
}

impl KeyFunctions for RsaKeys {
    ghost use Rattle.rsa_keys.specs.Functions.{rsa_functions};

    ghost functions = { λ keys. rsa_functions keys.group keys.own };

    fn verifies(
        &self,
        key: &SubjectPublicKeyInfo,
        algorithm: &AlgorithmIdentifier,
        signed: &[u8],
        signature: &[u8],
    ) -> bool {
        check_signature(key, algorithm, signed, signature).is_ok()
    }

    fn verifies_sha1(&self, key: &SubjectPublicKeyInfo, signed: &[u8], signature: &[u8]) -> bool {
        check_sha1_signature(key, signed, signature).is_ok()
    }

    fn sign(&self, alloc: Global, signed: &[u8]) -> Result<Option<Signed>, AllocError> {
        let Some(own) = &self.own else {
            return Ok(None);
        };
        sign_by(alloc, own, signed)
    }

    fn public_value(&self, alloc: Global, words: &[u8]) -> Result<Option<Asn1RawDer>, AllocError> {
        own_value(alloc, self.group, words)
    }

    fn agree(
        &self,
        alloc: Global,
        theirs: Theirs<'_>,
        words: &[u8],
    ) -> Result<Option<Vec<u8>>, AllocError> {
        agreed(alloc, self.group, theirs, words)
    }
}

/// The signature by a key, with the algorithm's name.
fn sign_by(alloc: Global, own: &OwnKey, signed: &[u8]) -> Result<Option<Signed>, AllocError>
    ensures { IfOk result (λ made. made ≡ signed_by_own own.now signed.now) }
{
    let algorithm = own.algorithm().clone()?;
    let signature = own.private().sign(alloc, HashFunction::Sha256, signed)?;
    Ok(named(algorithm, signature))
}

/// A signature with its algorithm.
fn named(algorithm: AlgorithmIdentifier, signature: Option<Vec<u8>>) -> Option<Signed>
    ensures { result ≡ option_map (λ octets. record { algorithm = algorithm; signature = octets }) (option_map (λ octets. octets.items) signature) }
{
    match signature {
        Some(signature) => Some(Signed {
            algorithm,
            signature: OctetStringAsn1::from(signature),
        }),
        None => None,
    }
}
