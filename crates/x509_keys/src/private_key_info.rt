//! Private keys with their algorithms (RFC 5958, section 2).
ghost use Rattle.std.specs.Prelude.{◌≡◌, ◌==◌, ℕ, List, true, None, Some, IsTrue, IfOk, MatchOption, MatchResult};
ghost use Rattle.x509_keys.specs.PrivateKeys.{version_with, is_private_of};
ghost use Rattle.x509_keys.specs.PublicKeyFields.{field_of_key, key_of_field};
ghost use Rattle.asn1_der.specs.Octets.{sequence_octet};

use crate::private_key_fields::PrivateKeyFields;
use crate::private_key_value::{PrivateKeyValue, as_field, in_field};
use asn1_der::octets::SEQUENCE;
use byte_streams::Sink;
use picky_asn1::wrapper::BitStringAsn1;
use picky_asn1_der::{Asn1DerError, Serialize, Serializer};
use std::alloc::{AllocError, Global};
use x509_algorithms::AlgorithmIdentifier;
use x509_spelling::{Counted, Spelled, X509Fault, read_agreeing};

/// The version without a public key.
pub const PRIVATE_KEY_INFO_VERSION_1: u8 = 0;

/// The version with a public key.
pub const PRIVATE_KEY_INFO_VERSION_2: u8 = 1;

/// A private key, the algorithm that it is for, and optionally its public key.
///
/// ```text
/// OneAsymmetricKey ::= SEQUENCE {
///      version                   Version,
///      privateKeyAlgorithm       PrivateKeyAlgorithmIdentifier,
///      privateKey                PrivateKey,
///      attributes            [0] Attributes OPTIONAL,
///      ...,
///      [[2: publicKey        [1] PublicKey OPTIONAL ]],
///      ...
/// }
///
/// Version ::= INTEGER { v1(0), v2(1) } (v1, ..., v2)
/// ```
///
/// The version is v2 where there is a public key, and else v1. Attributes aren't read.
#[derive(Debug, Drop, PartialEq, Eq)]
pub struct PrivateKeyInfo {
    fields: PrivateKeyFields,
    pub ghost of_its_version: { IsTrue (fields.version == version_with fields.public_key.0) },
}

impl Clone for PrivateKeyInfo {
    ghost is_clone = { λ info copy. copy ≡ info };

    fn clone(&self) -> Result<PrivateKeyInfo, AllocError> {
        let fields = self.fields.clone()?;
        Ok(PrivateKeyInfo { fields })
    }
}

impl PrivateKeyInfo {
    ghost use Rattle.x509_keys.specs.MadeKeys.{AreParts};

    /// The private key for an algorithm that decides its kind, and its public key, if any.
    pub(crate) fn of_parts(
        algorithm: AlgorithmIdentifier,
        private_key: PrivateKeyValue,
        public_key: Option<BitStringAsn1>,
    ) -> PrivateKeyInfo
        requires { IsTrue (is_private_of algorithm.algorithm.0 private_key (field_of_key public_key)) }
        ensures { AreParts algorithm private_key public_key result.fields }
    {
        let version = match &public_key {
            Some(_) => PRIVATE_KEY_INFO_VERSION_2,
            None => PRIVATE_KEY_INFO_VERSION_1,
        };
        let public_key = as_field(public_key);
        PrivateKeyInfo {
            fields: PrivateKeyFields {
                version,
                private_key_algorithm: algorithm,
                private_key,
                public_key,
            },
        }
    }

    /// The version.
    pub fn version(&self) -> u8
        ensures { result ≡ self.now.fields.version }
    {
        self.fields.version
    }

    /// The algorithm.
    pub fn private_key_algorithm(&self) -> &AlgorithmIdentifier
        ensures { result.now ≡ self.now.fields.private_key_algorithm }
    {
        &self.fields.private_key_algorithm
    }

    /// The private key.
    pub fn private_key(&self) -> &PrivateKeyValue
        ensures { result.now ≡ self.now.fields.private_key }
    {
        &self.fields.private_key
    }

    /// The public key of the private one.
    pub fn public_key(&self) -> Option<&BitStringAsn1>
        ensures { MatchOption result
            (key_of_field self.now.fields.public_key ≡ None)
            (λ key. key_of_field self.now.fields.public_key ≡ Some key.now) }
    {
        in_field(&self.fields.public_key)
    }
}

impl Serialize for PrivateKeyInfo {
    ghost use Rattle.asn1_der.specs.Firsts.{only};
    ghost use Rattle.x509_keys.specs.PrivateInfoLaws.{same_info};

    ghost tree = { λ v. ⟦<PrivateKeyFields as Serialize>⟧.tree v.fields };

    ghost firsts = { only sequence_octet };

    ghost begins = { λ v. ⟦<PrivateKeyFields as Serialize>⟧.begins v.fields };

    ghost injective = { λ v w whole also e. same_info v w (⟦<PrivateKeyFields as Serialize>⟧.injective v.fields w.fields whole also e) };

    fn serialize<W: Sink>(&self, to: &mut Serializer<W>) -> Result<usize, Asn1DerError> {
        self.fields.serialize(to)
    }
}

impl Spelled for PrivateKeyInfo {
    ghost use Rattle.std.proofs.Common.{refl, true};
    ghost use Rattle.asn1_der.specs.Firsts.{only};
    ghost use Rattle.x509_spelling.specs.Laws.{held_laws};
    ghost use Rattle.x509_keys.specs.PrivateInfoLaws.{same_info};

    ghost spells = { λ v. ⟦<PrivateKeyFields as Spelled>⟧.spells v.fields };

    ghost written = { λ v. ⟦<PrivateKeyFields as Spelled>⟧.written v.fields };

    ghost begun = { only sequence_octet };

    ghost has_low_tags = { true };

    ghost laws = { held_laws true (only sequence_octet) ⟦<PrivateKeyFields as Spelled>⟧.written ⟦<PrivateKeyFields as Spelled>⟧.spells ⟦<PrivateKeyFields as Spelled>⟧.laws
        (λ v. v.fields) same_info };

    fn may_begin_with(first: u8) -> bool {
        first == SEQUENCE
    }

    fn read_counted(alloc: Global, bytes: &[u8]) -> Result<Counted<Self>, X509Fault> {
        let read: Counted<PrivateKeyFields> = read_agreeing(alloc, bytes)?;
        let count = read.count;
        let value = PrivateKeyInfo {
            fields: read.into_value(),
        };
        Ok(Counted { value, count })
    }

    ghost written_is = { refl };
}
