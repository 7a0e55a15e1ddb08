//! Public keys with their algorithms (RFC 5280, section 4.1.2.7).
ghost use Rattle.std.specs.Prelude.{◌≡◌, ℕ, List, true, false, IsTrue, IfOk, MatchResult};
ghost use Rattle.x509_keys.specs.PublicKeys.{is_key_of, kinds_of};
ghost use Rattle.x509_algorithms.specs.declared.ec_parameters.EcParameters.TheVariants.{NamedCurve};
ghost use Rattle.asn1_der.specs.Octets.{sequence_octet};

use crate::public_key::{EncapsulatedEcPoint, PublicKey, PublicKinds, is_of, of_kinds};
use crate::rsa_public_key::RsaPublicKey;
use asn1_der::octets::SEQUENCE;
use byte_streams::{Sink, Source};
use picky_asn1::oid::ObjectIdentifier;
use picky_asn1::wrapper::{BitStringAsn1Container, IntegerAsn1};
use picky_asn1_der::{Asn1DerError, Deserialize, Deserializer, Serialize, Serializer};
use std::alloc::{AllocError, Global};
use x509_algorithms::{AlgorithmIdentifier, EcParameters};
use x509_spelling::{
    Ahead, Counted, Identified, Kinds, Spelled, SpelledItem, X509Fault, read_chosen_in, read_strict,
};

/// A public key, and the algorithm that it is for. Inside a message of another kind, as one of Kerberos, the strict spelling alone is
/// read.
///
/// ```text
/// SubjectPublicKeyInfo  ::=  SEQUENCE  {
///      algorithm            AlgorithmIdentifier,
///      subjectPublicKey     BIT STRING  }
/// ```
#[derive(Debug, Drop, PartialEq, Eq)]
pub struct SubjectPublicKeyInfo {
    algorithm: AlgorithmIdentifier,
    subject_public_key: PublicKey,
    pub ghost of_its_algorithm: { IsTrue (is_key_of algorithm.algorithm.0 subject_public_key) },
}

impl SubjectPublicKeyInfo {
    ghost use Rattle.x509_oids.specs.Identifiers as oids;
    ghost use Rattle.x509_algorithms.specs.AlgorithmsMade.{IsMade};
    ghost use Rattle.x509_algorithms.specs.declared.algorithm_kinds.AlgorithmIdentifierParameters.TheVariants as params;
    ghost use Rattle.x509_keys.specs.declared.public_key.PublicKey.TheVariants as kind;

    /// The algorithm.
    pub fn algorithm(&self) -> &AlgorithmIdentifier
        ensures { result.now ≡ self.now.algorithm }
    {
        &self.algorithm
    }

    /// The key.
    pub fn subject_public_key(&self) -> &PublicKey
        ensures { result.now ≡ self.now.subject_public_key }
    {
        &self.subject_public_key
    }

    /// The key for an algorithm, or `Meaning` where the algorithm's identifier doesn't decide this kind of key.
    pub fn new(
        algorithm: AlgorithmIdentifier,
        key: PublicKey,
    ) -> Result<SubjectPublicKeyInfo, X509Fault>
        ensures { MatchResult result
            (λ made. (made.algorithm ≡ algorithm) × (made.subject_public_key ≡ key))
            (λ fault. (fault ≡ X509Fault.Meaning) × (is_key_of algorithm.algorithm.0 key ≡ false)) }
    {
        if !is_of(algorithm.oid(), &key) {
            return Err(X509Fault::Meaning);
        }
        Ok(SubjectPublicKeyInfo {
            algorithm,
            subject_public_key: key,
        })
    }

    /// A key of RSA.
    pub fn new_rsa_key(
        alloc: Global,
        modulus: IntegerAsn1,
        public_exponent: IntegerAsn1,
    ) -> Result<SubjectPublicKeyInfo, AllocError>
        ensures { IfOk result (λ made. IsMade oids.rsa_encryption params.Null made.algorithm
            × (made.subject_public_key ≡ kind.Rsa (record { 0 = record { modulus = modulus; public_exponent = public_exponent } }))) }
    {
        let algorithm = AlgorithmIdentifier::new_rsa_encryption(alloc)?;
        let key = RsaPublicKey {
            modulus,
            public_exponent,
        };
        Ok(SubjectPublicKeyInfo {
            algorithm,
            subject_public_key: PublicKey::Rsa(BitStringAsn1Container(key)),
        })
    }

    /// A point of the curve that has the identifier.
    pub fn new_ec_key(
        alloc: Global,
        curve: ObjectIdentifier,
        point: EncapsulatedEcPoint,
    ) -> Result<SubjectPublicKeyInfo, AllocError>
        ensures { IfOk result (λ made. IsMade oids.ec_public_key (params.Ec (NamedCurve (record { 0 = curve }))) made.algorithm
            × (made.subject_public_key ≡ kind.Ec point)) }
    {
        let algorithm = AlgorithmIdentifier::new_elliptic_curve(alloc, EcParameters::from(curve))?;
        Ok(SubjectPublicKeyInfo {
            algorithm,
            subject_public_key: PublicKey::Ec(point),
        })
    }

    /// A key of Ed25519, Ed448, X25519 or X448, or `Meaning` where the algorithm is none of these.
    pub fn new_ed_key(
        algorithm: AlgorithmIdentifier,
        key: EncapsulatedEcPoint,
    ) -> Result<SubjectPublicKeyInfo, X509Fault>
        ensures { MatchResult result
            (λ made. (made.algorithm ≡ algorithm) × (made.subject_public_key ≡ kind.Ed key))
            (λ fault. (fault ≡ X509Fault.Meaning) × (is_key_of algorithm.algorithm.0 (kind.Ed key) ≡ false)) }
    {
        SubjectPublicKeyInfo::new(algorithm, PublicKey::Ed(key))
    }
}

impl Clone for SubjectPublicKeyInfo {
    ghost is_clone = { λ info copy. copy ≡ info };

    fn clone(&self) -> Result<SubjectPublicKeyInfo, AllocError> {
        let algorithm = self.algorithm.clone()?;
        let subject_public_key = self.subject_public_key.clone()?;
        Ok(SubjectPublicKeyInfo {
            algorithm,
            subject_public_key,
        })
    }
}

impl Serialize for SubjectPublicKeyInfo {
    ghost use Rattle.std.proofs.Common.{refl, true};
    ghost use Rattle.asn1_der.specs.Tagged.{sequence};
    ghost use Rattle.asn1_der.specs.Firsts.{only};
    ghost use Rattle.asn1_der.proofs.Spelling.{may_begin-only};
    ghost use Rattle.x509_spelling.specs.HeldLaws.{laws_injective};
    ghost use Rattle.x509_spelling.specs.Spellings.{Holds, Joins};
    ghost use Rattle.x509_spelling.specs.ChosenLaws.{chosen_info_laws};
    ghost use Rattle.x509_keys.specs.KeyInfoLaws.{public_row, same_public};

    ghost tree = { λ v. sequence (λ f. ⟦<AlgorithmIdentifier as SpelledItem>⟧.place f.0 (⟦<PublicKinds as Kinds>⟧.row_trees f.1)) sequence_octet (public_row v) };

    ghost firsts = { only sequence_octet };

    ghost begins = { λ _. may_begin-only sequence_octet };

    ghost injective = { laws_injective true (only sequence_octet) (λ v. sequence (λ f. ⟦<AlgorithmIdentifier as SpelledItem>⟧.place f.0 (⟦<PublicKinds as Kinds>⟧.row_trees f.1)) sequence_octet (public_row v))
        (λ v. Holds sequence_octet (λ f. Joins ⟦<AlgorithmIdentifier as SpelledItem>⟧.leads ⟦<PublicKinds as Kinds>⟧.spells f.0 f.1) (public_row v))
        (chosen_info_laws ⟦<AlgorithmIdentifier as SpelledItem>⟧.before ⟦<AlgorithmIdentifier as SpelledItem>⟧.is_told ⟦<AlgorithmIdentifier as SpelledItem>⟧.place
        ⟦<AlgorithmIdentifier as SpelledItem>⟧.leads ⟦<AlgorithmIdentifier as SpelledItem>⟧.field_laws
        ⟦<PublicKinds as Kinds>⟧.belongs ⟦<PublicKinds as Kinds>⟧.row_firsts ⟦<PublicKinds as Kinds>⟧.row_trees ⟦<PublicKinds as Kinds>⟧.spells
        (⟦<PublicKinds as Kinds>⟧.kind_laws (refl {a = true})) (refl {a = true}) ⟦<AlgorithmIdentifier as Identified>⟧.arcs_of public_row same_public (λ v. v.of_its_algorithm)) };

    fn serialize<W: Sink>(&self, to: &mut Serializer<W>) -> Result<usize, Asn1DerError> {
        let algorithm = &self.algorithm;
        match &self.subject_public_key {
            PublicKey::Rsa(key) => to.list(SEQUENCE, &Ahead(algorithm, (key, ()))),
            PublicKey::Ec(key) => to.list(SEQUENCE, &Ahead(algorithm, (key, ()))),
            PublicKey::Ed(key) => to.list(SEQUENCE, &Ahead(algorithm, (key, ()))),
            PublicKey::Mldsa(key) => to.list(SEQUENCE, &Ahead(algorithm, (key, ()))),
        }
    }
}

impl Deserialize for SubjectPublicKeyInfo {
    fn may_start(first: u8) -> bool {
        first == SEQUENCE
    }

    fn deserialize<R: Source>(from: &mut Deserializer<R>) -> Result<Self, Asn1DerError> {
        read_strict(from)
    }
}

impl Spelled for SubjectPublicKeyInfo {
    ghost use Rattle.std.proofs.Common.{refl, true};
    ghost use Rattle.asn1_der.specs.Tagged.{sequence};
    ghost use Rattle.asn1_der.specs.Firsts.{only};
    ghost use Rattle.x509_spelling.specs.Spellings.{Holds, Joins};
    ghost use Rattle.x509_spelling.specs.ChosenLaws.{chosen_info_laws};
    ghost use Rattle.x509_keys.specs.KeyInfoLaws.{public_row, same_public};

    ghost spells = { λ v. Holds sequence_octet (λ f. Joins ⟦<AlgorithmIdentifier as SpelledItem>⟧.leads ⟦<PublicKinds as Kinds>⟧.spells f.0 f.1) (public_row v) };

    ghost written = { λ v. sequence (λ f. ⟦<AlgorithmIdentifier as SpelledItem>⟧.place f.0 (⟦<PublicKinds as Kinds>⟧.row_trees f.1)) sequence_octet (public_row v) };

    ghost begun = { only sequence_octet };

    ghost has_low_tags = { true };

    ghost laws = { chosen_info_laws ⟦<AlgorithmIdentifier as SpelledItem>⟧.before ⟦<AlgorithmIdentifier as SpelledItem>⟧.is_told ⟦<AlgorithmIdentifier as SpelledItem>⟧.place
        ⟦<AlgorithmIdentifier as SpelledItem>⟧.leads ⟦<AlgorithmIdentifier as SpelledItem>⟧.field_laws
        ⟦<PublicKinds as Kinds>⟧.belongs ⟦<PublicKinds as Kinds>⟧.row_firsts ⟦<PublicKinds as Kinds>⟧.row_trees ⟦<PublicKinds as Kinds>⟧.spells
        (⟦<PublicKinds as Kinds>⟧.kind_laws (refl {a = true})) (refl {a = true}) ⟦<AlgorithmIdentifier as Identified>⟧.arcs_of public_row same_public (λ v. v.of_its_algorithm) };

    fn may_begin_with(first: u8) -> bool {
        first == SEQUENCE
    }

    fn read_counted(alloc: Global, bytes: &[u8]) -> Result<Counted<Self>, X509Fault> {
        let read: Counted<(AlgorithmIdentifier, PublicKinds)> = read_chosen_in(
            alloc, SEQUENCE, bytes,
        )?;
        let count = read.count;
        let (algorithm, kinds) = read.into_value();
        let subject_public_key = of_kinds(kinds);
        let value = SubjectPublicKeyInfo {
            algorithm,
            subject_public_key,
        };
        Ok(Counted { value, count })
    }

    ghost written_is = { refl };
}
