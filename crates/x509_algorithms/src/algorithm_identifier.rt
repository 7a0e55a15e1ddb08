//! Identifiers of algorithms (RFC 5280, section 4.1.1.2).
ghost use Rattle.std.specs.Prelude.{◌≡◌, ℕ, List, true, IsTrue, MatchResult};
ghost use Rattle.std.specs.List.{list_any};
ghost use Rattle.std.specs.Bool.{nat_eq};
ghost use Rattle.std.specs.Cmp.Lexicographic.{pointwise};
ghost use Rattle.x509_algorithms.specs.AlgorithmKinds.{is_parameters_of, kinds_of};
ghost use Rattle.asn1_der.specs.Octets.{sequence_octet};

use crate::algorithm_kinds::{AlgorithmIdentifierParameters, AlgorithmKinds, of_kinds};
use asn1_der::octets::SEQUENCE;
use byte_streams::{Sink, Source};
use picky_asn1::oid::ObjectIdentifier;
use picky_asn1::wrapper::ObjectIdentifierAsn1;
use picky_asn1_der::{Asn1DerError, Deserialize, Deserializer, Serialize, Serializer};
use std::alloc::{AllocError, Global};
use x509_spelling::{
    Counted, Kinds, Spelled, SpelledItem, X509Fault, read_identified, read_strict,
};

/// An algorithm, and parameters of the kind that its identifier decides.
///
/// ```text
/// AlgorithmIdentifier  ::=  SEQUENCE  {
///      algorithm               OBJECT IDENTIFIER,
///      parameters              ANY DEFINED BY algorithm OPTIONAL  }
/// ```
///
/// Algorithms that aren't known here aren't read. Inside a message of another kind, as one of Kerberos, the strict spelling alone is
/// read.
#[derive(Debug, Drop, PartialEq, Eq)]
pub struct AlgorithmIdentifier {
    algorithm: ObjectIdentifierAsn1,
    parameters: AlgorithmIdentifierParameters,
    pub ghost of_its_algorithm: { IsTrue (is_parameters_of algorithm.0 parameters) },
}

impl AlgorithmIdentifier {
    ghost use Rattle.x509_algorithms.specs.AlgorithmsMade.{IsMade};

    /// The algorithm's identifier.
    pub fn oid(&self) -> &ObjectIdentifier
        ensures { result.now ≡ self.now.algorithm.0 }
    {
        &self.algorithm.0
    }

    /// The object identifier as the type that messages hold.
    pub fn oid_asn1(&self) -> &ObjectIdentifierAsn1
        ensures { result.now ≡ self.now.algorithm }
    {
        &self.algorithm
    }

    /// The parameters.
    pub fn parameters(&self) -> &AlgorithmIdentifierParameters
        ensures { result.now ≡ self.now.parameters }
    {
        &self.parameters
    }

    /// Whether this is the algorithm that has the identifier.
    pub fn is_a(&self, algorithm: &ObjectIdentifier) -> bool
        ensures { result ≡ pointwise nat_eq self.now.algorithm.0 algorithm.now }
    {
        self.algorithm.0 == *algorithm
    }

    /// Whether this is an algorithm that has one of the identifiers.
    pub fn is_one_of(&self, algorithms: &[ObjectIdentifier]) -> bool
        ensures { result ≡ list_any (λ algorithm. pointwise nat_eq self.now.algorithm.0 algorithm) algorithms.now }
    {
        algorithms.iter().any(|algorithm| self.is_a(algorithm))
    }

    // The algorithm with these parameters, which are of its kind.
    pub(crate) fn of_parts(
        oid: ObjectIdentifier,
        parameters: AlgorithmIdentifierParameters,
    ) -> AlgorithmIdentifier
        requires { IsTrue (is_parameters_of oid parameters) }
        ensures { IsMade oid parameters result }
    {
        AlgorithmIdentifier {
            algorithm: ObjectIdentifierAsn1(oid),
            parameters,
        }
    }
}

impl Clone for AlgorithmIdentifier {
    ghost is_clone = { λ identifier copy. copy ≡ identifier };

    fn clone(&self) -> Result<AlgorithmIdentifier, AllocError> {
        let algorithm = self.algorithm.clone()?;
        let parameters = self.parameters.clone()?;
        Ok(AlgorithmIdentifier {
            algorithm,
            parameters,
        })
    }
}

impl Serialize for AlgorithmIdentifier {
    ghost use Rattle.std.proofs.Common.{refl, true};
    ghost use Rattle.asn1_der.specs.Tree.{constructed};
    ghost use Rattle.asn1_der.specs.Tagged.{sequence};
    ghost use Rattle.asn1_der.specs.Firsts.{only};
    ghost use Rattle.asn1_der.proofs.Spelling.{may_begin-only};
    ghost use Rattle.x509_spelling.specs.HeldLaws.{laws_injective};
    ghost use Rattle.x509_spelling.specs.KindLaws.{identified_laws};
    ghost use Rattle.x509_spelling.specs.Spellings.{Holds, Joins};
    ghost use Rattle.x509_algorithms.specs.AlgorithmClasses.{is_rsa, is_signature};
    ghost use Rattle.asn1_leaves.specs.ObjectIdentifier.{oid_content};
    ghost use Rattle.x509_algorithms.specs.AlgorithmKinds.{same_trees};
    ghost use Rattle.x509_algorithms.specs.AlgorithmLaws.{row_of, written_row, same_algorithm, injective_by};

    ghost tree = { λ v. sequence (λ f. ⟦<ObjectIdentifierAsn1 as SpelledItem>⟧.place f.0 (⟦<AlgorithmKinds as Kinds>⟧.row_trees f.1)) sequence_octet (written_row v) };

    ghost firsts = { only sequence_octet };

    ghost begins = { λ _. may_begin-only sequence_octet };

    ghost injective = { injective_by (λ v. sequence (λ f. ⟦<ObjectIdentifierAsn1 as SpelledItem>⟧.place f.0 (⟦<AlgorithmKinds as Kinds>⟧.row_trees f.1)) sequence_octet (written_row v)) (λ v. sequence (λ f. ⟦<ObjectIdentifierAsn1 as SpelledItem>⟧.place f.0 (⟦<AlgorithmKinds as Kinds>⟧.row_trees f.1)) sequence_octet (row_of v))
        (λ v i. constructed sequence_octet (⟦<ObjectIdentifierAsn1 as SpelledItem>⟧.place v.algorithm (same_trees ⟦<AlgorithmKinds as Kinds>⟧.row_trees refl refl true true
        (is_rsa (oid_content v.algorithm.0)) (is_signature (oid_content v.algorithm.0)) v.parameters i)))
        (laws_injective true (only sequence_octet) (λ v. sequence (λ f. ⟦<ObjectIdentifierAsn1 as SpelledItem>⟧.place f.0 (⟦<AlgorithmKinds as Kinds>⟧.row_trees f.1)) sequence_octet (row_of v)) (λ v. Holds sequence_octet (λ f. Joins ⟦<ObjectIdentifierAsn1 as SpelledItem>⟧.leads ⟦<AlgorithmKinds as Kinds>⟧.spells f.0 f.1) (row_of v))
        (identified_laws ⟦<ObjectIdentifierAsn1 as SpelledItem>⟧.before ⟦<ObjectIdentifierAsn1 as SpelledItem>⟧.is_told ⟦<ObjectIdentifierAsn1 as SpelledItem>⟧.place
        ⟦<ObjectIdentifierAsn1 as SpelledItem>⟧.leads ⟦<ObjectIdentifierAsn1 as SpelledItem>⟧.field_laws
        ⟦<AlgorithmKinds as Kinds>⟧.belongs ⟦<AlgorithmKinds as Kinds>⟧.row_firsts ⟦<AlgorithmKinds as Kinds>⟧.row_trees ⟦<AlgorithmKinds as Kinds>⟧.spells
        (⟦<AlgorithmKinds as Kinds>⟧.kind_laws (refl {a = true})) (refl {a = true}) row_of same_algorithm (λ v. v.of_its_algorithm))) };

    fn serialize<W: Sink>(&self, to: &mut Serializer<W>) -> Result<usize, Asn1DerError> {
        let id = &self.algorithm;
        match &self.parameters {
            AlgorithmIdentifierParameters::None => to.list(SEQUENCE, &(id, ())),
            AlgorithmIdentifierParameters::Null => to.list(SEQUENCE, &(id, (&(), ()))),
            AlgorithmIdentifierParameters::Aes(params) => to.list(SEQUENCE, &(id, (params, ()))),
            AlgorithmIdentifierParameters::Ec(curve) => to.list(SEQUENCE, &(id, (curve, ()))),
            AlgorithmIdentifierParameters::RsassaPss(params) => to.list(
                SEQUENCE,
                &(id, (params, ())),
            ),
        }
    }
}

impl Deserialize for AlgorithmIdentifier {
    fn may_start(first: u8) -> bool {
        first == SEQUENCE
    }

    fn deserialize<R: Source>(from: &mut Deserializer<R>) -> Result<Self, Asn1DerError> {
        read_strict(from)
    }
}

impl Spelled for AlgorithmIdentifier {
    ghost use Rattle.std.proofs.Common.{refl, true};
    ghost use Rattle.asn1_der.specs.Tree.{constructed};
    ghost use Rattle.asn1_der.specs.Tagged.{sequence};
    ghost use Rattle.asn1_der.specs.Firsts.{only};
    ghost use Rattle.x509_spelling.specs.KindLaws.{identified_laws};
    ghost use Rattle.x509_spelling.specs.Spellings.{Holds, Joins};
    ghost use Rattle.x509_algorithms.specs.AlgorithmClasses.{is_rsa, is_signature};
    ghost use Rattle.asn1_leaves.specs.ObjectIdentifier.{oid_content};
    ghost use Rattle.x509_algorithms.specs.AlgorithmKinds.{same_trees};
    ghost use Rattle.x509_algorithms.specs.AlgorithmLaws.{row_of, same_algorithm};

    ghost spells = { λ v. Holds sequence_octet (λ f. Joins ⟦<ObjectIdentifierAsn1 as SpelledItem>⟧.leads ⟦<AlgorithmKinds as Kinds>⟧.spells f.0 f.1) (row_of v) };

    ghost written = { λ v. sequence (λ f. ⟦<ObjectIdentifierAsn1 as SpelledItem>⟧.place f.0 (⟦<AlgorithmKinds as Kinds>⟧.row_trees f.1)) sequence_octet (row_of v) };

    ghost begun = { only sequence_octet };

    ghost has_low_tags = { true };

    ghost laws = { identified_laws ⟦<ObjectIdentifierAsn1 as SpelledItem>⟧.before ⟦<ObjectIdentifierAsn1 as SpelledItem>⟧.is_told ⟦<ObjectIdentifierAsn1 as SpelledItem>⟧.place
        ⟦<ObjectIdentifierAsn1 as SpelledItem>⟧.leads ⟦<ObjectIdentifierAsn1 as SpelledItem>⟧.field_laws
        ⟦<AlgorithmKinds as Kinds>⟧.belongs ⟦<AlgorithmKinds as Kinds>⟧.row_firsts ⟦<AlgorithmKinds as Kinds>⟧.row_trees ⟦<AlgorithmKinds as Kinds>⟧.spells
        (⟦<AlgorithmKinds as Kinds>⟧.kind_laws (refl {a = true})) (refl {a = true}) row_of same_algorithm (λ v. v.of_its_algorithm) };

    fn may_begin_with(first: u8) -> bool {
        first == SEQUENCE
    }

    fn read_counted(alloc: Global, bytes: &[u8]) -> Result<Counted<Self>, X509Fault> {
        let read: Counted<(ObjectIdentifierAsn1, AlgorithmKinds)> = read_identified(
            alloc, SEQUENCE, bytes,
        )?;
        let count = read.count;
        let (algorithm, kinds) = read.into_value();
        let parameters = of_kinds(&algorithm.0, kinds);
        let value = AlgorithmIdentifier {
            algorithm,
            parameters,
        };
        Ok(Counted { value, count })
    }

    ghost written_is = { λ i v. constructed sequence_octet (⟦<ObjectIdentifierAsn1 as SpelledItem>⟧.place v.algorithm (same_trees ⟦<AlgorithmKinds as Kinds>⟧.row_trees refl refl true true
        (is_rsa (oid_content v.algorithm.0)) (is_signature (oid_content v.algorithm.0)) v.parameters i)) };
}
