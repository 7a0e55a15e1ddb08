//! Digests with the hash that made them (RFC 8017, section 9.2).
ghost use Rattle.std.specs.Prelude.{◌≡◌, ℕ, List, true, IsTrue, MatchResult};
ghost use Rattle.asn1_leaves.specs.ObjectIdentifier.{oid_content};
ghost use Rattle.x509_algorithms.specs.AlgorithmClasses.{is_hash};
ghost use Rattle.asn1_der.specs.Octets.{sequence_octet};

use crate::algorithm_identifier::AlgorithmIdentifier;
use crate::algorithm_kinds::{AlgorithmIdentifierParameters, AlgorithmKinds};
use crate::hash_identifier::HashIdentifier;
use asn1_der::octets::SEQUENCE;
use byte_streams::Sink;
use picky_asn1::wrapper::{ObjectIdentifierAsn1, OctetStringAsn1};
use picky_asn1_der::{Asn1DerError, Row2, Serialize, Serializer, fields_of};
use std::alloc::{AllocError, Global};
use x509_spelling::{Counted, Kinds, Spelled, SpelledFields, SpelledItem, X509Fault, read_fields};

/// A digest, and the hash that made it.
///
/// ```text
/// DigestInfo ::= SEQUENCE {
///      digestAlgorithm DigestAlgorithm,
///      digest          OCTET STRING }
/// ```
#[derive(Debug, Drop, PartialEq, Eq)]
pub struct DigestInfo {
    /// The hash, with NULL.
    pub oid: AlgorithmIdentifier,
    /// The digest.
    pub digest: OctetStringAsn1,
    pub ghost of_a_hash: { IsTrue (is_hash (oid_content oid.algorithm.0)) },
}

impl Clone for DigestInfo {
    ghost is_clone = { λ info copy. copy ≡ info };

    fn clone(&self) -> Result<DigestInfo, AllocError> {
        let oid = self.oid.clone()?;
        let digest = self.digest.clone()?;
        Ok(DigestInfo { oid, digest })
    }
}

type DigestRow = Row2<HashIdentifier, OctetStringAsn1>;

impl AlgorithmIdentifier {
    // The hash, with NULL.
    fn of_hash(hash: HashIdentifier) -> AlgorithmIdentifier
        ensures id { result.algorithm ≡ hash.oid }
        ensures hash { IsTrue (is_hash (oid_content result.algorithm.0)) }
    {
        let oid = hash.into_oid();
        AlgorithmIdentifier::of_parts(oid.0, AlgorithmIdentifierParameters::Null)
    }
}

impl Serialize for DigestInfo {
    ghost use Rattle.std.proofs.Common.{refl, true};
    ghost use Rattle.asn1_der.specs.Tree.{constructed, more, none};
    ghost use Rattle.asn1_der.specs.Tagged.{sequence};
    ghost use Rattle.asn1_der.specs.Firsts.{only};
    ghost use Rattle.asn1_der.proofs.Spelling.{may_begin-only};
    ghost use Rattle.x509_spelling.specs.Spellings.{Holds};
    ghost use Rattle.x509_spelling.specs.RowLaws.{struct_laws};
    ghost use Rattle.x509_spelling.specs.HeldLaws.{laws_injective};
    ghost use Rattle.x509_algorithms.specs.AlgorithmKinds.{kinds_by};
    ghost use Rattle.x509_algorithms.specs.AlgorithmLaws.{injective_by};
    ghost use Rattle.x509_algorithms.specs.DigestRows.{digest_row, one_digest, has_null};

    ghost tree = { λ v. constructed sequence_octet (more (⟦<AlgorithmIdentifier as Serialize>⟧.tree v.oid) (more (⟦<OctetStringAsn1 as Serialize>⟧.tree v.digest) none)) };

    ghost firsts = { only sequence_octet };

    ghost begins = { λ _. may_begin-only sequence_octet };

    ghost injective = { injective_by (λ v. constructed sequence_octet (more (⟦<AlgorithmIdentifier as Serialize>⟧.tree v.oid) (more (⟦<OctetStringAsn1 as Serialize>⟧.tree v.digest) none)))
        (λ v. sequence ⟦<DigestRow as SpelledFields>⟧.row_trees sequence_octet (digest_row v))
        (λ v i. constructed sequence_octet (more (constructed sequence_octet (⟦<ObjectIdentifierAsn1 as SpelledItem>⟧.place v.oid.algorithm (⟦<AlgorithmKinds as Kinds>⟧.row_trees (kinds_by true true (has_null v i)))))
        (more (⟦<OctetStringAsn1 as Serialize>⟧.tree v.digest) none)))
        (laws_injective true (only sequence_octet) (λ v. sequence ⟦<DigestRow as SpelledFields>⟧.row_trees sequence_octet (digest_row v)) (λ v. Holds sequence_octet ⟦<DigestRow as SpelledFields>⟧.spells (digest_row v))
        (struct_laws sequence_octet refl ⟦<DigestRow as SpelledFields>⟧.row_firsts ⟦<DigestRow as SpelledFields>⟧.row_trees ⟦<DigestRow as SpelledFields>⟧.spells
        (⟦<DigestRow as SpelledFields>⟧.row_laws (refl {a = true})) digest_row one_digest)) };

    fn serialize<W: Sink>(&self, to: &mut Serializer<W>) -> Result<usize, Asn1DerError> {
        to.list(SEQUENCE, &fields_of![self; oid, digest])
    }
}

impl Spelled for DigestInfo {
    ghost use Rattle.std.proofs.Common.{refl, true};
    ghost use Rattle.asn1_der.specs.Tree.{constructed, more, none};
    ghost use Rattle.asn1_der.specs.Tagged.{sequence};
    ghost use Rattle.asn1_der.specs.Firsts.{only};
    ghost use Rattle.x509_spelling.specs.Spellings.{Holds};
    ghost use Rattle.x509_spelling.specs.RowLaws.{struct_laws};
    ghost use Rattle.x509_algorithms.specs.AlgorithmKinds.{kinds_by};
    ghost use Rattle.x509_algorithms.specs.DigestRows.{digest_row, one_digest, has_null};

    ghost spells = { λ v. Holds sequence_octet ⟦<DigestRow as SpelledFields>⟧.spells (digest_row v) };

    ghost written = { λ v. sequence ⟦<DigestRow as SpelledFields>⟧.row_trees sequence_octet (digest_row v) };

    ghost begun = { only sequence_octet };

    ghost has_low_tags = { true };

    ghost laws = { struct_laws sequence_octet refl ⟦<DigestRow as SpelledFields>⟧.row_firsts ⟦<DigestRow as SpelledFields>⟧.row_trees ⟦<DigestRow as SpelledFields>⟧.spells
        (⟦<DigestRow as SpelledFields>⟧.row_laws (refl {a = true})) digest_row one_digest };

    fn may_begin_with(first: u8) -> bool {
        first == SEQUENCE
    }

    fn read_counted(alloc: Global, bytes: &[u8]) -> Result<Counted<Self>, X509Fault> {
        let read: Counted<DigestRow> = read_fields(alloc, SEQUENCE, bytes)?;
        let count = read.count;
        let (hash, (digest, ())) = read.into_value();
        let oid = AlgorithmIdentifier::of_hash(hash);
        let value = DigestInfo { oid, digest };
        Ok(Counted { value, count })
    }

    ghost written_is = { λ i v. constructed sequence_octet (more (constructed sequence_octet (⟦<ObjectIdentifierAsn1 as SpelledItem>⟧.place v.oid.algorithm (⟦<AlgorithmKinds as Kinds>⟧.row_trees (kinds_by true true (has_null v i)))))
        (more (⟦<OctetStringAsn1 as Serialize>⟧.tree v.digest) none)) };
}
