//! The identifier of a hash in front of a digest (RFC 8017, section 9.2).
ghost use Rattle.std.specs.Prelude.{◌≡◌, ℕ, List, true, IsTrue, MatchResult};
ghost use Rattle.asn1_leaves.specs.ObjectIdentifier.{oid_content};
ghost use Rattle.x509_algorithms.specs.AlgorithmClasses.{is_hash};
ghost use Rattle.asn1_der.specs.Octets.{sequence_octet};

use crate::algorithm_class::Hashes;
use crate::{HashNull, Null};
use asn1_der::octets::SEQUENCE;
use byte_streams::Sink;
use picky_asn1::wrapper::ObjectIdentifierAsn1;
use picky_asn1_der::{Asn1DerError, Serialize, Serializer};
use std::alloc::Global;
use x509_spelling::{
    Counted, Implied, Kinds, LastKind, Spelled, SpelledItem, ToldBy, X509Fault, read_identified,
};

/// A hash by its identifier, with NULL. Where NULL is missing that deviates.
#[derive(Drop)]
pub struct HashIdentifier {
    oid: ObjectIdentifierAsn1,
    pub ghost of_a_hash: { IsTrue (is_hash (oid_content oid.0)) },
}

type HashKinds = LastKind<ToldBy<Hashes, (Implied<Null<HashNull>>, ())>>;

impl HashIdentifier {
    /// The identifier.
    pub(crate) fn into_oid(self) -> ObjectIdentifierAsn1
        ensures value { result ≡ self.oid }
        ensures hash { IsTrue (is_hash (oid_content result.0)) }
    {
        let HashIdentifier { oid } = self;
        oid
    }
}

impl Serialize for HashIdentifier {
    ghost use Rattle.std.proofs.Common.{refl, true};
    ghost use Rattle.asn1_der.specs.Tagged.{sequence};
    ghost use Rattle.asn1_der.specs.Firsts.{only};
    ghost use Rattle.asn1_der.proofs.Spelling.{may_begin-only};
    ghost use Rattle.x509_spelling.specs.HeldLaws.{laws_injective};
    ghost use Rattle.x509_spelling.specs.KindLaws.{identified_laws};
    ghost use Rattle.x509_spelling.specs.Spellings.{Holds, Joins};
    ghost use Rattle.x509_algorithms.specs.HashIdentifiers.{hash_row, same_hash_row};

    ghost tree = { λ v. sequence (λ f. ⟦<ObjectIdentifierAsn1 as SpelledItem>⟧.place f.0 (⟦<HashKinds as Kinds>⟧.row_trees f.1)) sequence_octet (hash_row v) };

    ghost firsts = { only sequence_octet };

    ghost begins = { λ _. may_begin-only sequence_octet };

    ghost injective = { laws_injective true (only sequence_octet) (λ v. sequence (λ f. ⟦<ObjectIdentifierAsn1 as SpelledItem>⟧.place f.0 (⟦<HashKinds as Kinds>⟧.row_trees f.1)) sequence_octet (hash_row v)) (λ v. Holds sequence_octet (λ f. Joins ⟦<ObjectIdentifierAsn1 as SpelledItem>⟧.leads ⟦<HashKinds as Kinds>⟧.spells f.0 f.1) (hash_row v))
        (identified_laws ⟦<ObjectIdentifierAsn1 as SpelledItem>⟧.before ⟦<ObjectIdentifierAsn1 as SpelledItem>⟧.is_told ⟦<ObjectIdentifierAsn1 as SpelledItem>⟧.place
        ⟦<ObjectIdentifierAsn1 as SpelledItem>⟧.leads ⟦<ObjectIdentifierAsn1 as SpelledItem>⟧.field_laws
        ⟦<HashKinds as Kinds>⟧.belongs ⟦<HashKinds as Kinds>⟧.row_firsts ⟦<HashKinds as Kinds>⟧.row_trees ⟦<HashKinds as Kinds>⟧.spells
        (⟦<HashKinds as Kinds>⟧.kind_laws (refl {a = true})) (refl {a = true}) hash_row same_hash_row (λ v. v.of_a_hash)) };

    fn serialize<W: Sink>(&self, to: &mut Serializer<W>) -> Result<usize, Asn1DerError> {
        to.list(SEQUENCE, &(&self.oid, (&(), ())))
    }
}

impl Spelled for HashIdentifier {
    ghost use Rattle.std.proofs.Common.{refl, true};
    ghost use Rattle.asn1_der.specs.Tagged.{sequence};
    ghost use Rattle.asn1_der.specs.Firsts.{only};
    ghost use Rattle.x509_spelling.specs.KindLaws.{identified_laws};
    ghost use Rattle.x509_spelling.specs.Spellings.{Holds, Joins};
    ghost use Rattle.x509_algorithms.specs.HashIdentifiers.{hash_row, same_hash_row};

    ghost spells = { λ v. Holds sequence_octet (λ f. Joins ⟦<ObjectIdentifierAsn1 as SpelledItem>⟧.leads ⟦<HashKinds as Kinds>⟧.spells f.0 f.1) (hash_row v) };

    ghost written = { λ v. sequence (λ f. ⟦<ObjectIdentifierAsn1 as SpelledItem>⟧.place f.0 (⟦<HashKinds as Kinds>⟧.row_trees f.1)) sequence_octet (hash_row v) };

    ghost begun = { only sequence_octet };

    ghost has_low_tags = { true };

    ghost laws = { identified_laws ⟦<ObjectIdentifierAsn1 as SpelledItem>⟧.before ⟦<ObjectIdentifierAsn1 as SpelledItem>⟧.is_told ⟦<ObjectIdentifierAsn1 as SpelledItem>⟧.place
        ⟦<ObjectIdentifierAsn1 as SpelledItem>⟧.leads ⟦<ObjectIdentifierAsn1 as SpelledItem>⟧.field_laws
        ⟦<HashKinds as Kinds>⟧.belongs ⟦<HashKinds as Kinds>⟧.row_firsts ⟦<HashKinds as Kinds>⟧.row_trees ⟦<HashKinds as Kinds>⟧.spells
        (⟦<HashKinds as Kinds>⟧.kind_laws (refl {a = true})) (refl {a = true}) hash_row same_hash_row (λ v. v.of_a_hash) };

    fn may_begin_with(first: u8) -> bool {
        first == SEQUENCE
    }

    fn read_counted(alloc: Global, bytes: &[u8]) -> Result<Counted<Self>, X509Fault> {
        let read: Counted<(ObjectIdentifierAsn1, HashKinds)> = read_identified(
            alloc, SEQUENCE, bytes,
        )?;
        let count = read.count;
        let (oid, _null) = read.into_value();
        let value = HashIdentifier { oid };
        Ok(Counted { value, count })
    }

    ghost written_is = { refl };
}
