//! Private keys with their algorithms, without the rule on their version (RFC 5958, section 2).
ghost use Rattle.std.specs.Prelude.{◌≡◌, ◌==◌, ℕ, List, true, IsTrue, MatchResult};
ghost use Rattle.x509_keys.specs.PrivateKeys.{is_private_of, private_kinds, version_with};
ghost use Rattle.asn1_der.specs.Octets.{sequence_octet};

use crate::private_key_value::{
    PrivateKeyValue, PrivateKinds, PublicKeyField, copied_field, parts_of,
};
use asn1_der::octets::SEQUENCE;
use byte_streams::Sink;
use picky_asn1_der::{Asn1DerError, Serialize, Serializer, TagNumber};
use std::alloc::{AllocError, Global};
use x509_algorithms::AlgorithmIdentifier;
use x509_spelling::{
    Agreeing, Ahead, Counted, Identified, Kinds, Spelled, SpelledItem, X509Fault,
    read_chosen_behind,
};

/// The fields of a private key with its algorithm, of any version.
#[derive(Debug, Drop, PartialEq, Eq)]
pub struct PrivateKeyFields {
    /// The version.
    pub version: u8,
    pub(crate) private_key_algorithm: AlgorithmIdentifier,
    pub(crate) private_key: PrivateKeyValue,
    pub(crate) public_key: PublicKeyField,
    pub ghost of_its_algorithm: { IsTrue (is_private_of private_key_algorithm.algorithm.0 private_key public_key) },
}

impl Clone for PrivateKeyFields {
    ghost is_clone = { λ fields copy. copy ≡ fields };

    fn clone(&self) -> Result<PrivateKeyFields, AllocError> {
        let private_key_algorithm = self.private_key_algorithm.clone()?;
        let private_key = self.private_key.clone()?;
        let public_key = copied_field(&self.public_key)?;
        Ok(PrivateKeyFields {
            version: self.version,
            private_key_algorithm,
            private_key,
            public_key,
        })
    }
}

/// The version is 1 where there is a public key, and else 0.
impl Agreeing for PrivateKeyFields {
    ghost agrees = { λ v. v.version == version_with v.public_key.0 };

    fn agree(&self) -> bool {
        let version = match &self.public_key.0 {
            Some(_) => 1,
            None => 0,
        };
        self.version == version
    }
}

impl Serialize for PrivateKeyFields {
    ghost use Rattle.std.proofs.Common.{refl, true};
    ghost use Rattle.asn1_der.specs.Tree.{more};
    ghost use Rattle.asn1_der.specs.Tagged.{sequence};
    ghost use Rattle.asn1_der.specs.Firsts.{only};
    ghost use Rattle.asn1_der.proofs.Spelling.{may_begin-only};
    ghost use Rattle.x509_spelling.specs.HeldLaws.{laws_injective};
    ghost use Rattle.x509_spelling.specs.Spellings.{Holds, Joins, Leads};
    ghost use Rattle.x509_spelling.specs.BehindLaws.{behind_laws};
    ghost use Rattle.x509_keys.specs.PrivateLaws.{private_row, same_private};

    ghost tree = { λ v. sequence (λ f. more (⟦<u8 as Spelled>⟧.written f.0) (⟦<AlgorithmIdentifier as SpelledItem>⟧.place f.1.0 (⟦<PrivateKinds as Kinds>⟧.row_trees f.1.1))) sequence_octet (private_row v) };

    ghost firsts = { only sequence_octet };

    ghost begins = { λ _. may_begin-only sequence_octet };

    ghost injective = { laws_injective true (only sequence_octet) (λ v. sequence (λ f. more (⟦<u8 as Spelled>⟧.written f.0) (⟦<AlgorithmIdentifier as SpelledItem>⟧.place f.1.0 (⟦<PrivateKinds as Kinds>⟧.row_trees f.1.1))) sequence_octet (private_row v))
        (λ v. Holds sequence_octet (λ f. Joins (Leads ⟦<u8 as Spelled>⟧.spells) (λ g. Joins ⟦<AlgorithmIdentifier as SpelledItem>⟧.leads ⟦<PrivateKinds as Kinds>⟧.spells g.0 g.1) f.0 f.1) (private_row v))
        (behind_laws ⟦<AlgorithmIdentifier as SpelledItem>⟧.before ⟦<AlgorithmIdentifier as SpelledItem>⟧.is_told ⟦<AlgorithmIdentifier as SpelledItem>⟧.place
        ⟦<AlgorithmIdentifier as SpelledItem>⟧.leads ⟦<AlgorithmIdentifier as SpelledItem>⟧.field_laws
        ⟦<PrivateKinds as Kinds>⟧.belongs ⟦<PrivateKinds as Kinds>⟧.row_firsts ⟦<PrivateKinds as Kinds>⟧.row_trees ⟦<PrivateKinds as Kinds>⟧.spells
        (⟦<PrivateKinds as Kinds>⟧.kind_laws (refl {a = true})) ⟦<u8 as Spelled>⟧.has_low_tags ⟦<u8 as Spelled>⟧.begun ⟦<u8 as Spelled>⟧.written ⟦<u8 as Spelled>⟧.spells ⟦<u8 as Spelled>⟧.laws
        (refl {a = true}) (refl {a = true}) ⟦<AlgorithmIdentifier as Identified>⟧.arcs_of private_row same_private (λ v. v.of_its_algorithm)) };

    fn serialize<W: Sink>(&self, to: &mut Serializer<W>) -> Result<usize, Asn1DerError> {
        let algorithm = &self.private_key_algorithm;
        let public_key = &self.public_key;
        match &self.private_key {
            PrivateKeyValue::Rsa(key) => to.list(
                SEQUENCE,
                &(&self.version, Ahead(algorithm, (key, (public_key, ())))),
            ),
            PrivateKeyValue::EC(key) => to.list(
                SEQUENCE,
                &(&self.version, Ahead(algorithm, (key, (public_key, ())))),
            ),
            PrivateKeyValue::ED(key) => to.list(
                SEQUENCE,
                &(&self.version, Ahead(algorithm, (key, (public_key, ())))),
            ),
        }
    }
}

impl Spelled for PrivateKeyFields {
    ghost use Rattle.std.proofs.Common.{refl, true};
    ghost use Rattle.asn1_der.specs.Tree.{more};
    ghost use Rattle.asn1_der.specs.Tagged.{sequence};
    ghost use Rattle.asn1_der.specs.Firsts.{only};
    ghost use Rattle.x509_spelling.specs.Spellings.{Holds, Joins, Leads};
    ghost use Rattle.x509_spelling.specs.BehindLaws.{behind_laws};
    ghost use Rattle.x509_keys.specs.PrivateLaws.{private_row, same_private};

    ghost spells = { λ v. Holds sequence_octet (λ f. Joins (Leads ⟦<u8 as Spelled>⟧.spells) (λ g. Joins ⟦<AlgorithmIdentifier as SpelledItem>⟧.leads ⟦<PrivateKinds as Kinds>⟧.spells g.0 g.1) f.0 f.1) (private_row v) };

    ghost written = { λ v. sequence (λ f. more (⟦<u8 as Spelled>⟧.written f.0) (⟦<AlgorithmIdentifier as SpelledItem>⟧.place f.1.0 (⟦<PrivateKinds as Kinds>⟧.row_trees f.1.1))) sequence_octet (private_row v) };

    ghost begun = { only sequence_octet };

    ghost has_low_tags = { true };

    ghost laws = { behind_laws ⟦<AlgorithmIdentifier as SpelledItem>⟧.before ⟦<AlgorithmIdentifier as SpelledItem>⟧.is_told ⟦<AlgorithmIdentifier as SpelledItem>⟧.place
        ⟦<AlgorithmIdentifier as SpelledItem>⟧.leads ⟦<AlgorithmIdentifier as SpelledItem>⟧.field_laws
        ⟦<PrivateKinds as Kinds>⟧.belongs ⟦<PrivateKinds as Kinds>⟧.row_firsts ⟦<PrivateKinds as Kinds>⟧.row_trees ⟦<PrivateKinds as Kinds>⟧.spells
        (⟦<PrivateKinds as Kinds>⟧.kind_laws (refl {a = true})) ⟦<u8 as Spelled>⟧.has_low_tags ⟦<u8 as Spelled>⟧.begun ⟦<u8 as Spelled>⟧.written ⟦<u8 as Spelled>⟧.spells ⟦<u8 as Spelled>⟧.laws
        (refl {a = true}) (refl {a = true}) ⟦<AlgorithmIdentifier as Identified>⟧.arcs_of private_row same_private (λ v. v.of_its_algorithm) };

    fn may_begin_with(first: u8) -> bool {
        first == SEQUENCE
    }

    fn read_counted(alloc: Global, bytes: &[u8]) -> Result<Counted<Self>, X509Fault> {
        // The public key's tag: the check wants each type that the call's impls name among this function's own.
        let TagNumber = TagNumber::<1>;
        let read: Counted<(u8, (AlgorithmIdentifier, PrivateKinds))> = read_chosen_behind(
            alloc, SEQUENCE, bytes,
        )?;
        let count = read.count;
        let (version, (private_key_algorithm, kinds)) = read.into_value();
        let (private_key, public_key) = parts_of(kinds);
        let value = PrivateKeyFields {
            version,
            private_key_algorithm,
            private_key,
            public_key,
        };
        Ok(Counted { value, count })
    }

    ghost written_is = { refl };
}
