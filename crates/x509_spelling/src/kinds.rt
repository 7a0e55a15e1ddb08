//! Kinds of fields, and the object identifiers that tell them.
ghost use Rattle.std.specs.Prelude.{◌≡◌, ℕ, Bool, ◌&&◌, List, IsTrue, MatchResult};
ghost use Rattle.asn1_der.specs.Tree.{Trees};
ghost use Rattle.asn1_der.specs.Firsts.{Firsts, either};
ghost use Rattle.x509_spelling.specs.Spellings.{Joins};
ghost use Rattle.x509_spelling.specs.Answers.{Tells};
ghost use Rattle.x509_spelling.specs.KindLaws.{KindLaws};

use crate::{Counted, SpelledFields, SpelledItem, X509Fault, sum_of};
use byte_streams::Sink;
use picky_asn1::oid::ObjectIdentifier;
use picky_asn1_der::{Asn1DerError, Serializer, WriteFields};
use std::alloc::Global;

/// Fields of one kind, with the object identifiers that denote it.
pub trait Kind: SpelledFields {
    ghost told_by: { List ℕ → Bool };

    /// Whether the identifier denotes this kind.
    fn is_told_by(oid: &ObjectIdentifier) -> bool
        ensures { result ≡ told_by oid.now };
}

/// Fields of one of some kinds: of the first that the object identifier before them denotes.
pub trait Kinds: Sized + Drop {
    ghost belongs: { List ℕ → Self → Bool };

    ghost spells: { Self → List ℕ → ℕ → Type 0 };

    ghost row_trees: { Self → Trees };

    ghost row_firsts: { Firsts };

    ghost is_sound: { Bool };

    ghost kind_laws: { IsTrue is_sound → KindLaws belongs row_firsts row_trees spells };

    /// The fields of the kind that the identifier denotes, and their number of deviations.
    fn read_kind(
        alloc: Global,
        oid: &ObjectIdentifier,
        content: &[u8],
    ) -> Result<Counted<Self>, X509Fault>
        requires { IsTrue is_sound }
        ensures { Tells (λ fields n. IsTrue (belongs oid.now fields) × spells fields content.now n) result };
}

/// The last kind.
#[derive(Drop)]
pub struct LastKind<K>(pub K);

/// One kind, or one of the others.
#[derive(Drop)]
pub enum KindOf<K, B> {
    /// The first kind.
    This(K),
    /// One of the other kinds.
    Other(B),
}

impl<K: Kind> Kinds for LastKind<K> {
    ghost use Rattle.x509_spelling.specs.KindLaws.{last_laws};

    ghost belongs = { λ arcs _. K.told_by arcs };

    ghost spells = { λ last. K.spells last.0 };

    ghost row_trees = { λ last. K.row_trees last.0 };

    ghost row_firsts = { K.row_firsts };

    ghost is_sound = { K.is_sound };

    ghost kind_laws = { λ sound. last_laws K.told_by K.row_firsts K.row_trees K.spells (K.row_laws sound) };

    fn read_kind(
        alloc: Global,
        oid: &ObjectIdentifier,
        content: &[u8],
    ) -> Result<Counted<Self>, X509Fault> {
        if !K::is_told_by(oid) {
            return Err(X509Fault::Meaning);
        }
        let read = K::read_content(alloc, content)?;
        let count = read.count;
        let value = LastKind(read.into_value());
        Ok(Counted { value, count })
    }
}

impl<K: Kind, B: Kinds> Kinds for KindOf<K, B> {
    ghost use Rattle.std.proofs.lemmas.Bool.{and_parts};
    ghost use Rattle.x509_spelling.specs.Kinds.{case_belongs, case_trees, CaseSpells};
    ghost use Rattle.x509_spelling.specs.KindLaws.{case_laws};

    ghost belongs = { case_belongs K.told_by B.belongs };

    ghost spells = { CaseSpells K.spells B.spells };

    ghost row_trees = { case_trees K.row_trees B.row_trees };

    ghost row_firsts = { either K.row_firsts B.row_firsts };

    ghost is_sound = { K.is_sound && B.is_sound };

    ghost kind_laws = { λ sound.
        let parts = and_parts K.is_sound B.is_sound sound in
        case_laws K.told_by K.row_firsts K.row_trees K.spells (K.row_laws parts.0) B.belongs B.row_firsts B.row_trees B.spells (B.kind_laws parts.1) };

    fn read_kind(
        alloc: Global,
        oid: &ObjectIdentifier,
        content: &[u8],
    ) -> Result<Counted<Self>, X509Fault> {
        if K::is_told_by(oid) {
            let read = K::read_content(alloc, content)?;
            let count = read.count;
            let value = KindOf::This(read.into_value());
            return Ok(Counted { value, count });
        }
        let read = B::read_kind(alloc, oid, content)?;
        let count = read.count;
        let value = KindOf::Other(read.into_value());
        Ok(Counted { value, count })
    }
}

impl<H: SpelledItem, B: Kinds> Kinds for (H, B) {
    ghost use Rattle.std.proofs.lemmas.Bool.{and_parts};
    ghost use Rattle.x509_spelling.specs.KindLaws.{joined_laws};

    ghost belongs = { λ arcs fields. B.belongs arcs fields.1 };

    ghost spells = { λ fields. Joins H.leads B.spells fields.0 fields.1 };

    ghost row_trees = { λ fields. H.place fields.0 (B.row_trees fields.1) };

    ghost row_firsts = { H.before B.row_firsts };

    ghost is_sound = { H.is_told B.row_firsts && B.is_sound };

    ghost kind_laws = { λ sound.
        let parts = and_parts (H.is_told B.row_firsts) B.is_sound sound in
        joined_laws H.before H.is_told H.place H.leads H.field_laws B.belongs B.row_firsts B.row_trees B.spells (B.kind_laws parts.1) parts.0 };

    fn read_kind(
        alloc: Global,
        oid: &ObjectIdentifier,
        content: &[u8],
    ) -> Result<Counted<(H, B)>, X509Fault> {
        let (head, rest) = H::read_field(alloc, content)?;
        let tail = B::read_kind(alloc, oid, rest)?;
        let count = sum_of(head.count, tail.count)?;
        Ok(Counted {
            value: (head.into_value(), tail.into_value()),
            count,
        })
    }
}

impl<K: WriteFields> WriteFields for LastKind<K> {
    ghost trees = { λ last. K.trees last.0 };

    ghost refusal = { λ last. K.refusal last.0 };

    fn write<W: Sink>(&self, to: &mut Serializer<W>) -> Result<usize, Asn1DerError> {
        self.0.write(to)
    }
}

impl<K: WriteFields, B: WriteFields> WriteFields for KindOf<K, B> {
    ghost use Rattle.x509_spelling.specs.Kinds.{case_trees, case_refusal};

    ghost trees = { case_trees K.trees B.trees };

    ghost refusal = { case_refusal K.refusal B.refusal };

    fn write<W: Sink>(&self, to: &mut Serializer<W>) -> Result<usize, Asn1DerError> {
        match self {
            KindOf::This(fields) => fields.write(to),
            KindOf::Other(others) => others.write(to),
        }
    }
}
