//! The fields of a SEQUENCE, as a row of pairs: each field may deviate, and the counts are summed.
ghost use Rattle.std.specs.Prelude.{◌≡◌, ℕ, Bool, true, ◌&&◌, List, [], IsTrue, MatchResult};
ghost use Rattle.asn1_der.specs.Tree.{Trees, none, more, put};
ghost use Rattle.asn1_der.specs.Firsts.{Firsts, one_of, either, apart};
ghost use Rattle.x509_spelling.specs.Spellings.{Leads, LeadsOptional, LeadsDefault, IsEnd, Joins};
ghost use Rattle.x509_spelling.specs.Laws.{FieldLaws, RowLaws};
ghost use Rattle.x509_spelling.specs.Answers.{IsRefusal, Tells};

use crate::counted::{Counted, sum_of};
use crate::fault::X509Fault;
use crate::front::{is_next, read_front};
use crate::spelled::Spelled;
use picky_asn1_der::{DefaultField, HasDefault, Optional};
use std::alloc::Global;

/// Fields that take up all of a content.
pub trait SpelledFields: Sized + Drop {
    ghost spells: { Self → List ℕ → ℕ → Type 0 };

    ghost row_trees: { Self → Trees };

    ghost row_firsts: { Firsts };

    ghost is_sound: { Bool };

    ghost row_laws: { IsTrue is_sound → RowLaws row_firsts row_trees spells };

    /// The fields of which the bytes are a spelling, and how many deviations are there.
    fn read_content(alloc: Global, content: &[u8]) -> Result<Counted<Self>, X509Fault>
        requires { IsTrue is_sound }
        ensures { Tells (λ fields n. spells fields content.now n) result };
}

/// A field in front of others.
pub trait SpelledItem: Sized + Drop {
    ghost leads: { Self → List ℕ → List ℕ → ℕ → Type 0 };

    ghost place: { Self → Trees → Trees };

    ghost before: { Firsts → Firsts };

    ghost is_told: { Firsts → Bool };

    ghost field_laws: { FieldLaws before is_told place leads };

    /// Reads the field that begins the bytes. Returns it with its number of deviations, and the bytes after it.
    fn read_field(alloc: Global, bytes: &[u8]) -> Result<(Counted<Self>, &[u8]), X509Fault>
        ensures { MatchResult result
            (λ read. leads read.0.value bytes.now read.1.now read.0.count)
            (IsRefusal (λ (field : Self) n. (rest : List ℕ) × leads field bytes.now rest n)) };
}

/// A type with a default, for which a spelling may deviate: [`DefaultField`] or [`Implied`] says how.
pub trait Deviates: HasDefault {
    ghost use Rattle.x509_spelling.specs.Deviations.{Deviation};

    ghost deviation: { Deviation };
}

impl SpelledFields for () {
    ghost use Rattle.std.specs.Prelude.{refl};
    ghost use Rattle.x509_spelling.specs.RowLaws.{end_laws};

    ghost spells = { λ _ bytes n. IsEnd bytes n };

    ghost row_trees = { λ _. none };

    ghost row_firsts = { one_of [] };

    ghost is_sound = { true };

    ghost row_laws = { λ _. end_laws (λ v w. refl) };

    fn read_content(_alloc: Global, content: &[u8]) -> Result<Counted<()>, X509Fault> {
        if !content.is_empty() {
            return Err(X509Fault::Der);
        }
        Ok(Counted {
            value: (),
            count: 0,
        })
    }
}

impl<H: SpelledItem, T: SpelledFields> SpelledFields for (H, T) {
    ghost use Rattle.std.proofs.lemmas.Bool.{and_parts};
    ghost use Rattle.x509_spelling.specs.RowLaws.{pair_laws};

    ghost spells = { λ fields. Joins H.leads T.spells fields.0 fields.1 };

    ghost row_trees = { λ fields. H.place fields.0 (T.row_trees fields.1) };

    ghost row_firsts = { H.before T.row_firsts };

    ghost is_sound = { H.is_told T.row_firsts && T.is_sound };

    ghost row_laws = { λ sound.
        let parts = and_parts (H.is_told T.row_firsts) T.is_sound sound in
        pair_laws H.before H.is_told H.place H.leads H.field_laws T.row_firsts T.row_trees T.spells (T.row_laws parts.1) parts.0 };

    fn read_content(alloc: Global, content: &[u8]) -> Result<Counted<(H, T)>, X509Fault> {
        let (head, rest) = H::read_field(alloc, content)?;
        let tail = T::read_content(alloc, rest)?;
        let count = sum_of(head.count, tail.count)?;
        Ok(Counted {
            value: (head.into_value(), tail.into_value()),
            count,
        })
    }
}

impl<H: Spelled> SpelledItem for H {
    ghost use Rattle.x509_spelling.specs.FieldLaws.{required_laws};

    ghost leads = { Leads H.spells };

    ghost place = { λ value trees. more (H.written value) trees };

    ghost before = { λ _. H.begun };

    ghost is_told = { λ _. H.has_low_tags };

    ghost field_laws = { required_laws H.has_low_tags H.begun H.written H.spells H.laws };

    fn read_field(alloc: Global, bytes: &[u8]) -> Result<(Counted<H>, &[u8]), X509Fault> {
        read_front(alloc, bytes)
    }
}

impl<H: Spelled> SpelledItem for Optional<Option<H>> {
    ghost use Rattle.x509_spelling.specs.FieldLaws.{optional_laws, held_field};

    ghost leads = { λ value. LeadsOptional H.begun H.spells value.0 };

    ghost place = { λ value. put H.written value.0 };

    ghost before = { λ others. either H.begun others };

    ghost is_told = { λ others. H.has_low_tags && apart H.begun others };

    ghost field_laws = { held_field (λ others. either H.begun others) (λ others. H.has_low_tags && apart H.begun others) (put H.written) (LeadsOptional H.begun H.spells)
        (optional_laws H.has_low_tags H.begun H.written H.spells H.laws) (λ value. value.0) (λ v w e. λ i. record { 0 = e i }) };

    fn read_field(alloc: Global, bytes: &[u8]) -> Result<(Counted<Self>, &[u8]), X509Fault> {
        if !is_next::<H>(bytes) {
            let missing = Counted {
                value: Optional(None),
                count: 0,
            };
            return Ok((missing, bytes));
        }
        let (read, rest) = read_front::<H>(alloc, bytes)?;
        let count = read.count;
        let value = Optional(Some(read.into_value()));
        Ok((Counted { value, count }, rest))
    }
}

impl<H: Spelled + Deviates> SpelledItem for DefaultField<H> {
    ghost use Rattle.picky_asn1_der.specs.Defaults.{told_value};
    ghost use Rattle.x509_spelling.specs.FieldLaws.{default_laws, held_field};

    ghost leads = { λ value. LeadsDefault H.begun H.spells H.is_default_value H.deviation value.0 };

    ghost place = { λ value trees. put H.written (told_value H.is_default_value value.0) trees };

    ghost before = { λ others. either H.begun others };

    ghost is_told = { λ others. H.has_low_tags && apart H.begun others };

    ghost field_laws = { held_field (λ others. either H.begun others) (λ others. H.has_low_tags && apart H.begun others)
        (λ value trees. put H.written (told_value H.is_default_value value) trees) (LeadsDefault H.begun H.spells H.is_default_value H.deviation)
        (default_laws H.has_low_tags H.begun H.written H.spells H.laws H.is_default_value H.one_default H.deviation) (λ value. value.0) (λ v w e. λ i. record { 0 = e i }) };

    fn read_field(alloc: Global, bytes: &[u8]) -> Result<(Counted<Self>, &[u8]), X509Fault> {
        if !is_next::<H>(bytes) {
            let value = H::default_value(alloc)?;
            let missing = Counted {
                value: DefaultField(value),
                count: 0,
            };
            return Ok((missing, bytes));
        }
        let (read, rest) = read_front::<H>(alloc, bytes)?;
        let spelled_out = usize::from(read.value.is_default());
        let count = sum_of(read.count, spelled_out)?;
        let value = DefaultField(read.into_value());
        Ok((Counted { value, count }, rest))
    }
}
