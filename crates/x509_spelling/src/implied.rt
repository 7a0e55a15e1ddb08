//! Fields that are written even where they have their default value, and may be missing in what is read.
ghost use Rattle.std.specs.Prelude.{◌≡◌, ℕ, List, IsTrue, MatchResult};
ghost use Rattle.asn1_der.specs.Tree.{more, IsWhole};
ghost use Rattle.asn1_der.specs.Firsts.{either};
ghost use Rattle.x509_spelling.specs.Spellings.{LeadsImplied};
ghost use Rattle.x509_spelling.specs.Answers.{IsRefusal};

use crate::counted::Counted;
use crate::fault::X509Fault;
use crate::fields::{Deviates, SpelledItem};
use crate::front::{is_next, read_front};
use crate::spelled::Spelled;
use std::alloc::Global;

/// A field that is always written strictly. Where it is missing it has its default value, which is a deviation.
#[derive(Drop)]
pub struct Implied<T>(pub T);

/// A type whose default value can be written.
pub trait Implies: Spelled + Deviates {
    ghost default_is_whole: { (value : Self) → IsTrue (Self.is_default_value value) → IsWhole (Self.written value) };
}

impl<H: Implies> SpelledItem for Implied<H> {
    ghost use Rattle.x509_spelling.specs.FieldLaws.{implied_laws, held_field};

    ghost leads = { λ value. LeadsImplied H.begun H.written H.spells H.is_default_value H.deviation value.0 };

    ghost place = { λ value trees. more (H.written value.0) trees };

    ghost before = { λ others. either H.begun others };

    ghost is_told = { λ _. H.has_low_tags };

    ghost field_laws = { held_field (λ others. either H.begun others) (λ _. H.has_low_tags)
        (λ value trees. more (H.written value) trees) (LeadsImplied H.begun H.written H.spells H.is_default_value H.deviation)
        (implied_laws H.has_low_tags H.begun H.written H.spells H.laws H.is_default_value H.one_default H.deviation) (λ value. value.0) (λ v w e. λ i. record { 0 = e i }) };

    fn read_field(alloc: Global, bytes: &[u8]) -> Result<(Counted<Self>, &[u8]), X509Fault> {
        if !is_next::<H>(bytes) {
            let value = H::default_value(alloc)?;
            let missing = Counted {
                value: Implied(value),
                count: 1,
            };
            return Ok((missing, bytes));
        }
        let (read, rest) = read_front::<H>(alloc, bytes)?;
        let count = read.count;
        let value = Implied(read.into_value());
        Ok((Counted { value, count }, rest))
    }
}
