//! A SET OF with one value (X.690, section 8.12).
ghost use Rattle.std.specs.Prelude.{◌≡◌, true, MatchResult};
ghost use Rattle.asn1_der.specs.Tree.{wrapped};
ghost use Rattle.asn1_der.specs.Firsts.{only};
ghost use Rattle.asn1_der.specs.Refusals.{part_refusal};
ghost use Rattle.x509_spelling.specs.Spellings.{Holds};
ghost use Rattle.x509_spelling.specs.Answers.{Tells};
ghost use Rattle.asn1_der.specs.Octets.{set_octet};

use asn1_der::octets::SET;
use byte_streams::{Sink, Source};
use picky_asn1_der::{Asn1DerError, Deserialize, Deserializer, Serialize, Serializer};
use std::alloc::Global;
use x509_spelling::{Counted, Spelled, X509Fault, read_held};

/// A SET OF with exactly one value: none and several aren't read.
#[derive(Drop)]
pub struct SetOfOne<T>(pub T);

impl<T: Serialize> Serialize for SetOfOne<T> {
    ghost use Rattle.std.specs.Prelude.{refl};
    ghost use Rattle.asn1_der.specs.Seen.{Alike, seen_part};
    ghost use Rattle.asn1_der.proofs.Alike.{alike-part};
    ghost use Rattle.asn1_der.proofs.Spelling.{wrapped-begins, wrapped-injective_as};

    ghost tree = { λ value. wrapped set_octet (T.tree value.0) };

    ghost seen = { seen_part (λ value. value.0) T.seen };

    ghost refusal = { part_refusal (λ value. value.0) T.refusal };

    ghost firsts = { only set_octet };

    ghost begins = { λ value. wrapped-begins set_octet (T.tree value.0) };

    ghost injective = { λ v w whole also e.
        let same = wrapped-injective_as (Alike T.seen) set_octet T.tree T.injective v.0 w.0 whole also e
        in alike-part T.seen v w (λ value. value.0) (λ held. record { 0 = held }) (λ value. refl) same };

    fn serialize<W: Sink>(&self, to: &mut Serializer<W>) -> Result<usize, Asn1DerError> {
        to.wrapped(SET, &self.0)
    }
}

impl<T: Deserialize + Drop> Deserialize for SetOfOne<T> {
    fn may_start(first: u8) -> bool {
        first == SET
    }

    fn deserialize<R: Source>(from: &mut Deserializer<R>) -> Result<Self, Asn1DerError> {
        let value = from.wrapped(SET)?;
        Ok(SetOfOne(value))
    }
}

impl<T: Spelled> Spelled for SetOfOne<T> {
    ghost use Rattle.std.proofs.Common.{ap, refl};
    ghost use Rattle.x509_spelling.specs.Laws.{held_laws};
    ghost use Rattle.x509_spelling.specs.HeldLaws.{holding_laws};

    ghost spells = { λ value. Holds set_octet T.spells value.0 };

    ghost written = { λ value. wrapped set_octet (T.written value.0) };

    ghost begun = { only set_octet };

    ghost has_low_tags = { true };

    ghost laws = { held_laws true (only set_octet) (λ v. wrapped set_octet (T.written v)) (Holds set_octet T.spells)
        (holding_laws set_octet refl T.has_low_tags T.begun T.written T.spells T.laws) (λ value. value.0) (λ v w e. λ i. record { 0 = e i }) };

    fn may_begin_with(first: u8) -> bool {
        first == SET
    }

    fn read_counted(alloc: Global, bytes: &[u8]) -> Result<Counted<Self>, X509Fault> {
        let read = read_held::<T>(alloc, SET, bytes)?;
        let count = read.count;
        let value = SetOfOne(read.into_value());
        Ok(Counted { value, count })
    }

    ghost written_is = { ap (λ tree value. wrapped set_octet (tree value.0)) T.written_is };
}
