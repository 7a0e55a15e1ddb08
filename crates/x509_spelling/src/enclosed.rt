//! Values whose spelling is the content of an octet string, or is under a further tag.
ghost use Rattle.std.specs.Prelude.{◌≡◌, ◌+◌, ◌%◌, true, MatchResult};
ghost use Rattle.asn1_der.specs.Tree.{wrapped};
ghost use Rattle.asn1_der.specs.Firsts.{only};
ghost use Rattle.asn1_der.specs.Refusals.{part_refusal};
ghost use Rattle.picky_asn1_der.specs.Raw.{has_low_number};
ghost use Rattle.x509_spelling.specs.Spellings.{Holds};
ghost use Rattle.x509_spelling.specs.Answers.{Tells};
ghost use Rattle.asn1_der.specs.Octets.{octet_string_octet};

use crate::{Counted, Spelled, X509Fault, content_of};
use asn1_der::octets::OCTET_STRING;
use byte_streams::Sink;
use picky_asn1_der::{Asn1DerError, Serialize, Serializer};
use std::alloc::Global;

/// A value whose spelling an OCTET STRING holds. What deviates there counts.
#[derive(Drop)]
pub struct Enclosed<T>(pub T);

/// A value whose spelling is under the explicit context tag `N`, which is below 16.
#[derive(Clone, Copy, Debug, Drop, PartialEq, Eq)]
pub struct Explicit<const N: u8, T>(pub T);

impl<T: Serialize> Serialize for Enclosed<T> {
    ghost use Rattle.std.specs.Prelude.{refl};
    ghost use Rattle.asn1_der.specs.Seen.{Alike, seen_part};
    ghost use Rattle.asn1_der.proofs.Alike.{alike-part};
    ghost use Rattle.asn1_der.proofs.Spelling.{wrapped-begins, wrapped-injective_as};

    ghost tree = { λ value. wrapped octet_string_octet (T.tree value.0) };

    ghost seen = { seen_part (λ value. value.0) T.seen };

    ghost refusal = { part_refusal (λ value. value.0) T.refusal };

    ghost firsts = { only octet_string_octet };

    ghost begins = { λ value. wrapped-begins octet_string_octet (T.tree value.0) };

    ghost injective = { λ v w whole also e.
        let same = wrapped-injective_as (Alike T.seen) octet_string_octet T.tree T.injective v.0 w.0 whole also e
        in alike-part T.seen v w (λ value. value.0) (λ held. record { 0 = held }) (λ value. refl) same };

    fn serialize<W: Sink>(&self, to: &mut Serializer<W>) -> Result<usize, Asn1DerError> {
        to.wrapped(OCTET_STRING, &self.0)
    }
}

impl<T: Spelled> Spelled for Enclosed<T> {
    ghost use Rattle.std.proofs.Common.{ap, refl};
    ghost use Rattle.x509_spelling.specs.Laws.{held_laws};
    ghost use Rattle.x509_spelling.specs.HeldLaws.{holding_laws};

    ghost spells = { λ value. Holds octet_string_octet T.spells value.0 };

    ghost written = { λ value. wrapped octet_string_octet (T.written value.0) };

    ghost begun = { only octet_string_octet };

    ghost has_low_tags = { true };

    ghost laws = { held_laws true (only octet_string_octet) (λ v. wrapped octet_string_octet (T.written v)) (Holds octet_string_octet T.spells)
        (holding_laws octet_string_octet refl T.has_low_tags T.begun T.written T.spells T.laws) (λ value. value.0) (λ v w e. λ i. record { 0 = e i }) };

    fn may_begin_with(first: u8) -> bool {
        first == OCTET_STRING
    }

    fn read_counted(alloc: Global, bytes: &[u8]) -> Result<Counted<Self>, X509Fault> {
        let read = read_held::<T>(alloc, OCTET_STRING, bytes)?;
        let count = read.count;
        let value = Enclosed(read.into_value());
        Ok(Counted { value, count })
    }

    ghost written_is = { ap (λ tree value. wrapped octet_string_octet (tree value.0)) T.written_is };
}

impl<const N: u8, T: Serialize> Serialize for Explicit<N, T> {
    ghost use Rattle.std.specs.Prelude.{refl};
    ghost use Rattle.asn1_der.specs.Seen.{Alike, seen_part};
    ghost use Rattle.asn1_der.proofs.Alike.{alike-part};
    ghost use Rattle.asn1_der.proofs.Spelling.{wrapped-begins, wrapped-injective_as};

    ghost tree = { λ value. wrapped (160 + N % 16) (T.tree value.0) };

    ghost seen = { seen_part (λ value. value.0) T.seen };

    ghost refusal = { part_refusal (λ value. value.0) T.refusal };

    ghost firsts = { only (160 + N % 16) };

    ghost begins = { λ value. wrapped-begins (160 + N % 16) (T.tree value.0) };

    ghost injective = { λ v w whole also e.
        let same = wrapped-injective_as (Alike T.seen) (160 + N % 16) T.tree T.injective v.0 w.0 whole also e
        in alike-part T.seen v w (λ value. value.0) (λ held. record { 0 = held }) (λ value. refl) same };

    fn serialize<W: Sink>(&self, to: &mut Serializer<W>) -> Result<usize, Asn1DerError> {
        to.wrapped(160 + N % 16, &self.0)
    }
}

impl<const N: u8, T: Spelled> Spelled for Explicit<N, T> {
    ghost use Rattle.std.proofs.Common.{ap, refl};
    ghost use Rattle.x509_spelling.specs.Laws.{held_laws};
    ghost use Rattle.x509_spelling.specs.HeldLaws.{holding_laws, low_tag};

    ghost spells = { λ value. Holds (160 + N % 16) T.spells value.0 };

    ghost written = { λ value. wrapped (160 + N % 16) (T.written value.0) };

    ghost begun = { only (160 + N % 16) };

    ghost has_low_tags = { true };

    ghost laws = { held_laws true (only (160 + N % 16)) (λ v. wrapped (160 + N % 16) (T.written v)) (Holds (160 + N % 16) T.spells)
        (holding_laws (160 + N % 16) (low_tag N) T.has_low_tags T.begun T.written T.spells T.laws) (λ value. value.0) (λ v w e. λ i. record { 0 = e i }) };

    fn may_begin_with(first: u8) -> bool {
        first == 160 + N % 16
    }

    #[tactic(auto, using(crate::specs::HeldLaws::low_tag))]
    fn read_counted(alloc: Global, bytes: &[u8]) -> Result<Counted<Self>, X509Fault> {
        let read = read_held::<T>(alloc, 160 + N % 16, bytes)?;
        let count = read.count;
        let value = Explicit(read.into_value());
        Ok(Counted { value, count })
    }

    ghost written_is = { ap (λ tree value. wrapped (160 + N % 16) (tree value.0)) T.written_is };
}

/// The value whose spelling is the content of the one element with the identifier octet `first` that the bytes are.
pub fn read_held<T: Spelled>(
    alloc: Global,
    first: u8,
    bytes: &[u8],
) -> Result<Counted<T>, X509Fault>
    requires { has_low_number first ≡ true }
    ensures { Tells (λ value n. Holds first T.spells value bytes.now n) result }
{
    let content = content_of(first, bytes)?;
    T::read_counted(alloc, content)
}
