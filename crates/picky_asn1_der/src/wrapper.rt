//! Values under a further tag.
ghost use Rattle.std.specs.Prelude.{◌≡◌, ℕ, ◌+◌, ◌%◌, MatchResult};
ghost use Rattle.asn1_der.specs.Tree.{Tree, wrapped};
ghost use Rattle.asn1_der.specs.Firsts.{only};
ghost use Rattle.asn1_der.specs.Refusals.{part_refusal};

use asn1_codec::{Deserialize, Deserializer, IsTagNumber, Serialize, Serializer, TagNumber};
use asn1_der::Asn1DerError;
use byte_streams::{Sink, Source};

/// A value under the explicit context tag `N` (X.690, section 8.14.3), which is below 31.
#[derive(Clone, Copy, Debug, Drop, PartialEq, Eq)]
pub struct ExplicitContextTag<const N: u8, T>(pub T);

impl<const N: u8, T> From<T> for ExplicitContextTag<N, T> {
    ghost from_gives = { λ value made. made.0 ≡ value };

    fn from(value: T) -> Self {
        ExplicitContextTag(value)
    }
}

impl<const N: u8, T: Serialize> Serialize for ExplicitContextTag<N, T>
where
    TagNumber<N>: IsTagNumber,
{
    ghost use Rattle.asn1_der.proofs.Spelling.{wrapped-begins, wrapped-injective_as};
    ghost use Rattle.std.specs.Prelude.{refl};
    ghost use Rattle.asn1_der.specs.Seen.{Alike, seen_part};
    ghost use Rattle.asn1_der.proofs.Alike.{alike-part};

    ghost tree = { λ value. wrapped (160 + N % 32) (T.tree value.0) };

    ghost seen = { seen_part (λ value. value.0) T.seen };

    ghost refusal = { part_refusal (λ value. value.0) T.refusal };

    ghost firsts = { only (160 + N % 32) };

    ghost begins = { λ value. wrapped-begins (160 + N % 32) (T.tree value.0) };

    ghost injective = { λ v w whole also e.
        let same = wrapped-injective_as (Alike T.seen) (160 + N % 32) T.tree T.injective v.0 w.0 whole also e
        in alike-part T.seen v w (λ value. value.0) (λ held. record { 0 = held }) (λ value. refl) same };

    fn serialize<W: Sink>(&self, to: &mut Serializer<W>) -> Result<usize, Asn1DerError> {
        to.wrapped(160 + N % 32, &self.0)
    }
}

impl<const N: u8, T: Deserialize + Drop> Deserialize for ExplicitContextTag<N, T>
where
    TagNumber<N>: IsTagNumber,
{
    fn may_start(first: u8) -> bool {
        first == 160 + N % 32
    }

    fn deserialize<R: Source>(from: &mut Deserializer<R>) -> Result<Self, Asn1DerError> {
        let value = from.wrapped(160 + N % 32)?;
        Ok(ExplicitContextTag(value))
    }
}

/// A value under the explicit context tag 0.
pub type ExplicitContextTag0<T> = ExplicitContextTag<0, T>;

/// A value under the explicit context tag 1.
pub type ExplicitContextTag1<T> = ExplicitContextTag<1, T>;

/// A value under the explicit context tag 2.
pub type ExplicitContextTag2<T> = ExplicitContextTag<2, T>;

/// A value under the explicit context tag 3.
pub type ExplicitContextTag3<T> = ExplicitContextTag<3, T>;

/// A value under the explicit context tag 4.
pub type ExplicitContextTag4<T> = ExplicitContextTag<4, T>;

/// A value under the explicit context tag 5.
pub type ExplicitContextTag5<T> = ExplicitContextTag<5, T>;

/// A value under the explicit context tag 6.
pub type ExplicitContextTag6<T> = ExplicitContextTag<6, T>;

/// A value under the explicit context tag 7.
pub type ExplicitContextTag7<T> = ExplicitContextTag<7, T>;

/// A value under the explicit context tag 8.
pub type ExplicitContextTag8<T> = ExplicitContextTag<8, T>;

/// A value under the explicit context tag 9.
pub type ExplicitContextTag9<T> = ExplicitContextTag<9, T>;

/// A value under the explicit context tag 10.
pub type ExplicitContextTag10<T> = ExplicitContextTag<10, T>;

/// A value under the explicit context tag 11.
pub type ExplicitContextTag11<T> = ExplicitContextTag<11, T>;

/// A value under the explicit context tag 12.
pub type ExplicitContextTag12<T> = ExplicitContextTag<12, T>;

/// A value under the explicit context tag 13.
pub type ExplicitContextTag13<T> = ExplicitContextTag<13, T>;

/// A value under the explicit context tag 14.
pub type ExplicitContextTag14<T> = ExplicitContextTag<14, T>;

/// A value under the explicit context tag 15.
pub type ExplicitContextTag15<T> = ExplicitContextTag<15, T>;
