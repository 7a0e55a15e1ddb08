//! Values under an implicit tag.
ghost use Rattle.std.specs.Prelude.{◌≡◌, ℕ, MatchResult};
ghost use Rattle.asn1_der.specs.Tree.{Tree};
ghost use Rattle.asn1_der.specs.Firsts.{only};
ghost use Rattle.asn1_der.specs.Tags.{implicit_octet};

use asn1_codec::{
    Deserialize, Deserializer, IsTagNumber, ReadImplicit, Serialize, Serializer, TagNumber,
    WriteImplicit,
};
use asn1_der::Asn1DerError;
use byte_streams::{Sink, Source};

/// A value under the implicit context tag `N` (X.690, section 8.14.3), which is below 31.
///
/// A choice has no identifier octet of its own, so it is no `WriteImplicit` and can't stand beneath one (X.680, section 31.2.7).
#[derive(Clone, Copy, Debug, Drop, PartialEq, Eq)]
pub struct ImplicitContextTag<const N: u8, T>(pub T);

impl<const N: u8, T> From<T> for ImplicitContextTag<N, T> {
    ghost from_gives = { λ value made. made.0 ≡ value };

    fn from(value: T) -> Self {
        ImplicitContextTag(value)
    }
}

impl<const N: u8, T: WriteImplicit> Serialize for ImplicitContextTag<N, T>
where
    TagNumber<N>: IsTagNumber,
{
    ghost use Rattle.std.specs.Prelude.{refl};
    ghost use Rattle.asn1_der.specs.Seen.{Alike, seen_part};
    ghost use Rattle.asn1_der.specs.Refusals.{part_refusal};
    ghost use Rattle.asn1_der.proofs.Alike.{alike-part};

    ghost tree = { λ value. T.tree_under (implicit_octet T.OWN N) value.0 };

    ghost seen = { seen_part (λ value. value.0) T.seen_under };

    ghost firsts = { only (implicit_octet T.OWN N) };

    ghost begins = { λ value. T.laws_under.begins (implicit_octet T.OWN N) value.0 };

    ghost refusal = { part_refusal (λ value. value.0) T.refusal_under };

    ghost injective = { λ v w whole also e.
        let same = T.laws_under.injective (implicit_octet T.OWN N) v.0 w.0 whole also e
        in alike-part T.seen_under v w (λ value. value.0) (λ held. record { 0 = held }) (λ value. refl) same };

    fn serialize<W: Sink>(&self, to: &mut Serializer<W>) -> Result<usize, Asn1DerError> {
        self.0.write_under(context_octet(T::OWN, N), to)
    }
}

impl<const N: u8, T: ReadImplicit> Deserialize for ImplicitContextTag<N, T>
where
    TagNumber<N>: IsTagNumber,
{
    fn may_start(first: u8) -> bool {
        first == context_octet(T::OWN, N)
    }

    fn deserialize<R: Source>(from: &mut Deserializer<R>) -> Result<Self, Asn1DerError> {
        let value = T::read_under(context_octet(T::OWN, N), from)?;
        Ok(ImplicitContextTag(value))
    }
}

// The identifier octet of the context tag `number` in place of `first`.
fn context_octet(first: u8, number: u8) -> u8
    ensures { result ≡ implicit_octet first number }
{
    128 + first % 64 / 32 * 32 + number % 32
}

/// A value under the implicit context tag 0.
pub type ImplicitContextTag0<T> = ImplicitContextTag<0, T>;

/// A value under the implicit context tag 1.
pub type ImplicitContextTag1<T> = ImplicitContextTag<1, T>;

/// A value under the implicit context tag 2.
pub type ImplicitContextTag2<T> = ImplicitContextTag<2, T>;

/// A value under the implicit context tag 3.
pub type ImplicitContextTag3<T> = ImplicitContextTag<3, T>;

/// A value under the implicit context tag 4.
pub type ImplicitContextTag4<T> = ImplicitContextTag<4, T>;

/// A value under the implicit context tag 5.
pub type ImplicitContextTag5<T> = ImplicitContextTag<5, T>;

/// A value under the implicit context tag 6.
pub type ImplicitContextTag6<T> = ImplicitContextTag<6, T>;

/// A value under the implicit context tag 7.
pub type ImplicitContextTag7<T> = ImplicitContextTag<7, T>;

/// A value under the implicit context tag 8.
pub type ImplicitContextTag8<T> = ImplicitContextTag<8, T>;

/// A value under the implicit context tag 9.
pub type ImplicitContextTag9<T> = ImplicitContextTag<9, T>;

/// A value under the implicit context tag 10.
pub type ImplicitContextTag10<T> = ImplicitContextTag<10, T>;

/// A value under the implicit context tag 11.
pub type ImplicitContextTag11<T> = ImplicitContextTag<11, T>;

/// A value under the implicit context tag 12.
pub type ImplicitContextTag12<T> = ImplicitContextTag<12, T>;

/// A value under the implicit context tag 13.
pub type ImplicitContextTag13<T> = ImplicitContextTag<13, T>;

/// A value under the implicit context tag 14.
pub type ImplicitContextTag14<T> = ImplicitContextTag<14, T>;

/// A value under the implicit context tag 15.
pub type ImplicitContextTag15<T> = ImplicitContextTag<15, T>;
