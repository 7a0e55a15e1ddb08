//! Values under an application tag.
ghost use Rattle.std.specs.Prelude.{◌≡◌, ℕ, ◌+◌, ◌%◌, MatchResult};
ghost use Rattle.asn1_der.specs.Tree.{Tree, wrapped};
ghost use Rattle.asn1_der.specs.Firsts.{only};
ghost use Rattle.asn1_der.specs.Refusals.{part_refusal};

use asn1_codec::{Deserialize, Deserializer, IsTagNumber, Serialize, Serializer, TagNumber};
use asn1_der::Asn1DerError;
use byte_streams::{Sink, Source};

/// A value under the constructed application tag `TAG` (X.690, section 8.14), which is below 31.
#[derive(Clone, Copy, Debug, Drop, PartialEq, Eq)]
pub struct ApplicationTag<V, const TAG: u8>(pub V);

impl<V, const TAG: u8> From<V> for ApplicationTag<V, TAG> {
    ghost from_gives = { λ value made. made.0 ≡ value };

    fn from(value: V) -> Self {
        ApplicationTag(value)
    }
}

impl<V: Serialize, const TAG: u8> Serialize for ApplicationTag<V, TAG>
where
    TagNumber<TAG>: IsTagNumber,
{
    ghost use Rattle.asn1_der.proofs.Spelling.{wrapped-begins, wrapped-injective_as};
    ghost use Rattle.std.specs.Prelude.{refl};
    ghost use Rattle.asn1_der.specs.Seen.{Alike, seen_part};
    ghost use Rattle.asn1_der.proofs.Alike.{alike-part};

    ghost tree = { λ value. wrapped (96 + TAG % 32) (V.tree value.0) };

    ghost seen = { seen_part (λ value. value.0) V.seen };

    ghost refusal = { part_refusal (λ value. value.0) V.refusal };

    ghost firsts = { only (96 + TAG % 32) };

    ghost begins = { λ value. wrapped-begins (96 + TAG % 32) (V.tree value.0) };

    ghost injective = { λ v w whole also e.
        let same = wrapped-injective_as (Alike V.seen) (96 + TAG % 32) V.tree V.injective v.0 w.0 whole also e
        in alike-part V.seen v w (λ value. value.0) (λ held. record { 0 = held }) (λ value. refl) same };

    fn serialize<W: Sink>(&self, to: &mut Serializer<W>) -> Result<usize, Asn1DerError> {
        to.wrapped(96 + TAG % 32, &self.0)
    }
}

impl<V: Deserialize + Drop, const TAG: u8> Deserialize for ApplicationTag<V, TAG>
where
    TagNumber<TAG>: IsTagNumber,
{
    fn may_start(first: u8) -> bool {
        first == 96 + TAG % 32
    }

    fn deserialize<R: Source>(from: &mut Deserializer<R>) -> Result<Self, Asn1DerError> {
        let value = from.wrapped(96 + TAG % 32)?;
        Ok(ApplicationTag(value))
    }
}
