//! Values of types of the crates below, each spelled in one way.
ghost use Rattle.std.specs.Prelude.{◌≡◌, MatchResult};

use crate::exact::Exact;
use byte_streams::{Sink, Source};
use picky_asn1_der::{Asn1DerError, Deserialize, Deserializer, Serialize, Serializer};

/// A value whose one spelling is its DER, as a field beside others that may deviate.
#[derive(Debug, Drop, PartialEq, Eq)]
pub struct Strict<T>(pub T);

impl<T: Serialize> Serialize for Strict<T> {
    ghost use Rattle.std.specs.Prelude.{refl};
    ghost use Rattle.asn1_der.specs.Seen.{seen_part};
    ghost use Rattle.asn1_der.proofs.Alike.{alike-part};
    ghost use Rattle.asn1_der.specs.Refusals.{part_refusal};

    ghost tree = { λ value. T.tree value.0 };

    ghost refusal = { part_refusal (λ value. value.0) T.refusal };

    ghost firsts = { T.firsts };

    ghost begins = { λ value. T.begins value.0 };

    ghost seen = { seen_part (λ value. value.0) T.seen };

    ghost injective = { λ v w whole also e.
        alike-part T.seen v w (λ value. value.0) (λ held. record { 0 = held }) (λ value. refl) (T.injective v.0 w.0 whole also e) };

    fn serialize<W: Sink>(&self, to: &mut Serializer<W>) -> Result<usize, Asn1DerError> {
        self.0.serialize(to)
    }
}

impl<T: Deserialize + Drop> Deserialize for Strict<T> {
    fn may_start(first: u8) -> bool {
        T::may_start(first)
    }

    fn deserialize<R: Source>(from: &mut Deserializer<R>) -> Result<Self, Asn1DerError> {
        let value = T::deserialize(from)?;
        Ok(Strict(value))
    }
}

impl<T: Exact> Exact for Strict<T> {
    ghost use Rattle.x509_spelling.specs.PlainLaws.{plain-part};

    ghost plain = { plain-part (λ value. value.0) T.seen T.plain };
}
