//! The content of a constructed value: fields that are written and read one after another.
//!
//! `sound` computes whether each field that may be missing is told from what may follow it by its first octet.
ghost use Rattle.std.specs.Prelude.{◌≡◌, ℕ, Bool, true, false, ◌&&◌, List, [], ◌∷◌, ◌++◌, length, Option, None, MatchResult, IsTrue};
ghost use Rattle.asn1_der.specs.Tree.{Tree, Trees, none, more, der, ders, IsWhole, AreWhole, put, trees_of};
ghost use Rattle.asn1_der.specs.Refusals.{refusal_of, first_refusal, refusal_of_option, part_refusal};
ghost use Rattle.asn1_codec.specs.Writing.{WroteValue, NotWroteFields};
ghost use Rattle.asn1_der.specs.Firsts.{Firsts, one_of, may_begin, either, apart};

use crate::de::{Deserialize, Deserializer};
use crate::ser::{Serialize, Serializer};
use asn1_der::Asn1DerError;
use byte_streams::{Sink, Source};

/// Fields that are written.
pub trait WriteFields {
    ghost use Rattle.asn1_der.specs.declared.error.Unsupported.{Unsupported};
    ghost use Rattle.asn1_codec.specs.Writing.{Writing, WroteValue, NotWroteFields};

    ghost trees: { Self → Trees };

    // The first refusal of a field.
    ghost refusal: { Self → Option Unsupported };

    /// Writes the spellings of the fields, one after another, and gives how many bytes that took.
    fn write<W: Sink>(&self, to: &mut Serializer<W>) -> Result<usize, Asn1DerError>
        ensures { MatchResult result
            (WroteValue (refusal self.now) (ders (trees self.now)) to.old to.new)
            (NotWroteFields (refusal self.now) (ders (trees self.now)) to.old to.new) };
}

/// Fields that are read.
pub trait Fields: Sized {
    ghost use Rattle.asn1_der.specs.Seen.{Seen, as_is, Alike};
    ghost use Rattle.asn1_codec.specs.Reading.{Reading, TookFields, AreFields, Refused};

    ghost trees: { Self → Trees };

    ghost seen: { Seen Self } = { as_is };

    ghost firsts: { Firsts };

    ghost sound: { Bool };

    ghost starts: { (fields : Self) → AreWhole (trees fields) → (octet : ℕ) (rest : List ℕ)
        → ders (trees fields) ≡ octet ∷ rest → IsTrue (may_begin firsts octet) };

    ghost injective: { IsTrue sound → (v w : Self) → AreWhole (trees v) → AreWhole (trees w)
        → ders (trees v) ≡ ders (trees w) → Alike seen v w };

    /// Reads the fields, which are all that is left up to the limit.
    fn read<R: Source>(from: &mut Deserializer<R>) -> Result<Self, Asn1DerError>
        requires { IsTrue sound }
        ensures { MatchResult result
            (λ fields. TookFields trees fields from.old from.new)
            (λ fault. Refused (AreFields trees from.old.limit) from.old from.new fault) };
}

/// Writes the spellings of a field and of those behind it, one after another.
///
/// A `WriteItem` calls it, for its field and those behind it.
pub fn write_field<H: Serialize, T: WriteFields, W: Sink>(
    head: &H,
    tail: &T,
    to: &mut Serializer<W>,
) -> Result<usize, Asn1DerError>
    ensures { MatchResult result
        (WroteValue (first_refusal (refusal_of H.refusal head.now) (T.refusal tail.now))
        (der (H.tree head.now) ++ ders (T.trees tail.now)) to.old to.new)
        (NotWroteFields (first_refusal (refusal_of H.refusal head.now) (T.refusal tail.now))
        (der (H.tree head.now) ++ ders (T.trees tail.now)) to.old to.new) }
{
    let first = head.serialize(to)?;
    let rest = tail.write(to)?;
    let sum = to.sum(first, rest)?;
    Ok(sum)
}
