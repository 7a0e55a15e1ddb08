//! The content of a constructed element, written value after value.
ghost use Rattle.std.specs.Prelude.{◌≡◌, ◌+◌, ◌≤◌, ℕ, List, ◌∷◌, length, None, ◌⊎◌, MatchResult};
ghost use Rattle.asn1_der.specs.Length.{element, length_octets};
ghost use Rattle.asn1_der.specs.Tree.{der};
ghost use Rattle.asn1_der.specs.Refusals.{refusal_of};
ghost use Rattle.asn1_codec.specs.Sequences.{IsPastContent};
ghost use Rattle.asn1_codec.specs.Writing.{Wrote, NotWrote, WroteValue, NotWroteValue};

use crate::measure::len_of;
use crate::sequence::Sequence;
use crate::ser::{Serialize, Serializer};
use asn1_der::Asn1DerError;
use byte_streams::Sink;
use std::marker::Model;

/// The content of a constructed element (X.690, section 8.9) that is written value after value.
///
/// What isn't written by its row calls it: `Sequence::serialize_lazy`, `serialize_element` for each value, and `end`. A
/// contract sees how many octets are missing of the content.
#[derive(Drop)]
pub struct SequenceWriter {
    missing: usize,
}

impl Model for SequenceWriter {
    ghost use Rattle.std.specs.Prelude.{ℕ};

    ghost Value = { ℕ };

    ghost view = { λ s. s.missing };
}

impl Sequence {
    /// Writes the identifier octet `tag` and the length octets of a content of `count` octets, which is to be written next.
    pub fn serialize_lazy<W: Sink>(
        to: &mut Serializer<W>,
        tag: u8,
        count: usize,
    ) -> Result<SequenceWriter, Asn1DerError>
        ensures { MatchResult result
            (λ content. Wrote (tag ∷ length_octets count) to.old to.new × (content ≡ count))
            (λ fault. (content : List ℕ) → length content ≡ count → NotWrote None (element tag content) to.old to.new fault) }
    {
        let _ = to.header(tag, count)?;
        Ok(SequenceWriter { missing: count })
    }
}

impl SequenceWriter {
    /// Writes the next value, and gives how many octets that took. Where it has more octets than are missing, it answers
    /// `InvalidSink` and writes nothing.
    pub fn serialize_element<T: Serialize, W: Sink>(
        &mut self,
        value: &T,
        to: &mut Serializer<W>,
    ) -> Result<usize, Asn1DerError>
        ensures { MatchResult result
            (λ count. WroteValue (refusal_of T.refusal value.now) (der (T.tree value.now)) to.old to.new count × (self.old ≡ count + self.new))
            (λ fault. (self.new ≡ self.old) × (IsPastContent self.old (der (T.tree value.now)) to.old to.new fault
            ⊎ NotWroteValue (refusal_of T.refusal value.now) (der (T.tree value.now)) to.old to.new fault)) }
    {
        to.ready()?;
        let count = match len_of(value) {
            Ok(count) => count,
            Err(fault) => return Err(to.unmeasured(fault)),
        };
        if self.missing < count {
            return Err(Asn1DerError::InvalidSink);
        }
        let _ = value.serialize(to)?;
        self.missing -= count;
        Ok(count)
    }

    /// Goes on behind the content, of which nothing is missing: else `TruncatedData`.
    pub fn end(self) -> Result<(), Asn1DerError>
        ensures { MatchResult result
            (λ _. self ≡ 0)
            (λ fault. (fault ≡ Asn1DerError.TruncatedData) × (1 ≤ self)) }
    {
        if self.missing != 0 {
            return Err(Asn1DerError::TruncatedData);
        }
        Ok(())
    }
}
