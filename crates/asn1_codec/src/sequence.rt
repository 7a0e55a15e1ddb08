//! The content of a constructed element, read value after value.
ghost use Rattle.std.specs.Prelude.{◌≡◌, [], length, false, MatchOption, MatchResult};
ghost use Rattle.asn1_codec.specs.Reading.{TookValue, Refused, IsSpelling, IsElement, within};
ghost use Rattle.asn1_codec.specs.Sequences.{Opened};

use crate::de::{Deserialize, Deserializer};
use asn1_der::Asn1DerError;
use byte_streams::Source;
use std::marker::Model;

/// The content of a constructed element (X.690, section 8.9) that is read value after value.
///
/// A type that isn't read by its row calls it: `deserialize_lazy`, `next_element` for each value, and `end`. A contract
/// sees how many octets may be taken behind the content.
#[derive(Drop)]
pub struct Sequence {
    outside: usize,
}

impl Model for Sequence {
    ghost use Rattle.std.specs.Prelude.{ℕ};

    ghost Value = { ℕ };

    ghost view = { λ s. s.outside };
}

impl Sequence {
    /// Takes the identifier octet `tag` and the length octets. Up to `end`, the content is all that may be taken.
    pub fn deserialize_lazy<R: Source>(
        tag: u8,
        from: &mut Deserializer<R>,
    ) -> Result<Sequence, Asn1DerError>
        ensures { MatchResult result
            (λ sequence. Opened tag sequence from.old from.new)
            (λ fault. Refused (IsElement tag) from.old from.new fault) }
    {
        let count = from.open(tag)?;
        let outside = from.enter(count);
        Ok(Sequence { outside })
    }

    /// Takes the next value, or none at the content's end.
    pub fn next_element<T: Deserialize, R: Source>(
        &self,
        from: &mut Deserializer<R>,
    ) -> Result<Option<T>, Asn1DerError>
        ensures { MatchResult result
            (λ read. MatchOption read
            ((from.new ≡ from.old) × (from.old.failed ≡ false) × (from.old.limit ≡ 0))
            (λ value. TookValue T.tree value from.old from.new))
            (λ fault. Refused (IsSpelling T.tree) from.old from.new fault) }
    {
        from.ready()?;
        if !from.remains() {
            return Ok(None);
        }
        let value = T::deserialize(from)?;
        Ok(Some(value))
    }

    /// Goes on behind the content, of which nothing is left.
    pub fn end<R: Source>(self, from: &mut Deserializer<R>) -> Result<(), Asn1DerError>
        ensures { MatchResult result
            (λ _. (from.old.failed ≡ false) × (from.old.limit ≡ 0) × (from.old.looked ≡ false)
            × (from.new ≡ within self from.old))
            (λ fault. Refused (λ bytes. (bytes ≡ []) × (length bytes ≡ from.old.limit)) from.old from.new fault) }
    {
        from.finish()?;
        from.leave(self.outside);
        Ok(())
    }
}
