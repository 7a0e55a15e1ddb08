//! The tag of what comes next.
ghost use Rattle.std.specs.Prelude.{◌≡◌, ℕ, List, ◌∷◌, Some, MatchResult};
ghost use Rattle.asn1_codec.specs.Reading.{TookNone, Refused, HasOctets};

use crate::tag::Tag;
use asn1_codec::Deserializer;
use asn1_der::Asn1DerError;
use byte_streams::Source;

/// The tag of what comes next, which stays unread.
#[derive(Clone, Copy, Debug, PartialEq, Eq)]
pub struct TagPeeker {
    /// The tag.
    pub next_tag: Tag,
}

impl TagPeeker {
    /// Looks at the tag of what comes next, and takes nothing.
    pub fn peek<R: Source>(from: &mut Deserializer<R>) -> Result<TagPeeker, Asn1DerError>
        ensures { MatchResult result
            (λ peeked. TookNone from.old from.new × ((bytes : List ℕ) (first : ℕ)
            → from.old.left ≡ Some (first ∷ bytes) → first ≡ peeked.next_tag))
            (λ fault. Refused HasOctets from.old from.new fault) }
    {
        let octet = from.deserialize_identifier()?;
        Ok(TagPeeker {
            next_tag: Tag::from(octet),
        })
    }
}
