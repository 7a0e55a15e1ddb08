//! Elements of any type.
ghost use Rattle.std.specs.Prelude.{◌≡◌, MatchOption, IfSome, IsTrue};
ghost use Rattle.picky_asn1_der.specs.Raw.{Raw, has_low_number};

use asn1_codec::{Deserialize, Deserializer, Serialize, Serializer};
use asn1_der::Asn1DerError;
use byte_streams::{Sink, Source};
use std::alloc::AllocError;
use std::marker::Model;

/// One element of any type, whose tag's number is below 31 (X.690, section 8.1.2). Of its content nothing is asked.
#[derive(Drop, Debug)]
pub struct RawElement {
    first: u8,
    content: Vec<u8>,
}

impl Model for RawElement {
    ghost use Rattle.std.specs.Prelude.{IsTrue};
    ghost use Rattle.picky_asn1_der.specs.Raw.{Raw, has_low_number};

    ghost Value = { Raw };

    ghost view = { λ r. record { first = r.first; content = r.content.items } };

    ghost invariant = { λ r. IsTrue (has_low_number r.first) };
}

impl RawElement {
    /// The element, or none where the tag's number isn't in the identifier octet.
    pub fn new(first: u8, content: Vec<u8>) -> Option<RawElement>
        ensures { MatchOption result
            (IsTrue (has_low_number first) → ⊥)
            (λ raw. raw ≡ record { first = first; content = content.items }) }
    {
        if first % 32 == 31 {
            return None;
        }
        Some(RawElement { first, content })
    }

    /// The identifier octet.
    pub fn first(&self) -> u8
        ensures { result ≡ self.now.first }
    {
        self.first
    }

    /// The content octets.
    pub fn content(&self) -> &[u8]
        ensures { result.now ≡ self.now.content }
    {
        self.content.as_slice()
    }
}

impl Clone for RawElement {
    ghost is_clone = { λ raw copy. copy ≡ raw };

    fn clone(&self) -> Result<RawElement, AllocError> {
        let content = self.content.clone()?;
        Ok(RawElement {
            first: self.first,
            content,
        })
    }
}

impl PartialEq for RawElement {
    ghost use Rattle.std.specs.Bool.{nat_eq};
    ghost use Rattle.std.specs.Cmp.Lexicographic.{pointwise};
    ghost use Rattle.std.specs.Cmp.Rules.{comparing};
    ghost use Rattle.std.specs.Ordering.{on, eq_of_both};
    ghost use Rattle.std.proofs.Common.{rules};

    ghost eq = { eq_of_both (on (λ raw. raw.first) nat_eq) (on (λ raw. raw.content) (pointwise nat_eq)) };

    ghost laws = { Prim.search (comparing, rules) };

    fn eq(&self, other: &RawElement) -> bool {
        self.first == other.first && self.content() == other.content()
    }
}

impl Eq for RawElement {
    ghost use Rattle.std.specs.Cmp.Rules.{comparing};
    ghost use Rattle.std.proofs.Common.{rules};

    ghost laws = { Prim.search (comparing, rules) };
}

impl Serialize for RawElement {
    ghost use Rattle.asn1_der.specs.Firsts.{any_octet};
    ghost use Rattle.picky_asn1_der.specs.Raw.{raw_tree};
    ghost use Rattle.picky_asn1_der.specs.RawLaws.{raw-begins, raw-injective};

    ghost tree = { raw_tree };

    ghost firsts = { any_octet };

    ghost begins = { raw-begins };

    ghost injective = { raw-injective };

    fn serialize<W: Sink>(&self, to: &mut Serializer<W>) -> Result<usize, Asn1DerError> {
        to.element(self.first, self.content.as_slice())
    }
}

impl Deserialize for RawElement {
    fn may_start(_first: u8) -> bool {
        true
    }

    fn deserialize<R: Source>(from: &mut Deserializer<R>) -> Result<Self, Asn1DerError> {
        let first = from.peek_in_limit()?;
        if first % 32 == 31 {
            return Err(from.refuse(Asn1DerError::InvalidData));
        }
        let content = from.content(first)?;
        Ok(RawElement { first, content })
    }
}
