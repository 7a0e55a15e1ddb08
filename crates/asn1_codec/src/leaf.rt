//! How primitive types are written and read: an element, of which the content says the value.
ghost use Rattle.std.specs.Prelude.{◌≡◌, ℕ, List, Bool, None, IsTrue, IfOk, MatchOption, MatchResult};
ghost use Rattle.asn1_der.specs.Tree.{der};
ghost use Rattle.asn1_der.specs.Tagged.{leaf_as};
ghost use Rattle.asn1_codec.specs.Reading.{TookValue, IsSpelling, Refused};

use crate::de::Deserializer;
use crate::ser::Serializer;
use crate::tagged::Tagged;
use asn1_der::{Asn1DerError, Rule};
use byte_streams::{Sink, Source};
use std::alloc::{AllocError, Global};

/// A primitive type, whose values are distinguished by their content octets (X.690, section 8.1.4).
pub trait Leaf: Sized {
    ghost use Rattle.asn1_der.specs.Seen.{Seen, as_is, Alike};
    ghost use Rattle.asn1_codec.specs.Writing.{Writing, WroteValue, NotWroteValue};

    /// The identifier octet (X.690, section 8.1.2).
    const OCTET: u8;

    /// The rule that the content of a value keeps.
    const RULE: Rule;

    ghost OCTET: { ℕ };

    // What two values of one content have in common: all, where nothing else is said.
    ghost seen: { Seen Self } = { as_is };

    ghost is_valid: { Self → Bool };

    ghost content_of: { Self → List ℕ };

    ghost one_content: { (v w : Self) → IsTrue (is_valid v) → IsTrue (is_valid w) → content_of v ≡ content_of w → Alike seen v w };

    /// The value whose content the octets are, or none.
    fn decode(alloc: Global, content: &[u8]) -> Result<Option<Self>, AllocError>
        ensures { IfOk result (λ read. MatchOption read
            ((value : Self) → IsTrue (is_valid value) → content_of value ≡ content.now → ⊥)
            (λ value. IsTrue (is_valid value) × (content_of value ≡ content.now))) };

    /// Writes an element of the content under the identifier octet `tag`.
    fn write_content<W: Sink>(&self, tag: u8, to: &mut Serializer<W>) -> Result<usize, Asn1DerError>
        ensures { MatchResult result
            (WroteValue None (der (leaf_as is_valid content_of tag self.now)) to.old to.new)
            (NotWroteValue None (der (leaf_as is_valid content_of tag self.now)) to.old to.new) };
}

impl<T: Leaf> Tagged for T {
    ghost use Rattle.asn1_der.specs.Seen.{Alike};
    ghost use Rattle.asn1_der.proofs.Tagged.{leaf_laws_as};

    type Row = T;

    const FIRST: u8 = T::OCTET;

    ghost FIRST = { T.OCTET };

    ghost row_tree = { leaf_as T.is_valid T.content_of };

    ghost row_seen = { T.seen };

    ghost seen = { T.seen };

    ghost row_laws = { leaf_laws_as (Alike T.seen) T.is_valid T.content_of T.one_content };

    ghost row_of = { λ value. value };

    ghost one_row = { λ v w e. e };

    fn read_row<R: Source>(tag: u8, from: &mut Deserializer<R>) -> Result<T, Asn1DerError> {
        let content = from.short_content(tag)?;
        let read = match T::decode(from.allocator(), content.as_bytes()) {
            Ok(read) => read,
            Err(_) => return Err(from.refuse(Asn1DerError::Memory)),
        };
        let Some(value) = read else {
            return Err(from.refuse(Asn1DerError::Message(T::RULE)));
        };
        Ok(value)
    }

    fn of_row(row: T) -> T {
        row
    }

    fn write_row<W: Sink>(&self, tag: u8, to: &mut Serializer<W>) -> Result<usize, Asn1DerError> {
        self.write_content(tag, to)
    }
}
