//! Elements of any type, as their bytes.
ghost use Rattle.std.specs.Prelude.{◌≡◌, ◌≤◌, true, length, drop, MatchResult, IfOk};
ghost use Rattle.asn1_der.specs.Length.{element};
ghost use Rattle.picky_asn1_der.specs.Raw.{Raw, has_low_number};
ghost use Rattle.picky_asn1_der.specs.Splits.{IsNotOne};

use crate::raw::RawElement;
use crate::split_element;
use asn1_codec::{Deserialize, Deserializer, Serialize, Serializer};
use asn1_der::{Asn1DerError, LengthOctets};
use byte_streams::{Sink, Source};
use std::alloc::{AllocError, Global};
use std::cmp::Ordering;
use std::fmt;
use std::hash::{Hash, Hasher};
use std::marker::Model;

/// One element of any type, held as all its bytes: a tag whose number is below 31, a definite length in as few octets
/// as there can be, and the content (X.690, sections 8.1 and 10.1). Of the content nothing is asked.
///
/// A contract sees the identifier octet and the content. `Debug` prints `0x` and all bytes, as capital hexadecimal digits.
#[derive(Drop)]
pub struct Asn1RawDer {
    first: u8,
    // Where the content begins.
    start: usize,
    bytes: Vec<u8>,
}

impl Model for Asn1RawDer {
    ghost use Rattle.std.specs.Prelude.{◌≡◌, ◌≤◌, true, drop, length};
    ghost use Rattle.asn1_der.specs.Length.{element};
    ghost use Rattle.picky_asn1_der.specs.Raw.{Raw, has_low_number};

    ghost Value = { Raw };

    ghost view = { λ r. record { first = r.first; content = drop r.start r.bytes.items } };

    ghost invariant = { λ r. (has_low_number r.first ≡ true) × (r.start ≤ length r.bytes.items)
        × (r.bytes.items ≡ element r.first (drop r.start r.bytes.items)) };
}

impl Asn1RawDer {
    /// The name of the type.
    pub const NAME: &'static str = "Asn1RawDer";

    /// The element that the bytes are. Where they are none it answers `TruncatedData` if further bytes could make one
    /// of them, else `InvalidData`.
    pub fn new(bytes: Vec<u8>) -> Result<Asn1RawDer, Asn1DerError>
        ensures { MatchResult result
            (λ raw. (has_low_number raw.first ≡ true) × (bytes.items ≡ element raw.first raw.content))
            (λ fault. IsNotOne bytes.items fault) }
    {
        let (first, start) = one_element(bytes.as_slice())?;
        Ok(Asn1RawDer {
            first,
            start,
            bytes,
        })
    }

    /// All bytes of the element.
    pub fn as_bytes(&self) -> &[u8]
        ensures { result.now ≡ element self.now.first self.now.content }
    {
        self.bytes.as_slice()
    }

    // The element in memory of its own.
    fn of(alloc: Global, first: u8, content: &[u8]) -> Result<Asn1RawDer, AllocError>
        requires { has_low_number first ≡ true }
        ensures { IfOk result (λ raw. raw ≡ record { first = first; content = content.now }) }
    {
        let mut bytes = Vec::new(alloc);
        bytes.push(first)?;
        bytes.extend_from_slice(LengthOctets::of(content.len()).as_bytes())?;
        let start = bytes.len();
        bytes.extend_from_slice(content)?;
        Ok(Asn1RawDer {
            first,
            start,
            bytes,
        })
    }
}

// The identifier octet, and where the content begins.
fn one_element(bytes: &[u8]) -> Result<(u8, usize), Asn1DerError>
    ensures { MatchResult result
        (λ parts. (has_low_number parts.0 ≡ true) × (parts.1 ≤ length bytes.now)
        × (bytes.now ≡ element parts.0 (drop parts.1 bytes.now)))
        (λ fault. IsNotOne bytes.now fault) }
{
    let (element, rest) = split_element(bytes)?;
    if !rest.is_empty() {
        return Err(Asn1DerError::InvalidData);
    }
    Ok((
        u8::from(element.tag()),
        bytes.len() - element.content().len(),
    ))
}

impl Serialize for Asn1RawDer {
    ghost use Rattle.asn1_der.specs.Firsts.{any_octet};
    ghost use Rattle.picky_asn1_der.specs.Raw.{raw_tree};
    ghost use Rattle.picky_asn1_der.specs.RawLaws.{raw-begins, raw-injective};

    ghost tree = { raw_tree };

    ghost firsts = { any_octet };

    ghost begins = { raw-begins };

    ghost injective = { raw-injective };

    fn serialize<W: Sink>(&self, to: &mut Serializer<W>) -> Result<usize, Asn1DerError> {
        to.element(self.first, &self.bytes[self.start..])
    }
}

impl Deserialize for Asn1RawDer {
    fn may_start(_first: u8) -> bool {
        true
    }

    fn deserialize<R: Source>(from: &mut Deserializer<R>) -> Result<Self, Asn1DerError> {
        let raw = RawElement::deserialize(from)?;
        let alloc = from.allocator();
        match Asn1RawDer::of(alloc, raw.first(), raw.content()) {
            Ok(held) => Ok(held),
            Err(_) => Err(from.refuse(Asn1DerError::Memory)),
        }
    }
}

impl Clone for Asn1RawDer {
    ghost is_clone = { λ raw copy. copy ≡ raw };

    fn clone(&self) -> Result<Asn1RawDer, AllocError> {
        let bytes = self.bytes.clone()?;
        Ok(Asn1RawDer {
            first: self.first,
            start: self.start,
            bytes,
        })
    }
}

impl fmt::Debug for Asn1RawDer {
    fn fmt<W: fmt::Write>(&self, f: &mut fmt::Formatter<W>) -> fmt::Result {
        write!(f, "0x")?;
        for octet in self.as_bytes() {
            write!(f, "{octet:02X}")?;
        }
        Ok(())
    }
}

impl PartialEq for Asn1RawDer {
    ghost use Rattle.std.specs.Bool.{nat_eq};
    ghost use Rattle.std.specs.Cmp.Lexicographic.{pointwise};
    ghost use Rattle.std.specs.Cmp.Rules.{comparing};
    ghost use Rattle.std.specs.Ordering.{on};
    ghost use Rattle.std.proofs.lemmas.Cmp.{nat_list_eq_equiv};
    ghost use Rattle.std.proofs.Common.{rules};
    ghost use Rattle.picky_asn1_der.specs.Splits.{raw_bytes};

    ghost eq = { on raw_bytes (pointwise nat_eq) };

    ghost laws = { Prim.search (comparing, nat_list_eq_equiv, rules) };

    fn eq(&self, other: &Asn1RawDer) -> bool {
        self.as_bytes() == other.as_bytes()
    }
}

impl Eq for Asn1RawDer {
    ghost use Rattle.std.specs.Cmp.Rules.{comparing};
    ghost use Rattle.std.proofs.Common.{rules};

    ghost laws = { Prim.search (comparing, rules) };
}

impl PartialOrd for Asn1RawDer {
    ghost use Rattle.std.specs.Prelude.{Some};
    ghost use Rattle.std.specs.Ordering.{nat_cmp};
    ghost use Rattle.std.specs.Cmp.{on_po};
    ghost use Rattle.std.specs.Cmp.Lexicographic.{slice_cmp, texts_po};
    ghost use Rattle.picky_asn1_der.specs.Splits.{raw_bytes};

    ghost partial_cmp = { λ a b. Some (slice_cmp nat_cmp (raw_bytes a) (raw_bytes b)) };

    ghost laws = { on_po raw_bytes texts_po };

    fn partial_cmp(&self, other: &Asn1RawDer) -> Option<Ordering> {
        Some(self.cmp(other))
    }
}

/// Compares two values by the order of their bytes.
impl Ord for Asn1RawDer {
    ghost use Rattle.std.specs.Prelude.{refl};
    ghost use Rattle.std.specs.Ordering.{nat_cmp};
    ghost use Rattle.std.specs.Cmp.{on_total};
    ghost use Rattle.std.specs.Cmp.Lexicographic.{slice_cmp, nat_list_cmp_total, texts_ties};
    ghost use Rattle.picky_asn1_der.specs.Splits.{raw_bytes};

    ghost cmp = { λ a b. slice_cmp nat_cmp (raw_bytes a) (raw_bytes b) };

    ghost total = { on_total raw_bytes nat_list_cmp_total };

    ghost matches_partial_cmp = { λ a b. refl };

    ghost matches_eq = { λ a b. texts_ties (raw_bytes a) (raw_bytes b) };

    fn cmp(&self, other: &Asn1RawDer) -> Ordering {
        self.as_bytes().cmp(other.as_bytes())
    }
}

/// Hashes the value's bytes.
impl Hash for Asn1RawDer {
    ghost use Rattle.std.specs.Hash as fed;
    ghost use Rattle.std.specs.Cmp.Rules.{hashing};
    ghost use Rattle.std.proofs.Common.{rules};
    ghost use Rattle.picky_asn1_der.specs.Splits.{raw_bytes};

    ghost hash_input = { λ raw. fed.slice fed.u8 (raw_bytes raw) };

    ghost respects_eq = { Prim.search (hashing, rules) };

    fn hash<H: Hasher>(&self, state: &mut H) {
        self.as_bytes().hash(state);
    }
}
