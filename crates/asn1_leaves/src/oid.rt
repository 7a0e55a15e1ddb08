//! Object identifiers.
ghost use Rattle.std.specs.Prelude.{◌≡◌, ◌≢◌, ℕ, ◌^◌, ◌<◌, ◌⊎◌, List, ◌++◌, IsTrue, IfOk, OnOk, MatchResult, SomeIff, ◌&&◌};
ghost use Rattle.std.specs.List.{flat_map};
ghost use Rattle.std.specs.String.{string_bytes};
ghost use Rattle.asn1_leaves.specs.ObjectIdentifier.{joined, may_begin, is_u64, IsObjectIdentifier, oid_content, subidentifier, dotted_text};
ghost use Rattle.asn1_leaves.specs.Makes.{Makes, Decodes};

use crate::LeafFault;
use crate::dotted::read_arcs;
use crate::number::{are_numbers, push_number, take_number};
use std::alloc::{AllocError, Global};
use std::cmp::Ordering;
use std::fmt;
use std::hash::{Hash, Hasher};
use std::marker::Model;

/// An OBJECT IDENTIFIER (X.690, section 8.19), of which each number that is written is below 2^64. A contract sees the
/// list of its arcs.
#[derive(Drop, Debug)]
pub struct ObjectIdentifier {
    content: Vec<u8>,
}

impl Model for ObjectIdentifier {
    ghost use Rattle.std.specs.Prelude.{ℕ, List};
    ghost use Rattle.asn1_leaves.specs.ObjectIdentifier.{IsContent, oid_arcs};

    ghost Value = { List ℕ };

    ghost view = { λ oid. oid_arcs oid.content.items };

    ghost invariant = { λ oid. IsContent oid.content.items };
}

impl ObjectIdentifier {
    /// The object identifier with these arcs, or `LeafFault::Oid` where there is none: two at least, the
    /// first at most 2, the second at most 39 below 0 and 1, and 2^64 - 81 below 2.
    pub fn from_arcs(alloc: Global, arcs: &[u64]) -> Result<ObjectIdentifier, LeafFault>
        ensures { Makes (IsObjectIdentifier arcs.now) LeafFault.Oid arcs.now result }
    {
        let [first, second, further @ ..] = arcs else {
            return Err(LeafFault::Oid);
        };
        let Some(number) = first_number(*first, *second) else {
            return Err(LeafFault::Oid);
        };
        let content = content_of(alloc, number, further)?;
        Ok(ObjectIdentifier { content })
    }

    /// The object identifier of which this is the dotted text, as `1.2.840.113549`, or `LeafFault::Oid` where it is
    /// none's. No arc has a leading zero.
    pub fn from_text(alloc: Global, text: &str) -> Result<ObjectIdentifier, LeafFault>
        ensures { MatchResult
            result
            (λ oid. IsObjectIdentifier oid × (dotted_text oid ≡ text.now))
            (λ e. (e ≡ LeafFault.Memory) ⊎ ((e ≡ LeafFault.Oid)
            × ((arcs : List ℕ) → IsObjectIdentifier arcs → dotted_text arcs ≢ text.now))) }
    {
        let Some(arcs) = read_arcs(alloc, text)? else {
            return Err(LeafFault::Oid);
        };
        ObjectIdentifier::from_arcs(alloc, arcs.as_slice())
    }

    /// Reads the content octets of an element, none where they are no object identifier's.
    pub fn from_content(
        alloc: Global,
        content: &[u8],
    ) -> Result<Option<ObjectIdentifier>, AllocError>
        ensures { IfOk result (Decodes IsObjectIdentifier oid_content content.now) }
    {
        if content.is_empty() {
            return Ok(None);
        }
        if !are_numbers(content) {
            return Ok(None);
        }
        let content = Vec::from_slice(alloc, content)?;
        Ok(Some(ObjectIdentifier { content }))
    }

    /// The arcs, in order.
    pub fn arcs(&self) -> Arcs<'_>
        ensures { result ≡ self.now }
    {
        let Some((number, rest)) = take_number(self.content.as_slice()) else {
            unreachable!()
        };
        let first = (number / 40).min(2);
        Arcs {
            first: Some(first),
            second: Some(number - 40 * first),
            rest,
        }
    }

    /// The dotted text.
    pub fn to_text(&self) -> Result<String, AllocError>
        ensures { IfOk result (λ text. string_bytes text ≡ dotted_text self.now) }
    {
        self.to_string(*self.content.allocator())
    }

    /// The content octets.
    pub fn as_bytes(&self) -> &[u8]
        ensures value { result.now ≡ oid_content self.now }
        ensures valid { IsObjectIdentifier self.now }
    {
        self.content.as_slice()
    }
}

impl Clone for ObjectIdentifier {
    ghost use Rattle.std.specs.Prelude.{◌≡◌};

    ghost is_clone = { λ oid copy. copy ≡ oid };

    fn clone(&self) -> Result<ObjectIdentifier, AllocError> {
        let content = self.content.clone()?;
        Ok(ObjectIdentifier { content })
    }
}

impl PartialEq for ObjectIdentifier {
    ghost use Rattle.std.specs.Bool.{nat_eq};
    ghost use Rattle.std.specs.Cmp.Lexicographic.{pointwise};
    ghost use Rattle.std.proofs.lemmas.Cmp.{nat_list_eq_equiv};
    ghost use Rattle.std.proofs.Common.{rules};

    ghost eq = { pointwise nat_eq };

    ghost laws = { Prim.search (nat_list_eq_equiv, rules) };

    fn eq(&self, other: &ObjectIdentifier) -> bool {
        self.content == other.content
    }
}

impl Eq for ObjectIdentifier {
    ghost use Rattle.std.proofs.lemmas.Cmp.{nat_list_eq_equiv};

    ghost laws = { nat_list_eq_equiv };
}

impl PartialOrd for ObjectIdentifier {
    ghost use Rattle.std.specs.Prelude.{Some};
    ghost use Rattle.std.specs.Ordering.{nat_cmp};
    ghost use Rattle.std.specs.Cmp.Lexicographic.{slice_cmp, texts_po};

    ghost partial_cmp = { λ a b. Some (slice_cmp nat_cmp a b) };

    ghost laws = { texts_po };

    fn partial_cmp(&self, other: &ObjectIdentifier) -> Option<Ordering> {
        Some(self.cmp(other))
    }
}

/// Compares two values by their arcs. The first arcs that differ decide; where there are none, the one with fewer arcs is less.
impl Ord for ObjectIdentifier {
    ghost use Rattle.std.specs.Prelude.{refl};
    ghost use Rattle.std.specs.Ordering.{nat_cmp};
    ghost use Rattle.std.specs.Cmp.Lexicographic.{slice_cmp, nat_list_cmp_total, texts_ties};

    ghost cmp = { slice_cmp nat_cmp };

    ghost total = { nat_list_cmp_total };

    ghost matches_partial_cmp = { λ a b. refl };

    ghost matches_eq = { texts_ties };

    fn cmp(&self, other: &ObjectIdentifier) -> Ordering {
        self.arcs().cmp(other.arcs())
    }
}

/// Hashes the content octets.
impl Hash for ObjectIdentifier {
    ghost use Rattle.std.specs.Hash as fed;
    ghost use Rattle.std.specs.Cmp.Lexicographic.{bytes_decides};
    ghost use Rattle.std.proofs.Common.{ap};
    ghost use Rattle.asn1_leaves.specs.ObjectIdentifier.{oid_content};

    ghost hash_input = { λ oid. fed.slice fed.u8 (oid_content oid) };

    ghost respects_eq = { λ a b e. ap (λ oid. fed.slice fed.u8 (oid_content oid)) ((bytes_decides a b).0 e) };

    fn hash<H: Hasher>(&self, state: &mut H) {
        self.as_bytes().hash(state);
    }
}

impl fmt::Display for ObjectIdentifier {
    ghost use Rattle.std.specs.Prelude.{Some};
    ghost use Rattle.asn1_leaves.specs.ObjectIdentifier.{dotted_text};

    ghost output = { λ oid. Some (dotted_text oid) };

    fn fmt<W: fmt::Write>(&self, f: &mut fmt::Formatter<W>) -> fmt::Result {
        let mut arcs = self.arcs();
        let Some(first) = arcs.next() else {
            return Ok(());
        };
        write!(f, "{first}")?;
        for arc in arcs {
            write!(f, ".{arc}")?;
        }
        Ok(())
    }
}

/// The arcs of an object identifier that are left to be read, in order. A contract sees their list.
#[derive(Drop, Debug)]
pub struct Arcs<'a> {
    first: Option<u64>,
    second: Option<u64>,
    rest: &'a [u8],
}

impl<'a> Model for Arcs<'a> {
    ghost use Rattle.std.specs.Prelude.{ℕ, List};
    ghost use Rattle.asn1_leaves.specs.ObjectIdentifier.{AreNumbers, arcs_left};

    ghost Value = { List ℕ };

    ghost view = { λ arcs. arcs_left arcs.first arcs.second arcs.rest.now };

    ghost invariant = { λ arcs. AreNumbers arcs.rest.now };
}

impl<'a> Iterator for Arcs<'a> {
    ghost use Rattle.std.specs.Iterator.{YieldsFirst, item_count};

    type Item = u64;

    ghost next_gives = { YieldsFirst (λ arcs. arcs) };

    ghost remaining = { item_count (λ arcs. arcs) };

    fn next(&mut self) -> Option<u64> {
        if let Some(first) = self.first.take() {
            return Some(first);
        }
        if let Some(second) = self.second.take() {
            return Some(second);
        }
        let (number, rest) = take_number(self.rest)?;
        self.rest = rest;
        Some(number)
    }
}

// The content of an object identifier behind its first number.
fn content_of(alloc: Global, number: u64, further: &[u64]) -> Result<Vec<u8>, AllocError>
    ensures { IfOk result (λ content. content.items ≡ subidentifier number ++ flat_map subidentifier further.now) }
{
    let mut content = Vec::new(alloc);
    push_number(&mut content, number)?;
    for arc in further {
        push_number(&mut content, *arc)?;
    }
    Ok(content)
}

// The number that the first two arcs are written as, where they may begin an object identifier.
fn first_number(first: u64, second: u64) -> Option<u64>
    ensures { SomeIff result (IsTrue (may_begin first second && is_u64 (joined first second))) (joined first second) }
{
    match first {
        0 | 1 if second < 40 => Some(40 * first + second),
        2 => second.checked_add(80),
        _ => None,
    }
}
