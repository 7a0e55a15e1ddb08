//! Strings of bits.
ghost use Rattle.std.specs.Prelude.{◌≡◌, ◌≢◌, ℕ, min, ◌<◌, ◌≤◌, ◌==◌, nat_lt, length, if◌then◌else◌, IfOk};
ghost use Rattle.std.specs.Int.{bit_at};
ghost use Rattle.picky_asn1.specs.BitString.{Bits, is_bit_string, IsBitString, bit_count, bit_of, bit_content};
ghost use Rattle.asn1_leaves.specs.Makes.{Makes, Decodes};

use crate::LeafFault;
use std::alloc::{AllocError, Global};
use std::cmp::Ordering;
use std::hash::{Hash, Hasher};
use std::marker::Model;

/// A BIT STRING (X.690, sections 8.6 and 11.2). A contract sees its octets and how many bits of the last are unused.
#[derive(Debug)]
pub struct BitStringAsn1 {
    octets: Vec<u8>,
    unused: u8,
}

impl Drop for BitStringAsn1 {
    fn drop(self) {
        let BitStringAsn1 {
            octets: _,
            unused: _,
        } = self;
    }
}

/// A BIT STRING, by the ported crate's name of its value.
pub type BitString = BitStringAsn1;

impl Model for BitStringAsn1 {
    ghost use Rattle.picky_asn1.specs.BitString.{Bits, IsBitString};

    ghost Value = { Bits };

    ghost view = { λ s. record { octets = s.octets.items; unused = s.unused } };

    ghost invariant = { λ s. IsBitString (record { octets = s.octets.items; unused = s.unused }) };
}

impl BitStringAsn1 {
    /// The bits of the octets but for the last `unused`, which are at most 7 and all zero, and none where
    /// there are no octets; else `LeafFault::Bits`.
    pub fn new(alloc: Global, octets: &[u8], unused: u8) -> Result<BitStringAsn1, LeafFault>
        ensures { let bits : Bits = record { octets = octets.now; unused = unused } in
            Makes (IsBitString bits) LeafFault.Bits bits result }
    {
        if !is_bit_string(octets, unused) {
            return Err(LeafFault::Bits);
        }
        let octets = Vec::from_slice(alloc, octets)?;
        Ok(BitStringAsn1 { octets, unused })
    }

    /// Reads the content octets of an element, none where they are no bit string's.
    pub fn from_content(alloc: Global, content: &[u8]) -> Result<Option<BitStringAsn1>, AllocError>
        ensures { IfOk result (Decodes IsBitString bit_content content.now) }
    {
        match content {
            [unused, octets @ ..] if is_bit_string(octets, *unused) => {
                let octets = Vec::from_slice(alloc, octets)?;
                Ok(Some(BitStringAsn1 {
                    octets,
                    unused: *unused,
                }))
            }
            _ => Ok(None),
        }
    }

    /// How many bits there are, held at `usize`'s greatest value.
    pub fn len(&self) -> usize
        ensures { result ≡ min (bit_count self.now) usize.MAX }
    {
        self.count().min(usize::MAX as u128) as usize
    }

    // How many bits there are.
    fn count(&self) -> u128
        ensures { result ≡ bit_count self.now }
    {
        8 * self.octets.len() as u128 - self.unused as u128
    }

    /// Whether there are no bits.
    pub fn is_empty(&self) -> bool
        ensures { result ≡ (bit_count self.now == 0) }
    {
        self.octets.is_empty()
    }

    /// Bit `i`, counted from the most significant of the first octet. A missing bit is 0.
    pub fn bit(&self, i: usize) -> bool
        ensures { result ≡ bit_of self.now i }
    {
        match self.octets.get(i / 8) {
            Some(octet) => (octet >> (7 - i % 8)) & 1 == 1,
            None => false,
        }
    }

    /// Sets bit `i` to `value`, and returns whether there is such a bit. Past the end nothing changes.
    pub fn set(&mut self, i: usize, value: bool) -> bool
        ensures has_bit { result ≡ nat_lt i (bit_count self.old) }
        ensures bits { i < bit_count self.old → (k : ℕ) → bit_of self.new k ≡ (if k == i then value else bit_of self.old k) }
        ensures len { length self.new.octets ≡ length self.old.octets }
        ensures unused { self.new.unused ≡ self.old.unused }
        ensures past_end { bit_count self.old ≤ i → self.new ≡ self.old }
    {
        if i as u128 >= self.count() {
            return false;
        }
        self.set_bit(i, value);
        true
    }

    // Sets bit `i`, which is there, to `value`.
    fn set_bit(&mut self, i: usize, value: bool)
        requires { i < bit_count self.old }
        ensures bits { (k : ℕ) → bit_of self.new k ≡ (if k == i then value else bit_of self.old k) }
        ensures len { length self.new.octets ≡ length self.old.octets }
        ensures unused { self.new.unused ≡ self.old.unused }
    {
        let octet = self.octets[i / 8];
        self.octets[i / 8] = with_bit(octet, 7 - i % 8, value);
    }

    /// The octets. The unused bits of the last are zero.
    pub fn as_bytes(&self) -> &[u8]
        ensures value { result.now ≡ self.now.octets }
        ensures valid { IsBitString self.now }
    {
        self.octets.as_slice()
    }

    /// How many bits of the last octet are unused.
    pub fn unused(&self) -> u8
        ensures { result ≡ self.now.unused }
    {
        self.unused
    }
}

impl Clone for BitStringAsn1 {
    ghost is_clone = { λ bits copy. copy ≡ bits };

    fn clone(&self) -> Result<BitStringAsn1, AllocError> {
        let octets = self.octets.clone()?;
        Ok(BitStringAsn1 {
            octets,
            unused: self.unused,
        })
    }
}

impl PartialEq for BitStringAsn1 {
    ghost use Rattle.std.specs.Bool.{nat_eq};
    ghost use Rattle.std.specs.Cmp.Lexicographic.{pointwise};
    ghost use Rattle.std.specs.Cmp.Rules.{comparing};
    ghost use Rattle.std.specs.Ordering.{on};
    ghost use Rattle.std.proofs.lemmas.Cmp.{nat_list_eq_equiv};
    ghost use Rattle.std.proofs.Common.{rules};
    ghost use Rattle.picky_asn1.specs.BitString.{bit_content};

    ghost eq = { on bit_content (pointwise nat_eq) };

    ghost laws = { Prim.search (comparing, nat_list_eq_equiv, rules) };

    fn eq(&self, other: &BitStringAsn1) -> bool {
        self.unused == other.unused && self.as_bytes() == other.as_bytes()
    }
}

impl Eq for BitStringAsn1 {
    ghost use Rattle.std.specs.Cmp.Rules.{comparing};
    ghost use Rattle.std.proofs.Common.{rules};

    ghost laws = { Prim.search (comparing, rules) };
}

impl PartialOrd for BitStringAsn1 {
    ghost use Rattle.std.specs.Prelude.{Some};
    ghost use Rattle.std.specs.Ordering.{nat_cmp};
    ghost use Rattle.std.specs.Cmp.{on_po};
    ghost use Rattle.std.specs.Cmp.Lexicographic.{slice_cmp, texts_po};
    ghost use Rattle.picky_asn1.specs.BitString.{bit_content};

    ghost partial_cmp = { λ a b. Some (slice_cmp nat_cmp (bit_content a) (bit_content b)) };

    ghost laws = { on_po bit_content texts_po };

    fn partial_cmp(&self, other: &BitStringAsn1) -> Option<Ordering> {
        Some(self.cmp(other))
    }
}

/// Compares two values by the order of their content octets: the fewer unused bits are less, and the order of the octets decides between
/// equally many.
impl Ord for BitStringAsn1 {
    ghost use Rattle.std.specs.Prelude.{refl};
    ghost use Rattle.std.specs.Ordering.{nat_cmp};
    ghost use Rattle.std.specs.Cmp.{on_total};
    ghost use Rattle.std.specs.Cmp.Lexicographic.{slice_cmp, nat_list_cmp_total, texts_ties};
    ghost use Rattle.picky_asn1.specs.BitString.{bit_content};

    ghost cmp = { λ a b. slice_cmp nat_cmp (bit_content a) (bit_content b) };

    ghost total = { on_total bit_content nat_list_cmp_total };

    ghost matches_partial_cmp = { λ a b. refl };

    ghost matches_eq = { λ a b. texts_ties (bit_content a) (bit_content b) };

    fn cmp(&self, other: &BitStringAsn1) -> Ordering {
        let unused = self.unused.cmp(&other.unused);
        unused.then(self.as_bytes().cmp(other.as_bytes()))
    }
}

/// Hashes the number of unused bits and the octets.
impl Hash for BitStringAsn1 {
    ghost use Rattle.std.specs.Hash as fed;
    ghost use Rattle.std.specs.Cmp.Lexicographic.{bytes_decides};
    ghost use Rattle.std.proofs.Common.{ap};
    ghost use Rattle.picky_asn1.specs.BitString.{bit_content};
    ghost use Rattle.picky_asn1.specs.BitStringHash.{bits_hash};
    ghost use Rattle.picky_asn1.specs.BitStringLaws.{bit_content-injective};

    ghost hash_input = { bits_hash };

    ghost respects_eq = { λ a b e. ap bits_hash (bit_content-injective a b ((bytes_decides (bit_content a) (bit_content b)).0 e)) };

    fn hash<H: Hasher>(&self, state: &mut H) {
        self.unused.hash(state);
        self.as_bytes().hash(state);
    }
}

fn is_bit_string(octets: &[u8], unused: u8) -> bool
    ensures { result ≡ is_bit_string (record { octets = octets.now; unused = unused }) }
{
    match octets.last() {
        Some(last) => unused <= 7 && last % (1 << unused) == 0,
        None => unused == 0,
    }
}

// The octet with the bit at `place`, counted from the least significant, set to `value`.
fn with_bit(octet: u8, place: usize, value: bool) -> u8
    requires { place < 8 }
    ensures at_place { bit_at result place ≡ (if value then 1 else 0) }
    ensures elsewhere { (k : ℕ) → k < 8 → k ≢ place → bit_at result k ≡ bit_at octet k }
{
    let mask = 1u8 << place;
    if value { octet | mask } else { octet & !mask }
}
