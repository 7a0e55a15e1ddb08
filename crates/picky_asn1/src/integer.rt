//! Whole numbers.
ghost use Rattle.std.specs.Prelude.{◌≡◌, ◌≢◌, ◌<◌, ◌≤◌, ℤ, pos, map, ◌∷◌, length, slice_index, nat_le, nat_lt, ◌&&◌, ◌==◌, if◌then◌else◌, IfOk, MatchOption, SomeIff, FitsSigned};
ghost use Rattle.std.specs.Int.{w64};
ghost use Rattle.std.specs.Int.Digits.{number_from_digits};
ghost use Rattle.picky_asn1.specs.Integer.{complement, is_integer, IsInteger, integer_value, integer_content, unsigned_octets};
ghost use Rattle.asn1_leaves.specs.Makes.{Makes};

use crate::LeafFault;
use crate::few_octets::FewOctets;
use std::alloc::{AllocError, Global};
use std::cmp::Ordering;
use std::hash::{Hash, Hasher};
use std::marker::Model;

/// An INTEGER of any size and sign (X.690, section 8.3). A contract sees a whole number.
#[derive(Debug)]
pub struct IntegerAsn1 {
    octets: FewOctets,
}

impl Drop for IntegerAsn1 {
    fn drop(self) {
        let IntegerAsn1 { octets: _ } = self;
    }
}

impl Model for IntegerAsn1 {
    ghost use Rattle.std.specs.Prelude.{◌≡◌, ℤ};
    ghost use Rattle.picky_asn1.specs.Integer.{integer_content, integer_value};

    ghost Value = { ℤ };

    ghost view = { λ z. integer_value z.octets };

    ghost invariant = { λ z. integer_content (integer_value z.octets) ≡ z.octets };
}

impl IntegerAsn1 {
    /// The number whose two's complement the octets are, or `LeafFault::Integer` where there are none, or
    /// more than the number needs.
    pub fn new(alloc: Global, octets: &[u8]) -> Result<IntegerAsn1, LeafFault>
        ensures { Makes (IsInteger octets.now) LeafFault.Integer (integer_value octets.now) result }
    {
        if !is_integer(octets) {
            return Err(LeafFault::Integer);
        }
        Ok(IntegerAsn1::from_octets(alloc, octets)?)
    }

    /// Reads the content octets of an element, none where they are no integer's.
    pub fn from_content(alloc: Global, content: &[u8]) -> Result<Option<IntegerAsn1>, AllocError>
        ensures { IfOk result (λ read. MatchOption
            read
            ((z : ℤ) → integer_content z ≢ content.now)
            (λ z. integer_content z ≡ content.now)) }
    {
        if !is_integer(content) {
            return Ok(None);
        }
        Ok(Some(IntegerAsn1::from_octets(alloc, content)?))
    }

    /// The number whose two's complement the octets are, the most significant first, or
    /// `LeafFault::Integer` where there are none. Octets that the number doesn't need are left out.
    pub fn from_bytes_be_signed(alloc: Global, octets: &[u8]) -> Result<IntegerAsn1, LeafFault>
        ensures { Makes (0 < length octets.now) LeafFault.Integer (integer_value octets.now) result }
    {
        if octets.is_empty() {
            return Err(LeafFault::Integer);
        }
        Ok(IntegerAsn1::from_octets(alloc, shortest(octets))?)
    }

    /// The number whose digits to the base 256 the octets are, the most significant first, or
    /// `LeafFault::Integer` where there are none. Octets that the number doesn't need are left out.
    pub fn from_bytes_be_unsigned(alloc: Global, octets: &[u8]) -> Result<IntegerAsn1, LeafFault>
        ensures { Makes
            (0 < length octets.now)
            LeafFault.Integer
            (pos (number_from_digits 256 octets.now))
            result }
    {
        if octets.is_empty() {
            return Err(LeafFault::Integer);
        }
        let signed = behind_zero(alloc, octets)?;
        Ok(IntegerAsn1::from_octets(alloc, shortest(signed.as_slice()))?)
    }

    /// The number.
    pub fn from_u64(alloc: Global, value: u64) -> Result<IntegerAsn1, AllocError>
        ensures { IfOk result (λ z. z ≡ pos value) }
    {
        // Most numbers of messages are one octet, and of those none is left out.
        if value < 128 {
            return IntegerAsn1::from_octets(alloc, &[value as u8]);
        }
        let mut octets = [0; 9];
        octets[1..].copy_from_slice(&value.to_be_bytes());
        IntegerAsn1::from_octets(alloc, shortest(&octets))
    }

    /// The number 0.
    pub fn default(alloc: Global) -> Result<IntegerAsn1, AllocError>
        ensures { IfOk result (λ z. z ≡ pos 0) }
    {
        IntegerAsn1::from_u64(alloc, 0)
    }

    fn from_octets(alloc: Global, octets: &[u8]) -> Result<IntegerAsn1, AllocError>
        requires { IsInteger octets.now }
        ensures value { IfOk result (λ z. z ≡ integer_value octets.now) }
        ensures content { IfOk result (λ z. integer_content z ≡ octets.now) }
    {
        let octets = FewOctets::from_slice(alloc, octets)?;
        Ok(IntegerAsn1 { octets })
    }

    /// The number as an `i64`, where it is one.
    pub fn to_i64(&self) -> Option<i64>
        ensures { SomeIff result (FitsSigned w64 self.now) self.now }
    {
        let octets = self.octets.as_slice();
        if octets.len() > 8 {
            return None;
        }
        if is_negative(octets) {
            Some(-1 - number_of(octets, true) as i64)
        } else {
            Some(number_of(octets, false) as i64)
        }
    }

    /// The number's two's complement in the fewest octets, the most significant first.
    pub fn as_signed_bytes_be(&self) -> &[u8]
        ensures { result.now ≡ integer_content self.now }
    {
        self.octets.as_slice()
    }

    /// The number's digits to the base 256, the most significant first: of 0 the octet 0, and of no other number a zero
    /// octet in front. Of a negative number its two's complement.
    pub fn as_unsigned_bytes_be(&self) -> &[u8]
        ensures { result.now ≡ unsigned_octets self.now }
    {
        let octets = self.octets.as_slice();
        if has_sign_octet(octets) {
            &octets[1..]
        } else {
            octets
        }
    }
}

impl Clone for IntegerAsn1 {
    ghost is_clone = { λ z copy. copy ≡ z };

    fn clone(&self) -> Result<IntegerAsn1, AllocError> {
        let octets = self.octets.clone()?;
        Ok(IntegerAsn1 { octets })
    }
}

impl PartialEq for IntegerAsn1 {
    ghost use Rattle.std.specs.Ordering.{int_eq};
    ghost use Rattle.std.specs.Cmp.Rules.{comparing};
    ghost use Rattle.std.proofs.Common.{rules};

    ghost eq = { int_eq };

    ghost laws = { Prim.search (comparing, rules) };

    fn eq(&self, other: &IntegerAsn1) -> bool {
        self.octets.as_slice() == other.octets.as_slice()
    }
}

impl Eq for IntegerAsn1 {
    ghost use Rattle.std.specs.Cmp.Rules.{comparing};
    ghost use Rattle.std.proofs.Common.{rules};

    ghost laws = { Prim.search (comparing, rules) };
}

impl PartialOrd for IntegerAsn1 {
    ghost use Rattle.picky_asn1.specs.IntegerOrder.{content_partial_cmp, content_order};

    ghost partial_cmp = { content_partial_cmp };

    ghost laws = { content_order };

    fn partial_cmp(&self, other: &IntegerAsn1) -> Option<Ordering> {
        Some(self.cmp(other))
    }
}

/// Compares two values by the order of their content octets, which isn't that of the numbers.
impl Ord for IntegerAsn1 {
    ghost use Rattle.std.specs.Prelude.{refl};
    ghost use Rattle.picky_asn1.specs.IntegerOrder.{content_cmp, content_total, content_ties};

    ghost cmp = { content_cmp };

    ghost total = { content_total };

    ghost matches_partial_cmp = { λ y z. refl };

    ghost matches_eq = { content_ties };

    fn cmp(&self, other: &IntegerAsn1) -> Ordering {
        self.as_signed_bytes_be().cmp(other.as_signed_bytes_be())
    }
}

/// Hashes the content octets.
impl Hash for IntegerAsn1 {
    ghost use Rattle.std.specs.Hash as fed;
    ghost use Rattle.std.specs.Cmp.{signed_Decides};
    ghost use Rattle.std.proofs.Common.{ap};
    ghost use Rattle.picky_asn1.specs.Integer.{integer_content};

    ghost hash_input = { λ z. fed.slice fed.u8 (integer_content z) };

    ghost respects_eq = { λ y z e. ap (λ z. fed.slice fed.u8 (integer_content z)) ((signed_Decides y z).0 e) };

    fn hash<H: Hasher>(&self, state: &mut H) {
        self.as_signed_bytes_be().hash(state);
    }
}

// The octets after one that says that the number isn't negative.
fn behind_zero(alloc: Global, octets: &[u8]) -> Result<Vec<u8>, AllocError>
    ensures { IfOk result (λ signed. signed.items ≡ 0 ∷ octets.now) }
{
    let mut signed = Vec::new(alloc);
    signed.push(0)?;
    signed.extend_from_slice(octets)?;
    Ok(signed)
}

// Whether the octets are the fewest for their number (X.690, section 8.3.2).
fn is_integer(octets: &[u8]) -> bool
    ensures { result ≡ is_integer octets.now }
{
    match octets {
        [] => false,
        [_] => true,
        [0, second, ..] => *second >= 128,
        [255, second, ..] => *second < 128,
        _ => true,
    }
}

// Whether the first octet only says that the number isn't negative.
fn has_sign_octet(octets: &[u8]) -> bool
    ensures { result ≡ (nat_lt 1 (length octets.now) && (slice_index octets.now 0 == 0)) }
{
    match octets {
        [first, _, ..] => *first == 0,
        _ => false,
    }
}

fn is_negative(octets: &[u8]) -> bool
    ensures { result ≡ nat_le 128 (slice_index octets.now 0) }
{
    match octets {
        [first, ..] => *first >= 128,
        [] => false,
    }
}

// The fewest of the octets that represent the same number.
fn shortest(octets: &[u8]) -> &[u8]
    requires { 0 < length octets.now }
    ensures minimal { IsInteger result.now }
    ensures value { integer_value result.now ≡ integer_value octets.now }
{
    let mut rest = octets;
    while !is_integer(rest) {
        rest = &rest[1..];
    }
    rest
}

// The number whose digits to the base 256 the octets are, or their complements.
fn number_of(octets: &[u8], complemented: bool) -> u64
    requires { length octets.now ≤ 8 }
    ensures { result
        ≡ number_from_digits 256 (if complemented then map complement octets.now else octets.now) }
{
    let mut number = 0;
    for octet in octets {
        let digit = digit_of(*octet, complemented);
        number = number * 256 + digit as u64;
    }
    number
}

fn digit_of(octet: u8, complemented: bool) -> u8
    ensures { result ≡ (if complemented then complement octet else octet) }
{
    if complemented { 255 - octet } else { octet }
}
