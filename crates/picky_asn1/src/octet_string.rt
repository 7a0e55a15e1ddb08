//! Strings of octets.
ghost use Rattle.std.specs.Prelude.{◌≡◌, IfOk};
ghost use Rattle.std.specs.Bool.{nat_eq};
ghost use Rattle.std.specs.Cmp.Lexicographic.{pointwise};
ghost use Rattle.std.proofs.lemmas.Cmp.{nat_list_eq_equiv};
ghost use Rattle.std.proofs.Common.{rules};

use std::alloc::{AllocError, Global};
use std::cmp::Ordering;
use std::hash::{Hash, Hasher};
use std::marker::Model;

/// An OCTET STRING (X.690, section 8.7): any octets. A contract sees their list.
#[derive(Debug)]
pub struct OctetStringAsn1 {
    octets: Vec<u8>,
}

impl Drop for OctetStringAsn1 {
    fn drop(self) {
        let OctetStringAsn1 { octets: _ } = self;
    }
}

impl Model for OctetStringAsn1 {
    ghost use Rattle.std.specs.Prelude.{ℕ, List};

    ghost Value = { List ℕ };

    ghost view = { λ s. s.octets.items };
}

impl OctetStringAsn1 {
    /// A copy of the octets.
    pub fn new(alloc: Global, octets: &[u8]) -> Result<OctetStringAsn1, AllocError>
        ensures { IfOk result (λ s. s ≡ octets.now) }
    {
        let octets = Vec::from_slice(alloc, octets)?;
        Ok(OctetStringAsn1 { octets })
    }

    /// The octets.
    pub fn as_bytes(&self) -> &[u8]
        ensures { result.now ≡ self.now }
    {
        self.octets.as_slice()
    }
}

impl OctetStringAsn1 {
    /// The octets.
    fn into_octets(self) -> Vec<u8>
        ensures { result.items ≡ self }
    {
        let OctetStringAsn1 { octets } = self;
        octets
    }
}

impl Clone for OctetStringAsn1 {
    ghost is_clone = { λ string copy. copy ≡ string };

    fn clone(&self) -> Result<OctetStringAsn1, AllocError> {
        let octets = self.octets.clone()?;
        Ok(OctetStringAsn1 { octets })
    }
}

impl From<Vec<u8>> for OctetStringAsn1 {
    ghost from_gives = { λ octets s. s ≡ octets.items };

    fn from(octets: Vec<u8>) -> OctetStringAsn1 {
        OctetStringAsn1 { octets }
    }
}

impl From<OctetStringAsn1> for Vec<u8> {
    ghost from_gives = { λ s octets. octets.items ≡ s };

    fn from(string: OctetStringAsn1) -> Vec<u8> {
        string.into_octets()
    }
}

impl PartialEq for OctetStringAsn1 {
    ghost eq = { pointwise nat_eq };

    ghost laws = { Prim.search (nat_list_eq_equiv, rules) };

    fn eq(&self, other: &OctetStringAsn1) -> bool {
        self.as_bytes() == other.as_bytes()
    }
}

impl Eq for OctetStringAsn1 {
    ghost laws = { nat_list_eq_equiv };
}

impl PartialOrd for OctetStringAsn1 {
    ghost use Rattle.std.specs.Prelude.{Some};
    ghost use Rattle.std.specs.Ordering.{nat_cmp};
    ghost use Rattle.std.specs.Cmp.Lexicographic.{slice_cmp, texts_po};

    ghost partial_cmp = { λ a b. Some (slice_cmp nat_cmp a b) };

    ghost laws = { texts_po };

    fn partial_cmp(&self, other: &OctetStringAsn1) -> Option<Ordering> {
        Some(self.cmp(other))
    }
}

/// Compares two values by the order of their octets.
impl Ord for OctetStringAsn1 {
    ghost use Rattle.std.specs.Prelude.{refl};
    ghost use Rattle.std.specs.Ordering.{nat_cmp};
    ghost use Rattle.std.specs.Cmp.Lexicographic.{slice_cmp, nat_list_cmp_total, texts_ties};

    ghost cmp = { slice_cmp nat_cmp };

    ghost total = { nat_list_cmp_total };

    ghost matches_partial_cmp = { λ a b. refl };

    ghost matches_eq = { texts_ties };

    fn cmp(&self, other: &OctetStringAsn1) -> Ordering {
        self.as_bytes().cmp(other.as_bytes())
    }
}

/// Hashes the octets.
impl Hash for OctetStringAsn1 {
    ghost use Rattle.std.specs.Hash as fed;
    ghost use Rattle.std.specs.Cmp.Lexicographic.{bytes_decides};
    ghost use Rattle.std.proofs.Common.{ap};

    ghost hash_input = { λ octets. fed.slice fed.u8 octets };

    ghost respects_eq = { λ a b e. ap (λ octets. fed.slice fed.u8 octets) ((bytes_decides a b).0 e) };

    fn hash<H: Hasher>(&self, state: &mut H) {
        self.as_bytes().hash(state);
    }
}
