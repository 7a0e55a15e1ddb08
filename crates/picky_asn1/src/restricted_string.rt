//! Strings of a character set (X.680, section 41).
ghost use Rattle.std.specs.Prelude.{◌≡◌, IsTrue, IfOk};
ghost use Rattle.asn1_leaves.specs.Makes.{Makes, Decodes};

use crate::LeafFault;
pub use asn1_leaves::char_sets::{
    BmpCharSet, CharSet, GeneralCharSet, Ia5CharSet, PrintableCharSet, TextCharSet, Utf8CharSet,
};
use std::alloc::{AllocError, Global};
use std::cmp::Ordering;
use std::hash::{Hash, Hasher};
use std::marker::{Model, PhantomData};
use std::{fmt, str};

/// A text of the character set `C`. A contract sees the list of its octets.
#[derive(Debug)]
pub struct RestrictedString<C: CharSet> {
    octets: Vec<u8>,
    set: PhantomData<C>,
}

impl<C: CharSet> Drop for RestrictedString<C> {
    fn drop(self) {
        let RestrictedString { octets: _, set: _ } = self;
    }
}

/// The text of a UTF8String, by the ported crate's name.
pub type Utf8String = RestrictedString<Utf8CharSet>;

/// The text of a PrintableString, by the ported crate's name.
pub type PrintableString = RestrictedString<PrintableCharSet>;

/// The text of an IA5String, by the ported crate's name.
pub type IA5String = RestrictedString<Ia5CharSet>;

/// The text of an IA5String, by the ported crate's second name for it.
pub type Ia5String = IA5String;

/// The text of a BMPString, by the ported crate's name.
pub type BmpString = RestrictedString<BmpCharSet>;

impl<C: CharSet> Model for RestrictedString<C> {
    ghost use Rattle.std.specs.Prelude.{ℕ, List, IsTrue};

    ghost Value = { List ℕ };

    ghost view = { λ s. s.octets.items };

    ghost invariant = { λ s. IsTrue (C.is_text s.octets.items) };
}

impl<C: CharSet> RestrictedString<C> {
    /// A copy of the octets, or `LeafFault::Character` where they are no text of the set.
    pub fn new(alloc: Global, octets: &[u8]) -> Result<RestrictedString<C>, LeafFault>
        ensures { Makes (IsTrue (C.is_text octets.now)) LeafFault.Character octets.now result }
    {
        match RestrictedString::from_content(alloc, octets)? {
            Some(string) => Ok(string),
            None => Err(LeafFault::Character),
        }
    }

    /// Reads the content octets of an element, none where they are no text of the set.
    pub fn from_content(
        alloc: Global,
        content: &[u8],
    ) -> Result<Option<RestrictedString<C>>, AllocError>
        ensures { IfOk result (Decodes (λ s. IsTrue (C.is_text s)) (λ s. s) content.now) }
    {
        if !C::has_text(content) {
            return Ok(None);
        }
        let octets = Vec::from_slice(alloc, content)?;
        Ok(Some(RestrictedString {
            octets,
            set: PhantomData,
        }))
    }

    /// The octets, which are the content octets too.
    pub fn as_bytes(&self) -> &[u8]
        ensures value { result.now ≡ self.now }
        ensures character_set { IsTrue (C.is_text self.now) }
    {
        self.octets.as_slice()
    }
}

impl<C: TextCharSet> RestrictedString<C> {
    /// The text, in the string's own memory.
    pub fn as_str(&self) -> &str
        ensures { result.now ≡ self.now }
    {
        str::from_utf8(self.as_bytes()).unwrap()
    }
}

impl<C: TextCharSet> fmt::Display for RestrictedString<C> {
    ghost use Rattle.std.specs.Prelude.{Some};

    ghost output = { λ text. Some text };

    fn fmt<W: fmt::Write>(&self, f: &mut fmt::Formatter<W>) -> fmt::Result {
        f.write_str(self.as_str())
    }
}

impl<C: CharSet> Clone for RestrictedString<C> {
    ghost is_clone = { λ string copy. copy ≡ string };

    fn clone(&self) -> Result<RestrictedString<C>, AllocError> {
        let octets = self.octets.clone()?;
        Ok(RestrictedString {
            octets,
            set: PhantomData,
        })
    }
}

impl<C: CharSet> PartialEq for RestrictedString<C> {
    ghost use Rattle.std.specs.Bool.{nat_eq};
    ghost use Rattle.std.specs.Cmp.Lexicographic.{pointwise};
    ghost use Rattle.std.proofs.lemmas.Cmp.{nat_list_eq_equiv};
    ghost use Rattle.std.proofs.Common.{rules};

    ghost eq = { pointwise nat_eq };

    ghost laws = { Prim.search (nat_list_eq_equiv, rules) };

    fn eq(&self, other: &RestrictedString<C>) -> bool {
        self.as_bytes() == other.as_bytes()
    }
}

impl<C: CharSet> Eq for RestrictedString<C> {
    ghost use Rattle.std.proofs.lemmas.Cmp.{nat_list_eq_equiv};

    ghost laws = { nat_list_eq_equiv };
}

impl<C: CharSet> PartialOrd for RestrictedString<C> {
    ghost use Rattle.std.specs.Prelude.{Some};
    ghost use Rattle.std.specs.Ordering.{nat_cmp};
    ghost use Rattle.std.specs.Cmp.Lexicographic.{slice_cmp, texts_po};

    ghost partial_cmp = { λ a b. Some (slice_cmp nat_cmp a b) };

    ghost laws = { texts_po };

    fn partial_cmp(&self, other: &RestrictedString<C>) -> Option<Ordering> {
        Some(self.cmp(other))
    }
}

/// Compares two values by the order of their octets.
impl<C: CharSet> Ord for RestrictedString<C> {
    ghost use Rattle.std.specs.Prelude.{refl};
    ghost use Rattle.std.specs.Ordering.{nat_cmp};
    ghost use Rattle.std.specs.Cmp.Lexicographic.{slice_cmp, nat_list_cmp_total, texts_ties};

    ghost cmp = { slice_cmp nat_cmp };

    ghost total = { nat_list_cmp_total };

    ghost matches_partial_cmp = { λ a b. refl };

    ghost matches_eq = { texts_ties };

    fn cmp(&self, other: &RestrictedString<C>) -> Ordering {
        self.as_bytes().cmp(other.as_bytes())
    }
}

/// Hashes the octets.
impl<C: CharSet> Hash for RestrictedString<C> {
    ghost use Rattle.std.specs.Hash as fed;
    ghost use Rattle.std.specs.Cmp.Lexicographic.{bytes_decides};
    ghost use Rattle.std.proofs.Common.{ap};

    ghost hash_input = { λ octets. fed.slice fed.u8 octets };

    ghost respects_eq = { λ a b e. ap (λ octets. fed.slice fed.u8 octets) ((bytes_decides a b).0 e) };

    fn hash<H: Hasher>(&self, state: &mut H) {
        self.as_bytes().hash(state);
    }
}
