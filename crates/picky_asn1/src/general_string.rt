//! GeneralString as Kerberos has it.
ghost use Rattle.std.specs.Prelude.{◌≡◌, IfOk};
ghost use Rattle.asn1_leaves.specs.CharSets.{IsGeneralString};
ghost use Rattle.asn1_leaves.specs.Makes.{Makes, Decodes};

use crate::LeafFault;
use crate::restricted_string::{GeneralCharSet, RestrictedString};
use std::alloc::{AllocError, Global};
use std::cmp::Ordering;
use std::fmt;
use std::hash::{Hash, Hasher};
use std::marker::Model;

/// A GeneralString of characters below 128, the only ones that Kerberos has in it (RFC 4120, section 5.2.1). A
/// contract sees their list.
#[derive(Debug)]
pub struct GeneralStringAsn1 {
    text: RestrictedString<GeneralCharSet>,
}

impl Drop for GeneralStringAsn1 {
    fn drop(self) {
        let GeneralStringAsn1 { text: _ } = self;
    }
}

impl Model for GeneralStringAsn1 {
    ghost use Rattle.std.specs.Prelude.{ℕ, List};
    ghost use Rattle.asn1_leaves.specs.CharSets.{IsGeneralString};

    ghost Value = { List ℕ };

    ghost view = { λ s. s.text };

    ghost invariant = { λ s. IsGeneralString s.text };
}

impl GeneralStringAsn1 {
    /// A copy of the characters, or `LeafFault::Character` where one isn't below 128.
    pub fn new(alloc: Global, characters: &[u8]) -> Result<GeneralStringAsn1, LeafFault>
        ensures { Makes (IsGeneralString characters.now) LeafFault.Character characters.now result }
    {
        let text = RestrictedString::new(alloc, characters)?;
        Ok(GeneralStringAsn1 { text })
    }

    /// Reads the content octets of an element, none where they are no GeneralString's.
    pub fn from_content(
        alloc: Global,
        content: &[u8],
    ) -> Result<Option<GeneralStringAsn1>, AllocError>
        ensures { IfOk result (Decodes IsGeneralString (λ s. s) content.now) }
    {
        match RestrictedString::from_content(alloc, content)? {
            Some(text) => Ok(Some(GeneralStringAsn1 { text })),
            None => Ok(None),
        }
    }

    /// The characters, which are the content octets too.
    pub fn as_bytes(&self) -> &[u8]
        ensures value { result.now ≡ self.now }
        ensures character_set { IsGeneralString self.now }
    {
        self.text.as_bytes()
    }

    /// The text, in the string's own memory.
    pub fn as_str(&self) -> &str
        ensures { result.now ≡ self.now }
    {
        self.text.as_str()
    }
}

impl fmt::Display for GeneralStringAsn1 {
    ghost use Rattle.std.specs.Prelude.{Some};

    ghost output = { λ text. Some text };

    fn fmt<W: fmt::Write>(&self, f: &mut fmt::Formatter<W>) -> fmt::Result {
        f.write_str(self.as_str())
    }
}

impl Clone for GeneralStringAsn1 {
    ghost is_clone = { λ string copy. copy ≡ string };

    fn clone(&self) -> Result<GeneralStringAsn1, AllocError> {
        let text = self.text.clone()?;
        Ok(GeneralStringAsn1 { text })
    }
}

impl PartialEq for GeneralStringAsn1 {
    ghost use Rattle.std.specs.Bool.{nat_eq};
    ghost use Rattle.std.specs.Cmp.Lexicographic.{pointwise};
    ghost use Rattle.std.proofs.lemmas.Cmp.{nat_list_eq_equiv};
    ghost use Rattle.std.proofs.Common.{rules};

    ghost eq = { pointwise nat_eq };

    ghost laws = { Prim.search (nat_list_eq_equiv, rules) };

    fn eq(&self, other: &GeneralStringAsn1) -> bool {
        self.text == other.text
    }
}

impl Eq for GeneralStringAsn1 {
    ghost use Rattle.std.proofs.lemmas.Cmp.{nat_list_eq_equiv};

    ghost laws = { nat_list_eq_equiv };
}

impl PartialOrd for GeneralStringAsn1 {
    ghost use Rattle.std.specs.Prelude.{Some};
    ghost use Rattle.std.specs.Ordering.{nat_cmp};
    ghost use Rattle.std.specs.Cmp.Lexicographic.{slice_cmp, texts_po};

    ghost partial_cmp = { λ a b. Some (slice_cmp nat_cmp a b) };

    ghost laws = { texts_po };

    fn partial_cmp(&self, other: &GeneralStringAsn1) -> Option<Ordering> {
        Some(self.cmp(other))
    }
}

/// Compares two values by the order of their octets.
impl Ord for GeneralStringAsn1 {
    ghost use Rattle.std.specs.Prelude.{refl};
    ghost use Rattle.std.specs.Ordering.{nat_cmp};
    ghost use Rattle.std.specs.Cmp.Lexicographic.{slice_cmp, nat_list_cmp_total, texts_ties};

    ghost cmp = { slice_cmp nat_cmp };

    ghost total = { nat_list_cmp_total };

    ghost matches_partial_cmp = { λ a b. refl };

    ghost matches_eq = { texts_ties };

    fn cmp(&self, other: &GeneralStringAsn1) -> Ordering {
        self.as_bytes().cmp(other.as_bytes())
    }
}

/// Hashes the octets.
impl Hash for GeneralStringAsn1 {
    ghost use Rattle.std.specs.Hash as fed;
    ghost use Rattle.std.specs.Cmp.Lexicographic.{bytes_decides};
    ghost use Rattle.std.proofs.Common.{ap};

    ghost hash_input = { λ octets. fed.slice fed.u8 octets };

    ghost respects_eq = { λ a b e. ap (λ octets. fed.slice fed.u8 octets) ((bytes_decides a b).0 e) };

    fn hash<H: Hasher>(&self, state: &mut H) {
        self.as_bytes().hash(state);
    }
}
