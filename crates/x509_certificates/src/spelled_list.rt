//! Lists of which each element may deviate (X.690, sections 8.10 and 8.12).
ghost use Rattle.std.specs.Prelude.{◌≡◌, [], ◌∷◌, ◌++◌, IsTrue, MatchResult};
ghost use Rattle.asn1_der.specs.Tree.{trees_of};
ghost use Rattle.asn1_der.specs.Tagged.{sequence};
ghost use Rattle.asn1_der.specs.Firsts.{only};
ghost use Rattle.x509_certificates.specs.ListLaws.{list_octet};

use asn1_der::octets::SEQUENCE;
use byte_streams::Sink;
use picky_asn1_der::{Asn1DerError, Serialize, Serializer};
use std::alloc::{AllocError, Global};
use std::marker::Model;
use x509_spelling::{Counted, Many, Spelled, X509Fault, read_fields};

/// Elements of lists: each has its tag in one octet, and its copy is the element itself.
pub trait ListElement: Spelled + Clone {
    ghost one_octet: { IsTrue Self.has_low_tags };

    ghost is_copy: { (value copy : Self) → Self.is_clone value copy → copy ≡ value };
}

/// Elements in their order, one behind the other under one tag: that of SEQUENCE where `OCTET` is even, else that of SET. A contract
/// sees the list of them.
#[derive(Debug, Drop)]
pub struct SpelledList<const OCTET: u8, T> {
    items: Vec<T>,
}

impl<const OCTET: u8, T> Model for SpelledList<OCTET, T> {
    ghost use Rattle.std.specs.Prelude.{List};

    ghost Value = { List T };

    ghost view = { λ list. list.items.items };
}

impl<const OCTET: u8, T> SpelledList<OCTET, T> {
    /// The elements.
    pub fn as_slice(&self) -> &[T]
        ensures { result.now ≡ self.now }
    {
        self.items.as_slice()
    }

    /// Adds an element after the others.
    pub fn push(&mut self, element: T) -> Result<(), AllocError>
    where
        T: Drop,
        ensures { MatchResult result (λ _. self.new ≡ self.old ++ (element ∷ [])) (λ _. self.new ≡ self.old) }
    {
        self.items.push(element)?;
        Ok(())
    }
}

impl<const OCTET: u8, T: ListElement> Clone for SpelledList<OCTET, T> {
    ghost is_clone = { λ list copy. copy ≡ list };

    fn clone(&self) -> Result<Self, AllocError> {
        let items = self.items.clone()?;
        Ok(SpelledList { items })
    }
}

impl<const OCTET: u8, T: PartialEq> PartialEq for SpelledList<OCTET, T> {
    ghost use Rattle.std.specs.Cmp.Lexicographic.{pointwise, lists_per};

    ghost eq = { pointwise T.eq };

    ghost laws = { lists_per T.laws };

    fn eq(&self, other: &Self) -> bool {
        self.as_slice() == other.as_slice()
    }
}

impl<const OCTET: u8, T: Eq> Eq for SpelledList<OCTET, T> {
    ghost use Rattle.std.specs.Cmp.Lexicographic.{lists_equiv};

    ghost laws = { lists_equiv T.Eq.laws };
}

impl<const OCTET: u8, T> From<Vec<T>> for SpelledList<OCTET, T> {
    ghost from_gives = { λ items made. made ≡ items.items };

    fn from(items: Vec<T>) -> Self {
        SpelledList { items }
    }
}

impl<const OCTET: u8, T: Serialize> Serialize for SpelledList<OCTET, T> {
    ghost use Rattle.asn1_der.specs.Refusals.{list_refusal};
    ghost use Rattle.asn1_der.specs.Seen.{Alike, seen_list};
    ghost use Rattle.asn1_der.proofs.Spelling.{may_begin-only};
    ghost use Rattle.asn1_der.proofs.Rows.{many-injective_as};
    ghost use Rattle.asn1_der.proofs.Tagged.{sequence_laws_as};

    ghost tree = { sequence (trees_of T.tree) (list_octet OCTET) };

    ghost seen = { seen_list T.seen };

    ghost refusal = { list_refusal T.refusal };

    ghost firsts = { only (list_octet OCTET) };

    ghost begins = { λ _. may_begin-only (list_octet OCTET) };

    ghost injective = { (sequence_laws_as (Alike (seen_list T.seen)) (trees_of T.tree) (many-injective_as _ T.tree T.seen T.injective)).injective (list_octet OCTET) };

    fn serialize<W: Sink>(&self, to: &mut Serializer<W>) -> Result<usize, Asn1DerError> {
        let items = self.as_slice();
        to.list(SEQUENCE + OCTET % 2, &items)
    }
}

impl<const OCTET: u8, T: ListElement> Spelled for SpelledList<OCTET, T> {
    ghost use Rattle.std.proofs.Common.{true, ap, ◌∙◌};
    ghost use Rattle.x509_spelling.specs.Spellings.{Holds, AreMany};
    ghost use Rattle.x509_certificates.specs.ListLaws.{low_tree, low_spells, low_tree-is, list_tag, list_laws};

    ghost spells = { Holds (list_octet OCTET) (AreMany (low_spells T.has_low_tags T.spells)) };

    ghost written = { sequence (trees_of (low_tree T.has_low_tags T.written)) (list_octet OCTET) };

    ghost begun = { only (list_octet OCTET) };

    ghost has_low_tags = { true };

    ghost laws = { list_laws (list_octet OCTET) (list_tag OCTET) T.has_low_tags T.begun T.written T.spells T.laws };

    fn may_begin_with(first: u8) -> bool {
        first == SEQUENCE + OCTET % 2
    }

    #[tactic(auto, using(crate::specs::ListLaws::list_tag))]
    fn read_counted(alloc: Global, bytes: &[u8]) -> Result<Counted<Self>, X509Fault> {
        let read: Counted<Many<T>> = read_fields(alloc, SEQUENCE + OCTET % 2, bytes)?;
        let count = read.count;
        let value = SpelledList::from(read.into_value().into_vec());
        Ok(Counted { value, count })
    }

    ghost written_is = { ap (λ tree. sequence (trees_of tree) (list_octet OCTET)) (T.written_is ∙ low_tree-is T.has_low_tags T.one_octet T.written) };
}

impl<const OCTET: u8, T: ListElement> ListElement for SpelledList<OCTET, T> {
    ghost use Rattle.std.proofs.Common.{refl};

    ghost one_octet = { refl };

    ghost is_copy = { λ value copy same. same };
}
