//! Lists of values of one type.
ghost use Rattle.std.specs.Prelude.{◌≡◌, IfOk};

use byte_streams::{Sink, Source};
use picky_asn1_der::{
    Asn1DerError, Deserialize, Deserializer, Elements, Serializer, Tagged, read_sequence,
};
use std::alloc::AllocError;
use std::cmp::Ordering;
use std::hash::{Hash, Hasher};
use std::marker::Model;

/// A list of values whose order is kept as given, with its identifier octet: a SEQUENCE OF (X.690, section 8.10) or a
/// SET OF (section 8.12). A contract sees the list of its values.
#[derive(Drop, Debug)]
pub struct ListOf<const OCTET: u8, T> {
    items: Vec<T>,
}

impl<const OCTET: u8, T> Model for ListOf<OCTET, T> {
    ghost use Rattle.std.specs.Prelude.{List};

    ghost Value = { List T };

    ghost view = { λ s. s.items.items };
}

impl<const OCTET: u8, T> ListOf<OCTET, T> {
    /// The values, in order.
    pub fn as_slice(&self) -> &[T]
        ensures { result.now ≡ self.now }
    {
        self.items.as_slice()
    }
}

impl<const OCTET: u8, T> From<Vec<T>> for ListOf<OCTET, T> {
    ghost from_gives = { λ items made. made ≡ items.items };

    fn from(items: Vec<T>) -> Self {
        ListOf { items }
    }
}

impl<const OCTET: u8, T: Clone> Clone for ListOf<OCTET, T> {
    ghost use Rattle.std.specs.List.{AllZip};

    ghost is_clone = { AllZip T.is_clone };

    fn clone(&self) -> Result<Self, AllocError> {
        let items = self.items.clone()?;
        Ok(ListOf { items })
    }
}

impl<const OCTET: u8, T: PartialEq> PartialEq for ListOf<OCTET, T> {
    ghost use Rattle.std.specs.Cmp.Lexicographic.{pointwise, lists_per};

    ghost eq = { pointwise T.eq };

    ghost laws = { lists_per T.laws };

    fn eq(&self, other: &Self) -> bool {
        self.as_slice() == other.as_slice()
    }
}

impl<const OCTET: u8, T: Eq> Eq for ListOf<OCTET, T> {
    ghost use Rattle.std.specs.Cmp.Lexicographic.{lists_equiv};

    ghost laws = { lists_equiv T.Eq.laws };
}

impl<const OCTET: u8, T: PartialOrd> PartialOrd for ListOf<OCTET, T> {
    ghost use Rattle.std.specs.Cmp.Lexicographic.{slice_partial_cmp, lists_po};

    ghost partial_cmp = { slice_partial_cmp T.partial_cmp };

    ghost laws = { lists_po T.PartialOrd.laws };

    fn partial_cmp(&self, other: &Self) -> Option<Ordering> {
        self.as_slice().partial_cmp(&other.as_slice())
    }
}

/// Compares two lists by their values. The first values that differ decide; where there are none, the shorter list is less.
impl<const OCTET: u8, T: Ord> Ord for ListOf<OCTET, T> {
    ghost use Rattle.std.specs.Cmp.Lexicographic.{slice_cmp, lists_total, lists_agrees, lists_ties};

    ghost cmp = { slice_cmp T.cmp };

    ghost total = { lists_total T.total };

    ghost matches_partial_cmp = { lists_agrees T.matches_partial_cmp };

    ghost matches_eq = { lists_ties T.cmp T.matches_eq };

    fn cmp(&self, other: &Self) -> Ordering {
        self.as_slice().cmp(&other.as_slice())
    }
}

/// Hashes the number of the values, and each value.
impl<const OCTET: u8, T: Hash> Hash for ListOf<OCTET, T> {
    ghost use Rattle.std.specs.Hash as fed;
    ghost use Rattle.std.specs.Hash.{items_Alike};

    ghost hash_input = { fed.slice T.hash_input };

    ghost respects_eq = { (items_Alike (record { fed = T.respects_eq })).fed };

    fn hash<H: Hasher>(&self, state: &mut H) {
        self.as_slice().hash(state);
    }
}

impl<const OCTET: u8, T: Deserialize + Drop> Tagged for ListOf<OCTET, T> {
    ghost use Rattle.asn1_der.specs.Tree.{trees_of};
    ghost use Rattle.asn1_der.proofs.Rows.{many-injective_as};
    ghost use Rattle.asn1_der.specs.Seen.{Alike, seen_list};
    ghost use Rattle.asn1_der.specs.Tagged.{sequence};
    ghost use Rattle.asn1_der.proofs.Tagged.{sequence_laws_as};
    ghost use Rattle.asn1_der.specs.Refusals.{list_refusal};

    type Row = Elements<T>;

    const FIRST: u8 = OCTET;

    ghost FIRST = { OCTET };

    ghost row_tree = { sequence (trees_of T.tree) };

    ghost row_seen = { seen_list T.seen };

    ghost seen = { seen_list T.seen };

    ghost row_laws = { sequence_laws_as (Alike (seen_list T.seen)) (trees_of T.tree) (many-injective_as _ T.tree T.seen T.injective) };

    ghost refuses = { list_refusal T.refusal };

    ghost row_of = { λ values. values };

    ghost one_row = { λ v w e. e };

    fn read_row<R: Source>(tag: u8, from: &mut Deserializer<R>) -> Result<Self::Row, Asn1DerError> {
        read_sequence(tag, from)
    }

    fn of_row(elements: Elements<T>) -> Self {
        ListOf::from(elements.into_vec())
    }

    fn write_row<W: Sink>(&self, tag: u8, to: &mut Serializer<W>) -> Result<usize, Asn1DerError> {
        let items = self.as_slice();
        to.list(tag, &items)
    }
}
