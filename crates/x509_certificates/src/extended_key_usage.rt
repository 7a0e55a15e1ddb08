//! Purposes of keys (RFC 5280, section 4.2.1.12).
ghost use Rattle.std.specs.Prelude.{◌≡◌, MatchResult};
ghost use Rattle.std.specs.Bool.{nat_eq};
ghost use Rattle.std.specs.Cmp.Lexicographic.{pointwise};
ghost use Rattle.std.specs.List.{list_any};
ghost use Rattle.std.specs.Slice.Iter.{iter_rest, iter_mut_rest};
ghost use Rattle.std.specs.Borrow.{sem};
ghost use Rattle.asn1_der.specs.Octets.{sequence_octet};

use asn1_der::octets::SEQUENCE;
use byte_streams::{Sink, Source};
use picky_asn1::oid::ObjectIdentifier;
use picky_asn1::wrapper::ObjectIdentifierAsn1;
use picky_asn1_der::{
    Asn1DerError, Deserializer, Elements, Serialize, Serializer, Tagged, read_sequence,
};
use std::alloc::AllocError;
use std::marker::Model;
use std::slice::{Iter, IterMut};
use x509_spelling::Exact;

/// The purposes that a key may serve, in their order. A contract sees the list of them.
///
/// ```text
/// ExtKeyUsageSyntax ::= SEQUENCE SIZE (1..MAX) OF KeyPurposeId
///
/// KeyPurposeId ::= OBJECT IDENTIFIER
/// ```
///
/// An empty list is read too.
#[derive(Debug, Drop)]
pub struct ExtendedKeyUsage {
    purposes: Vec<ObjectIdentifierAsn1>,
}

impl Model for ExtendedKeyUsage {
    ghost use Rattle.std.specs.Prelude.{List};
    ghost use Rattle.picky_asn1.specs.declared.wrapper.ObjectIdentifierAsn1.{ObjectIdentifierAsn1};

    ghost Value = { List ObjectIdentifierAsn1 };

    ghost view = { λ usage. usage.purposes.items };
}

impl ExtendedKeyUsage {
    ghost use Rattle.x509_certificates.specs.Lent.{LendsPurposes};

    /// The extension's value with these purposes.
    pub fn new(purposes: Vec<ObjectIdentifierAsn1>) -> ExtendedKeyUsage
        ensures { result ≡ purposes.items }
    {
        ExtendedKeyUsage { purposes }
    }

    /// The purposes.
    pub fn as_slice(&self) -> &[ObjectIdentifierAsn1]
        ensures { result.now ≡ self.now }
    {
        self.purposes.as_slice()
    }

    /// The purposes, one after another.
    pub fn iter(&self) -> Iter<'_, ObjectIdentifierAsn1>
        ensures { iter_rest result ≡ self.now }
    {
        self.as_slice().iter()
    }

    /// The purposes, one after another, each to be written in place. Their number stays.
    pub fn iter_mut(&mut self) -> IterMut<'_, ObjectIdentifierAsn1>
        ensures* writes_back { sem 𝓛 (LendsPurposes self.entry result) }
        ensures purposes { iter_mut_rest result ≡ self.old }
    {
        self.purposes.as_mut_slice().iter_mut()
    }

    /// Whether this is one of the purposes.
    pub fn contains(&self, purpose: &ObjectIdentifier) -> bool
        ensures { result ≡ list_any (λ one. pointwise nat_eq one.0 purpose.now) self.now }
    {
        self.as_slice().iter().any(|one| one.0 == *purpose)
    }
}

impl Clone for ExtendedKeyUsage {
    ghost is_clone = { λ usage copy. copy ≡ usage };

    fn clone(&self) -> Result<ExtendedKeyUsage, AllocError> {
        let purposes = self.purposes.clone()?;
        Ok(ExtendedKeyUsage { purposes })
    }
}

impl PartialEq for ExtendedKeyUsage {
    ghost use Rattle.std.specs.Cmp.Rules.{comparing};
    ghost use Rattle.std.specs.Ordering.{on};
    ghost use Rattle.std.proofs.Common.{rules};

    ghost eq = { pointwise (on (λ one. one.0) (pointwise nat_eq)) };

    ghost laws = { Prim.search (comparing, rules) };

    fn eq(&self, other: &ExtendedKeyUsage) -> bool {
        self.as_slice() == other.as_slice()
    }
}

impl Eq for ExtendedKeyUsage {
    ghost use Rattle.std.specs.Cmp.Rules.{comparing};
    ghost use Rattle.std.proofs.Common.{rules};

    ghost laws = { Prim.search (comparing, rules) };
}

impl From<Vec<ObjectIdentifierAsn1>> for ExtendedKeyUsage {
    ghost from_gives = { λ purposes made. made ≡ purposes.items };

    fn from(purposes: Vec<ObjectIdentifierAsn1>) -> ExtendedKeyUsage {
        ExtendedKeyUsage { purposes }
    }
}

impl Tagged for ExtendedKeyUsage {
    ghost use Rattle.asn1_der.specs.Tree.{trees_of};
    ghost use Rattle.asn1_der.proofs.Rows.{many-injective};
    ghost use Rattle.asn1_der.specs.Tagged.{sequence};
    ghost use Rattle.asn1_der.proofs.Tagged.{sequence_laws};

    type Row = Elements<ObjectIdentifierAsn1>;

    const FIRST: u8 = SEQUENCE;

    ghost FIRST = { sequence_octet };

    ghost row_tree = { sequence (trees_of ⟦<ObjectIdentifierAsn1 as Serialize>⟧.tree) };

    ghost row_laws = { sequence_laws (trees_of ⟦<ObjectIdentifierAsn1 as Serialize>⟧.tree)
        (many-injective _ ⟦<ObjectIdentifierAsn1 as Serialize>⟧.tree ⟦<ObjectIdentifierAsn1 as Serialize>⟧.injective) };

    ghost row_of = { λ v. v };

    ghost one_row = { λ v w e. e };

    fn read_row<R: Source>(tag: u8, from: &mut Deserializer<R>) -> Result<Self::Row, Asn1DerError> {
        read_sequence(tag, from)
    }

    fn of_row(row: Self::Row) -> Self {
        ExtendedKeyUsage::new(row.into_vec())
    }

    fn write_row<W: Sink>(&self, tag: u8, to: &mut Serializer<W>) -> Result<usize, Asn1DerError> {
        let purposes = self.as_slice();
        to.list(tag, &purposes)
    }
}

impl Exact for ExtendedKeyUsage {
    ghost plain = { tt };
}
