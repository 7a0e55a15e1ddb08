//! Fields of which a value in front of them decides the kind.
ghost use Rattle.std.specs.Prelude.{◌≡◌, ℕ, true, List, IsTrue, MatchResult};
ghost use Rattle.picky_asn1_der.specs.Raw.{has_low_number};
ghost use Rattle.x509_spelling.specs.Spellings.{Leads, Joins, Holds};
ghost use Rattle.x509_spelling.specs.Answers.{Tells};

use crate::kinds::Kinds;
use crate::{Counted, Spelled, X509Fault, content_of, read_front, sum_of};
use picky_asn1::oid::ObjectIdentifier;
use std::alloc::Global;

/// A value that bears an object identifier, as an algorithm does.
pub trait Identified: Spelled {
    ghost arcs_of: { Self → List ℕ };

    /// The identifier.
    fn identifier(&self) -> &ObjectIdentifier
        ensures { result.now ≡ arcs_of self.now };
}

/// A value and the fields of the kind that its identifier denotes, which take up all of a content.
pub fn read_chosen<A: Identified, K: Kinds>(
    alloc: Global,
    content: &[u8],
) -> Result<Counted<(A, K)>, X509Fault>
    requires { IsTrue K.is_sound }
    ensures { Tells (λ fields n. IsTrue (K.belongs (A.arcs_of fields.0) fields.1)
        × Joins (Leads A.spells) K.spells fields.0 fields.1 content.now n) result }
{
    let (chooser, rest) = read_front::<A>(alloc, content)?;
    let fields = K::read_kind(alloc, chooser.value.identifier(), rest)?;
    let count = sum_of(chooser.count, fields.count)?;
    Ok(Counted {
        value: (chooser.into_value(), fields.into_value()),
        count,
    })
}

/// A value and the fields of the kind that its identifier denotes. The bytes are one element with the identifier octet `first`, whose
/// content they take up.
pub fn read_chosen_in<A: Identified, K: Kinds>(
    alloc: Global,
    first: u8,
    bytes: &[u8],
) -> Result<Counted<(A, K)>, X509Fault>
    requires sound { IsTrue K.is_sound }
    requires low { has_low_number first ≡ true }
    ensures { Tells (λ fields n. IsTrue (K.belongs (A.arcs_of fields.0) fields.1)
        × Holds first (λ f. Joins (Leads A.spells) K.spells f.0 f.1) fields bytes.now n) result }
{
    let content = content_of(first, bytes)?;
    let read = read_chosen(alloc, content)?;
    Ok(read)
}

/// A field, and then a value and the fields of the kind that its identifier denotes, which take up all of the content of one element.
pub fn read_chosen_behind<H: Spelled, A: Identified, K: Kinds>(
    alloc: Global,
    first: u8,
    bytes: &[u8],
) -> Result<Counted<(H, (A, K))>, X509Fault>
    requires sound { IsTrue K.is_sound }
    requires low { has_low_number first ≡ true }
    ensures { Tells (λ fields n. IsTrue (K.belongs (A.arcs_of fields.1.0) fields.1.1)
        × Holds first (λ f. Joins (Leads H.spells) (λ g. Joins (Leads A.spells) K.spells g.0 g.1) f.0 f.1) fields bytes.now n) result }
{
    let content = content_of(first, bytes)?;
    let (head, rest) = read_front::<H>(alloc, content)?;
    let fields = read_chosen(alloc, rest)?;
    let count = sum_of(head.count, fields.count)?;
    Ok(Counted {
        value: (head.into_value(), fields.into_value()),
        count,
    })
}
