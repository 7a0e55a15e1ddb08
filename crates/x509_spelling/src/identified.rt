//! SEQUENCEs of an object identifier and the fields of the kind that it denotes.
ghost use Rattle.std.specs.Prelude.{◌≡◌, true, IsTrue, MatchResult};
ghost use Rattle.picky_asn1_der.specs.Raw.{has_low_number};
ghost use Rattle.x509_spelling.specs.Spellings.{Leads, Joins, Holds};
ghost use Rattle.x509_spelling.specs.Answers.{Tells};

use crate::kinds::Kinds;
use crate::{Counted, Spelled, X509Fault, content_of, read_front, sum_of};
use picky_asn1::wrapper::ObjectIdentifierAsn1;
use std::alloc::Global;

/// The identifier and the fields of its kind that the bytes hold: one element with the identifier octet `first`.
pub fn read_identified<K: Kinds>(
    alloc: Global,
    first: u8,
    bytes: &[u8],
) -> Result<Counted<(ObjectIdentifierAsn1, K)>, X509Fault>
    requires sound { IsTrue K.is_sound }
    requires low { has_low_number first ≡ true }
    ensures { Tells (λ fields n. IsTrue (K.belongs fields.0.0 fields.1)
        × Holds first (λ f. Joins (Leads ⟦<ObjectIdentifierAsn1 as Spelled>⟧.spells) K.spells f.0 f.1) fields bytes.now n) result }
{
    let content = content_of(first, bytes)?;
    let (oid, rest) = read_front::<ObjectIdentifierAsn1>(alloc, content)?;
    let kind = K::read_kind(alloc, &oid.value.0, rest)?;
    let count = sum_of(oid.count, kind.count)?;
    Ok(Counted {
        value: (oid.into_value(), kind.into_value()),
        count,
    })
}
