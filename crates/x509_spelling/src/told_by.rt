//! Fields with the object identifiers that tell them.
ghost use Rattle.std.specs.Prelude.{◌≡◌, ℕ, Bool, List};
ghost use Rattle.asn1_leaves.specs.ObjectIdentifier.{oid_content};

use crate::kinds::Kind;
use crate::{Counted, SpelledFields, X509Fault};
use byte_streams::Sink;
use picky_asn1::oid::ObjectIdentifier;
use picky_asn1_der::{Asn1DerError, Serializer, WriteFields};
use std::alloc::Global;
use std::marker::{Model, PhantomData};

/// Some object identifiers, as a type.
pub trait Identifiers {
    ghost are_told: { List ℕ → Bool };

    /// Whether an identifier of these content octets is one of them.
    fn tell(content: &[u8]) -> bool
        ensures { result ≡ are_told content.now };
}

/// Fields that the identifiers `I` tell. A contract sees the fields.
#[derive(Drop)]
pub struct ToldBy<I, F> {
    fields: F,
    identifiers: PhantomData<I>,
}

impl<I, F> Model for ToldBy<I, F> {
    ghost Value = { F };

    ghost view = { λ told. told.fields };
}

impl<I, F> ToldBy<I, F> {
    /// The fields.
    pub fn into_fields(self) -> F
        ensures { result ≡ self }
    {
        self.fields
    }
}

impl<I, F: SpelledFields> SpelledFields for ToldBy<I, F> {
    ghost spells = { F.spells };

    ghost row_trees = { F.row_trees };

    ghost row_firsts = { F.row_firsts };

    ghost is_sound = { F.is_sound };

    ghost row_laws = { F.row_laws };

    fn read_content(alloc: Global, content: &[u8]) -> Result<Counted<Self>, X509Fault> {
        let read = F::read_content(alloc, content)?;
        let count = read.count;
        let value = ToldBy {
            fields: read.into_value(),
            identifiers: PhantomData,
        };
        Ok(Counted { value, count })
    }
}

impl<I: Identifiers, F: SpelledFields> Kind for ToldBy<I, F> {
    ghost told_by = { λ arcs. I.are_told (oid_content arcs) };

    fn is_told_by(oid: &ObjectIdentifier) -> bool {
        I::tell(oid.as_bytes())
    }
}
