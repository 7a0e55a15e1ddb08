//! Octets with their type.
ghost use Rattle.krb_file_formats.specs.Caches.{typed};
ghost use Rattle.std.specs.Prelude.{◌≡◌};

use crate::credential_caches::fault::{CacheWriteFault, Found};
use crate::credential_caches::fields::{put_data, put_number16, read_data, read_number16};
use crate::credential_caches::items::CacheItem;
use std::alloc::{AllocError, Global};
use std::marker::Model;

/// Octets with their type: a key with its etype (RFC 3961, section 8), an address (RFC 4120, section 7.5.3), or an element of
/// authorization data (section 7.5.4), whose negative types are in two's complement.
#[derive(Drop)]
pub struct TypedOctets {
    pub kind: u16,
    pub octets: Vec<u8>,
}

impl Model for TypedOctets {
    ghost use Rattle.krb_file_formats.specs.Caches.{Typed};

    ghost Value = { Typed };

    ghost view = { λ t. record { kind = t.kind; octets = t.octets.items } };
}

impl Clone for TypedOctets {
    ghost is_clone = { λ typed copy. copy ≡ typed };

    fn clone(&self) -> Result<TypedOctets, AllocError> {
        let octets = self.octets.clone()?;
        Ok(TypedOctets {
            kind: self.kind,
            octets,
        })
    }
}

/// Octets are the same where their types are, too.
impl PartialEq for TypedOctets {
    ghost use Rattle.std.specs.Bool.{nat_eq};
    ghost use Rattle.std.specs.Cmp.Lexicographic.{pointwise};
    ghost use Rattle.std.specs.Cmp.Rules.{comparing};
    ghost use Rattle.std.specs.Ordering.{on, eq_of_both};
    ghost use Rattle.std.proofs.Common.{rules};

    ghost eq = { eq_of_both (on (λ t. t.kind) nat_eq) (on (λ t. t.octets) (pointwise nat_eq)) };

    ghost laws = { Prim.search (comparing, rules) };

    fn eq(&self, other: &TypedOctets) -> bool {
        self.kind == other.kind && self.octets.as_slice() == other.octets.as_slice()
    }
}

impl Eq for TypedOctets {
    ghost use Rattle.std.specs.Cmp.Rules.{comparing};
    ghost use Rattle.std.proofs.Common.{rules};

    ghost laws = { Prim.search (comparing, rules) };
}

impl CacheItem for TypedOctets {
    ghost format = { typed };

    fn read(alloc: Global, bytes: &[u8], place: usize) -> Found<TypedOctets> {
        let (kind, begin) = read_number16(bytes, place)?;
        let (octets, end) = read_data(alloc, bytes, begin)?;
        Ok((TypedOctets { kind, octets }, end))
    }

    fn put(&self, to: &mut Vec<u8>) -> Result<(), CacheWriteFault> {
        put_number16(to, self.kind)?;
        put_data(to, self.octets.as_slice())?;
        Ok(())
    }
}
