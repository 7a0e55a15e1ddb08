//! Principals of a cache.
ghost use Rattle.std.specs.Prelude.{◌≡◌, ◌↔◌, Ok, Err, IsTrue, codes, if◌then◌else◌};
ghost use Rattle.krb_file_formats.specs.Caches.{principal};
ghost use Rattle.krb_file_formats.specs.Formats.{Gives, Writes, text};
ghost use Rattle.asn1_leaves.specs.CharSets.{is_general_string};
ghost use Rattle.krb_file_formats.specs.declared.credential_caches.fault.CacheFault.TheVariants.{Character};

use crate::credential_caches::fault::{CacheFault, CacheWriteFault, Found};
use crate::credential_caches::fields::{count32, put_data, put_number32, read_data, read_number32};
use crate::credential_caches::items::{CacheItem, put_list, read_list};
use picky_asn1::LeafFault;
use picky_asn1::wrapper::GeneralStringAsn1;
use std::alloc::{AllocError, Global};
use std::marker::Model;

/// A principal. The name type is RFC 4120's in 32 bits (section 6.2), in two's complement.
#[derive(Drop)]
pub struct CachePrincipal {
    pub name_type: u32,
    pub realm: GeneralStringAsn1,
    pub components: Vec<GeneralStringAsn1>,
}

impl Model for CachePrincipal {
    ghost use Rattle.krb_file_formats.specs.Caches.{Principal};

    ghost Value = { Principal };

    ghost view = { λ p. record { name_type = p.name_type; realm = p.realm; components = p.components.items } };
}

// The realm of configuration entries.
const CONFIGURATION_REALM: &str = "X-CACHECONF:";

impl CachePrincipal {
    /// Returns whether this is the server of a configuration entry, whose realm is `X-CACHECONF:`.
    pub fn is_configuration(&self) -> bool
        ensures { IsTrue result ↔ (self.now.realm ≡ codes "X-CACHECONF:") }
    {
        self.realm.as_str() == CONFIGURATION_REALM
    }
}

impl Clone for CachePrincipal {
    ghost is_clone = { λ principal copy. copy ≡ principal };

    fn clone(&self) -> Result<CachePrincipal, AllocError> {
        let realm = self.realm.clone()?;
        let components = self.components.clone()?;
        Ok(CachePrincipal {
            name_type: self.name_type,
            realm,
            components,
        })
    }
}

/// Principals are the same where each field is.
impl PartialEq for CachePrincipal {
    ghost use Rattle.std.specs.Bool.{nat_eq};
    ghost use Rattle.std.specs.Cmp.Lexicographic.{pointwise};
    ghost use Rattle.std.specs.Cmp.Rules.{comparing};
    ghost use Rattle.std.specs.Ordering.{on, eq_of_both};
    ghost use Rattle.std.proofs.Common.{rules};

    ghost eq = { eq_of_both (on (λ p. p.name_type) nat_eq)
        (eq_of_both (on (λ p. p.realm) (pointwise nat_eq)) (on (λ p. p.components) (pointwise (pointwise nat_eq)))) };

    ghost laws = { Prim.search (comparing, rules) depth 16 };

    fn eq(&self, other: &CachePrincipal) -> bool {
        self.name_type == other.name_type
            && self.realm == other.realm
            && self.components.as_slice() == other.components.as_slice()
    }
}

impl Eq for CachePrincipal {
    ghost use Rattle.std.specs.Cmp.Rules.{comparing};
    ghost use Rattle.std.proofs.Common.{rules};

    ghost laws = { Prim.search (comparing, rules) depth 16 };
}

// Makes a text of the octets after the length at `place`.
fn text_of(alloc: Global, octets: &[u8], place: usize) -> Result<GeneralStringAsn1, CacheFault>
    ensures { Gives (λ s. s) result (if is_general_string octets.now then Ok octets.now else Err (Character place)) }
{
    match GeneralStringAsn1::new(alloc, octets) {
        Ok(text) => Ok(text),
        Err(LeafFault::Memory) => Err(CacheFault::Memory),
        Err(_) => Err(CacheFault::Character(place)),
    }
}

impl CacheItem for GeneralStringAsn1 {
    ghost format = { text };

    fn read(alloc: Global, bytes: &[u8], place: usize) -> Found<GeneralStringAsn1> {
        let (octets, end) = read_data(alloc, bytes, place)?;
        let text = text_of(alloc, octets.as_slice(), place)?;
        Ok((text, end))
    }

    fn put(&self, to: &mut Vec<u8>) -> Result<(), CacheWriteFault> {
        put_data(to, self.as_bytes())?;
        Ok(())
    }
}

impl CacheItem for CachePrincipal {
    ghost format = { principal };

    fn read(alloc: Global, bytes: &[u8], place: usize) -> Found<CachePrincipal> {
        let (name_type, at_count) = read_number32(bytes, place)?;
        let (count, at_realm) = read_number32(bytes, at_count)?;
        let (realm, at_components) = GeneralStringAsn1::read(alloc, bytes, at_realm)?;
        let (components, end) = read_list(alloc, bytes, at_components, count)?;
        Ok((
            CachePrincipal {
                name_type,
                realm,
                components,
            },
            end,
        ))
    }

    fn put(&self, to: &mut Vec<u8>) -> Result<(), CacheWriteFault> {
        put_number32(to, self.name_type)?;
        let count = count32(self.components.len())?;
        put_number32(to, count)?;
        self.realm.put(to)?;
        put_list(to, self.components.as_slice())?;
        Ok(())
    }
}
