//! Credential caches.
ghost use Rattle.std.specs.Prelude.{◌≡◌, ℕ, List, Ok, IfOk, MatchResult};
ghost use Rattle.krb_file_formats.specs.Caches.{Cache, IsCredentialCache, IsWritable, cache_at, cache_bytes, version_at};
ghost use Rattle.krb_file_formats.specs.Formats.{Gives, IsWriteRefusal};
ghost use Rattle.krb_file_formats.specs.declared.credential_caches.fault.CacheFault.TheVariants.{Memory};

use crate::credential_caches::credentials::CachedCredential;
use crate::credential_caches::fault::{CacheFault, CacheWriteFault};
use crate::credential_caches::header_tags::{HeaderTag, put_header, read_header};
use crate::credential_caches::items::{CacheItem, put_list, read_all};
use crate::credential_caches::principals::CachePrincipal;
use byte_streams::{u16_be, u16_be_bytes};
use std::alloc::Global;
use std::marker::Model;

// The version: the octets 5 and 4.
const VERSION: u16 = 0x0504;

// The place of the header, behind the version.
const HEADER_PLACE: usize = 2;

/// A credential cache: the header's tags, the default principal, and the credentials in their order.
#[derive(Drop)]
pub struct CredentialCache {
    pub tags: Vec<HeaderTag>,
    pub default_principal: CachePrincipal,
    pub credentials: Vec<CachedCredential>,
}

impl Model for CredentialCache {
    ghost use Rattle.krb_file_formats.specs.Caches.{Cache};

    ghost Value = { Cache };

    ghost view = { λ c. record {
      tags = c.tags.items;
      default_principal = c.default_principal;
      credentials = c.credentials.items;
    } };
}

// Judges the version.
fn check_version(bytes: &[u8]) -> Result<(), CacheFault>
    ensures { result ≡ version_at bytes.now }
{
    if bytes.len() < HEADER_PLACE {
        return Err(CacheFault::PastEnd(0));
    }
    let version = u16_be(bytes, 0);
    if version != VERSION {
        return Err(CacheFault::WrongVersion(version));
    }
    Ok(())
}

// Reads a cache.
fn read_cache(alloc: Global, bytes: &[u8]) -> Result<CredentialCache, CacheFault>
    ensures { Gives (λ c. c) result (cache_at bytes.now) }
{
    check_version(bytes)?;
    let (tags, at_principal) = read_header(alloc, bytes, HEADER_PLACE)?;
    let (default_principal, at_credentials) = CachePrincipal::read(alloc, bytes, at_principal)?;
    let credentials = read_all(alloc, bytes, at_credentials)?;
    Ok(CredentialCache {
        tags,
        default_principal,
        credentials,
    })
}

// Encodes a cache.
fn bytes_of(alloc: Global, cache: &CredentialCache) -> Result<Vec<u8>, CacheWriteFault>
    ensures { MatchResult result
        (λ bytes. (bytes.items ≡ cache_bytes cache.now) × IsWritable cache.now)
        (IsWriteRefusal (IsWritable cache.now)) }
{
    let mut bytes = Vec::new(alloc);
    bytes.extend_from_slice(&u16_be_bytes(VERSION))?;
    put_header(alloc, &mut bytes, cache.tags.as_slice())?;
    cache.default_principal.put(&mut bytes)?;
    put_list(&mut bytes, cache.credentials.as_slice())?;
    Ok(bytes)
}

impl CredentialCache {
    /// Reads the octets of a whole file.
    ///
    /// The first fault in the order of the octets is returned: `WrongVersion` for the version, `PastEnd` for a number or octets that end
    /// past the file or the header, and `Character` for a name that isn't ASCII.
    pub fn from_bytes(alloc: Global, bytes: &[u8]) -> Result<CredentialCache, CacheFault>
        ensures exact { Gives (λ c. c) result (cache_at bytes.now) }
        ensures laid { IfOk result (λ c. IsCredentialCache c bytes.now) }
        ensures only { (c : Cache) → IsCredentialCache c bytes.now → MatchResult result (λ read. read ≡ c) (λ e. e ≡ Memory) }
    {
        let cache = read_cache(alloc, bytes)?;
        Ok(cache)
    }

    /// Writes the cache. One with a field that is too long is refused.
    pub fn to_bytes(&self, alloc: Global) -> Result<Vec<u8>, CacheWriteFault>
        ensures exact { MatchResult result
            (λ bytes. (bytes.items ≡ cache_bytes self.now) × IsWritable self.now)
            (IsWriteRefusal (IsWritable self.now)) }
        ensures laid { IfOk result (λ bytes. IsCredentialCache self.now bytes.items) }
    {
        let bytes = bytes_of(alloc, self)?;
        Ok(bytes)
    }
}

/// The law that what is written is read as the same cache, of any cache whose numbers and lengths fit. It does nothing.
pub fn written_is_read()
    ensures { (c : Cache) → IsWritable c → cache_at (cache_bytes c) ≡ Ok c }
{}

/// The law that octets are laid out as one cache at most. It does nothing.
pub fn one_reading()
    ensures { (c d : Cache) (whole : List ℕ) → IsCredentialCache c whole → IsCredentialCache d whole → c ≡ d }
{}
