//! Credential caches: the files in which a host keeps the tickets of its users (MIT's format, version 0x0504).
//!
//! A credential cache is the octets 5 and 4, a header of tags, the default principal, and credentials up to the end of the file. A
//! credential has a client, a server, a key, times, flags, addresses, authorization data and a ticket. `specs/Caches.antt` has the
//! octets. Configuration entries are credentials too, and kept as they are ([`CachePrincipal::is_configuration`]).
//!
//! `CredentialCache::from_bytes` returns the cache of exactly those octets that are laid out as one (`IsCredentialCache`), and any others
//! are refused by the first fault in their order, with its offset. `CredentialCache::to_bytes` writes the one file of a cache, so a
//! file that is read is written octet for octet. What is written is read as the same cache (law `written_is_read`), and octets are
//! laid out as one cache at most (law `one_reading`). Both take time and memory linear in the octets.

mod caches;
mod credentials;
mod fault;
mod fields;
mod header_tags;
mod items;
mod principals;
mod times;
mod typed;

pub use caches::{CredentialCache, one_reading, written_is_read};
pub use credentials::CachedCredential;
pub use fault::{CacheFault, CacheWriteFault};
pub use header_tags::HeaderTag;
pub use principals::CachePrincipal;
pub use times::CredentialTimes;
pub use typed::TypedOctets;
