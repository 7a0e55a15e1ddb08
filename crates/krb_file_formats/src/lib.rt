//! Keytabs and credential caches: the files in which a host keeps the keys of its services and the tickets of its users (MIT's formats,
//! versions 0x0502 and 0x0504).
//!
//! A keytab is the octets 5 and 2, and then key records and holes, each behind its size. A key record has a principal, a timestamp, a
//! kvno, an etype and a key. `specs/Layouts.antt` has the octets. Records of etypes that no suite has are kept as they are, and
//! [`KeytabRecord::cipher_key`] makes the key of one whose etype is known.
//!
//! A credential cache is the octets 5 and 4, a header of tags, the default principal, and credentials up to the end of the file. A
//! credential has a client, a server, a key, times, flags, addresses, authorization data and a ticket. `specs/Caches.antt` has the
//! octets. Configuration entries are credentials too, and kept as they are ([`CachePrincipal::is_configuration`]).
//!
//! `Keytab::from_bytes` returns the records of exactly those octets that are laid out as a keytab (`IsKeytab`), and
//! `CredentialCache::from_bytes` the cache of exactly those that are laid out as one (`IsCredentialCache`). Any others are refused by the
//! first fault in their order, with its offset. `Keytab::to_bytes` writes each record with its kvno twice, in 8 and in 32 bits, and without
//! holes. `CredentialCache::to_bytes` writes the one file of a cache, so a file that is read is written octet for octet. What is written is
//! read as the same, and octets have one reading at most. All take time and memory linear in the octets. A copy of a record or of a
//! credential is equal to it, and `==` compares each field.
#![tactic(auto)]

pub mod credential_caches;
mod fault;
mod key_record;
mod keytab;
mod numbers;
mod reading;
mod writing;

pub use credential_caches::{
    CacheFault, CachePrincipal, CacheWriteFault, CachedCredential, CredentialCache,
    CredentialTimes, HeaderTag, TypedOctets,
};
pub use fault::{KeytabFault, KeytabWriteFault};
pub use key_record::KeytabRecord;
pub use keytab::{Keytab, one_reading, written_is_read};
pub use numbers::{u32_be, u32_be_bytes};
