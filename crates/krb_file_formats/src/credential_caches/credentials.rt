//! Credentials of a cache.
ghost use Rattle.krb_file_formats.specs.Caches.{contents, credential, facts, moments, parties};
ghost use Rattle.krb_file_formats.specs.Formats.{Gives, Writes};
ghost use Rattle.std.specs.Prelude.{◌≡◌};

use crate::credential_caches::fault::{CacheWriteFault, Found};
use crate::credential_caches::fields::{
    put_data, put_number8, put_number32, read_data, read_number8, read_number32,
};
use crate::credential_caches::items::{CacheItem, put_listed, read_listed};
use crate::credential_caches::principals::CachePrincipal;
use crate::credential_caches::times::CredentialTimes;
use crate::credential_caches::typed::TypedOctets;
use std::alloc::{AllocError, Global};
use std::marker::Model;

/// A credential: a ticket with its key, and what the KDC said of it. A configuration entry is one, too, whose value is its ticket.
#[derive(Drop)]
pub struct CachedCredential {
    pub client: CachePrincipal,
    pub server: CachePrincipal,
    /// The session key, with its etype.
    pub key: TypedOctets,
    pub times: CredentialTimes,
    /// 1 where the ticket is encrypted in another ticket's session key (user to user), else 0.
    pub is_skey: u8,
    /// The ticket flags (RFC 4120, section 5.3), the first of which is the highest bit.
    pub flags: u32,
    pub addresses: Vec<TypedOctets>,
    pub authorization_data: Vec<TypedOctets>,
    /// The ticket's DER.
    pub ticket: Vec<u8>,
    /// The DER of the ticket in whose session key the first is encrypted, if any.
    pub second_ticket: Vec<u8>,
}

impl Model for CachedCredential {
    ghost use Rattle.krb_file_formats.specs.Caches.{Credential};

    ghost Value = { Credential };

    ghost view = { λ c. record {
      client = c.client;
      server = c.server;
      key = c.key;
      times = c.times;
      is_skey = c.is_skey;
      flags = c.flags;
      addresses = c.addresses.items;
      authorization_data = c.authorization_data.items;
      ticket = c.ticket.items;
      second_ticket = c.second_ticket.items;
    } };
}

impl Clone for CachedCredential {
    ghost is_clone = { λ credential copy. copy ≡ credential };

    fn clone(&self) -> Result<CachedCredential, AllocError> {
        let client = self.client.clone()?;
        let server = self.server.clone()?;
        let key = self.key.clone()?;
        let addresses = self.addresses.clone()?;
        let authorization_data = self.authorization_data.clone()?;
        let ticket = self.ticket.clone()?;
        let second_ticket = self.second_ticket.clone()?;
        Ok(CachedCredential {
            client,
            server,
            key,
            times: self.times,
            is_skey: self.is_skey,
            flags: self.flags,
            addresses,
            authorization_data,
            ticket,
            second_ticket,
        })
    }
}

/// Credentials are the same where each field is.
impl PartialEq for CachedCredential {
    ghost use Rattle.std.specs.Bool.{nat_eq};
    ghost use Rattle.std.specs.Cmp.Lexicographic.{pointwise};
    ghost use Rattle.std.specs.Cmp.Rules.{comparing};
    ghost use Rattle.std.specs.Ordering.{on, eq_of_both};
    ghost use Rattle.std.proofs.Common.{rules};
    ghost use Rattle.krb_file_formats.specs.contracts.credential_caches.times.CredentialTimesPartialEq.TheImpl.Laws.{laws-law as times-law};
    ghost use Rattle.krb_file_formats.specs.contracts.credential_caches.principals.CachePrincipalPartialEq.TheImpl.Laws.{laws-law as principal-law};
    ghost use Rattle.krb_file_formats.specs.contracts.credential_caches.typed.TypedOctetsPartialEq.TheImpl.Laws.{laws-law as typed-law};

    ghost eq = { eq_of_both (on (λ c. c.client) ⟦<CachePrincipal as PartialEq>⟧.eq)
        (eq_of_both (on (λ c. c.server) ⟦<CachePrincipal as PartialEq>⟧.eq)
        (eq_of_both (on (λ c. c.key) ⟦<TypedOctets as PartialEq>⟧.eq)
        (eq_of_both (on (λ c. c.times) ⟦<CredentialTimes as PartialEq>⟧.eq)
        (eq_of_both (on (λ c. c.is_skey) nat_eq) (eq_of_both (on (λ c. c.flags) nat_eq)
        (eq_of_both (on (λ c. c.addresses) (pointwise ⟦<TypedOctets as PartialEq>⟧.eq))
        (eq_of_both (on (λ c. c.authorization_data) (pointwise ⟦<TypedOctets as PartialEq>⟧.eq))
        (eq_of_both (on (λ c. c.ticket) (pointwise nat_eq)) (on (λ c. c.second_ticket) (pointwise nat_eq)))))))))) };

    ghost laws = { Prim.search (times-law, principal-law, typed-law, comparing, rules) depth 16 };

    fn eq(&self, other: &CachedCredential) -> bool {
        self.client == other.client
            && self.server == other.server
            && self.key == other.key
            && self.times == other.times
            && self.is_skey == other.is_skey
            && self.flags == other.flags
            && self.addresses.as_slice() == other.addresses.as_slice()
            && self.authorization_data.as_slice() == other.authorization_data.as_slice()
            && self.ticket.as_slice() == other.ticket.as_slice()
            && self.second_ticket.as_slice() == other.second_ticket.as_slice()
    }
}

impl Eq for CachedCredential {
    ghost use Rattle.std.specs.Cmp.Rules.{comparing};
    ghost use Rattle.std.proofs.Common.{rules};
    ghost use Rattle.krb_file_formats.specs.contracts.credential_caches.times.CredentialTimesEq.TheImpl.Laws.{laws-law as times-law};
    ghost use Rattle.krb_file_formats.specs.contracts.credential_caches.principals.CachePrincipalEq.TheImpl.Laws.{laws-law as principal-law};
    ghost use Rattle.krb_file_formats.specs.contracts.credential_caches.typed.TypedOctetsEq.TheImpl.Laws.{laws-law as typed-law};

    ghost laws = { Prim.search (times-law, principal-law, typed-law, comparing, rules) depth 16 };
}

// Reads the four times.
fn read_times(bytes: &[u8], place: usize) -> Found<CredentialTimes>
    ensures { result ≡ moments.read place bytes.now }
{
    let (authtime, at_starttime) = read_number32(bytes, place)?;
    let (starttime, at_endtime) = read_number32(bytes, at_starttime)?;
    let (endtime, at_renew_till) = read_number32(bytes, at_endtime)?;
    let (renew_till, end) = read_number32(bytes, at_renew_till)?;
    Ok((
        CredentialTimes {
            authtime,
            starttime,
            endtime,
            renew_till,
        },
        end,
    ))
}

// Reads the client, the server and the key.
fn read_parties(
    alloc: Global,
    bytes: &[u8],
    place: usize,
) -> Found<(CachePrincipal, (CachePrincipal, TypedOctets))>
    ensures { Gives (λ found. found) result (parties.read place bytes.now) }
{
    let (client, at_server) = CachePrincipal::read(alloc, bytes, place)?;
    let (server, at_key) = CachePrincipal::read(alloc, bytes, at_server)?;
    let (key, end) = TypedOctets::read(alloc, bytes, at_key)?;
    Ok(((client, (server, key)), end))
}

// Reads the times, whether the key is a session key, and the ticket flags.
fn read_facts(bytes: &[u8], place: usize) -> Found<(CredentialTimes, (u8, u32))>
    ensures { result ≡ facts.read place bytes.now }
{
    let (times, at_is_skey) = read_times(bytes, place)?;
    let (is_skey, at_flags) = read_number8(bytes, at_is_skey)?;
    let (flags, end) = read_number32(bytes, at_flags)?;
    Ok(((times, (is_skey, flags)), end))
}

// Reads the addresses, the authorization data and the tickets.
fn read_contents(
    alloc: Global,
    bytes: &[u8],
    place: usize,
) -> Found<(Vec<TypedOctets>, (Vec<TypedOctets>, (Vec<u8>, Vec<u8>)))>
    ensures { Gives
        (λ found. ((found.0.0.items, (found.0.1.0.items, (found.0.1.1.0.items, found.0.1.1.1.items))), found.1))
        result (contents.read place bytes.now) }
{
    let (addresses, at_data) = read_listed(alloc, bytes, place)?;
    let (authorization_data, at_ticket) = read_listed(alloc, bytes, at_data)?;
    let (ticket, at_second) = read_data(alloc, bytes, at_ticket)?;
    let (second_ticket, end) = read_data(alloc, bytes, at_second)?;
    Ok((
        (addresses, (authorization_data, (ticket, second_ticket))),
        end,
    ))
}

// Appends the times.
fn put_times(to: &mut Vec<u8>, times: CredentialTimes) -> Result<(), CacheWriteFault>
    ensures { Writes moments times result to.old.items to.new.items }
{
    put_number32(to, times.authtime)?;
    put_number32(to, times.starttime)?;
    put_number32(to, times.endtime)?;
    put_number32(to, times.renew_till)?;
    Ok(())
}

// Appends the client, the server and the key.
fn put_parties(to: &mut Vec<u8>, one: &CachedCredential) -> Result<(), CacheWriteFault>
    ensures { Writes parties (one.now.client, (one.now.server, one.now.key)) result to.old.items to.new.items }
{
    one.client.put(to)?;
    one.server.put(to)?;
    one.key.put(to)?;
    Ok(())
}

// Appends the times, whether the key is a session key, and the ticket flags.
fn put_facts(to: &mut Vec<u8>, one: &CachedCredential) -> Result<(), CacheWriteFault>
    ensures { Writes facts (one.now.times, (one.now.is_skey, one.now.flags)) result to.old.items to.new.items }
{
    put_times(to, one.times)?;
    put_number8(to, one.is_skey)?;
    put_number32(to, one.flags)?;
    Ok(())
}

// Appends the addresses, the authorization data and the tickets.
fn put_contents(to: &mut Vec<u8>, one: &CachedCredential) -> Result<(), CacheWriteFault>
    ensures { Writes contents (one.now.addresses, (one.now.authorization_data, (one.now.ticket, one.now.second_ticket)))
        result to.old.items to.new.items }
{
    put_listed(to, one.addresses.as_slice())?;
    put_listed(to, one.authorization_data.as_slice())?;
    put_data(to, one.ticket.as_slice())?;
    put_data(to, one.second_ticket.as_slice())?;
    Ok(())
}

impl CacheItem for CachedCredential {
    ghost format = { credential };

    fn read(alloc: Global, bytes: &[u8], place: usize) -> Found<CachedCredential> {
        let ((client, (server, key)), at_facts) = read_parties(alloc, bytes, place)?;
        let ((times, (is_skey, flags)), at_contents) = read_facts(bytes, at_facts)?;
        let ((addresses, (authorization_data, (ticket, second_ticket))), end) = read_contents(
            alloc,
            bytes,
            at_contents,
        )?;
        Ok((
            CachedCredential {
                client,
                server,
                key,
                times,
                is_skey,
                flags,
                addresses,
                authorization_data,
                ticket,
                second_ticket,
            },
            end,
        ))
    }

    fn put(&self, to: &mut Vec<u8>) -> Result<(), CacheWriteFault> {
        put_parties(to, self)?;
        put_facts(to, self)?;
        put_contents(to, self)?;
        Ok(())
    }
}
