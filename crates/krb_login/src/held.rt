//! What a credential cache holds for a renewal: its user and the ticket-granting ticket.

use krb_client::{AskRefusal, Client, Credential, TicketTimes};
use krb_commands::{FileKind, Stop, octets_of, refused};
use krb_crypto::{CipherSuite, Key};
use krb_file_formats::{
    CacheFault, CachePrincipal, CachedCredential, CredentialCache, CredentialTimes,
};
use krb_messages::data_types::{KerberosFlags, Ticket};
use krb_messages::krbtgt;
use krb_time::after_epoch;
use picky_asn1_der::{both, read_whole};
use std::alloc::{AllocError, Global};

/// A client with a ticket-granting ticket of its realm.
#[derive(Drop)]
pub(crate) struct Held {
    pub(crate) client: Client,
    pub(crate) credential: Credential,
}

/// The user of the cache, with its first ticket-granting ticket.
pub(crate) fn held_in(rt: &HostRuntime, path: &str) -> Result<Held, Stop> {
    let cache = cache_in(rt, path)?;
    let held = held_of(rt.alloc(), path, &cache);
    drop(cache);
    held
}

fn cache_in(rt: &HostRuntime, path: &str) -> Result<CredentialCache, Stop> {
    let octets = octets_of(rt, path, FileKind::Cache)?;
    match CredentialCache::from_bytes(rt.alloc(), &octets) {
        Ok(cache) => Ok(cache),
        Err(CacheFault::Memory) => Err(Stop::Memory),
        Err(fault) => Err(refused(rt.alloc(), format_args!("{path}: {fault}"))),
    }
}

fn held_of(alloc: Global, path: &str, cache: &CredentialCache) -> Result<Held, Stop> {
    let client = client_of(alloc, &cache.default_principal);
    let credential = granting_in(alloc, cache);
    let (client, credential) = both(client, credential)?;
    match (client, credential) {
        (Some(client), Some(credential)) => Ok(Held { client, credential }),
        _ => Err(refused(
            alloc,
            format_args!(
                "{path}: expected a user with a ticket-granting ticket and a key of a known etype"
            ),
        )),
    }
}

// The client of this name. Its suite doesn't count.
fn client_of(alloc: Global, principal: &CachePrincipal) -> Result<Option<Client>, AllocError> {
    let mut name = Vec::with_capacity(alloc, principal.components.len())?;
    for component in &principal.components {
        name.push(Vec::from_slice(alloc, component.as_bytes())?)?;
    }
    let suite = CipherSuite::Aes256CtsHmacSha196;
    match Client::new(alloc, principal.realm.as_bytes(), &name, suite) {
        Ok(client) => Ok(Some(client)),
        Err(AskRefusal::Memory) => Err(AllocError),
        Err(_) => Ok(None),
    }
}

// The first ticket-granting ticket of the user's realm, if it is one that can be used.
fn granting_in(alloc: Global, cache: &CredentialCache) -> Result<Option<Credential>, AllocError> {
    let realm = cache.default_principal.realm.as_bytes();
    for credential in &cache.credentials {
        if is_granting(realm, &credential.server) {
            return credential_of(alloc, credential);
        }
    }
    Ok(None)
}

// Whether this is the ticket-granting service of the realm.
fn is_granting(realm: &[u8], server: &CachePrincipal) -> bool {
    let [first, second] = server.components.as_slice() else {
        return false;
    };
    server.realm.as_bytes() == realm && first.as_bytes() == krbtgt() && second.as_bytes() == realm
}

// The credential of a cache's one, if its key is of a known etype and its ticket is one.
fn credential_of(
    alloc: Global,
    cached: &CachedCredential,
) -> Result<Option<Credential>, AllocError> {
    let ticket: Option<Ticket> = read_whole(alloc, &cached.ticket)?;
    match (ticket, key_of(cached), times_of(&cached.times)) {
        (Some(ticket), Some(key), Some(times)) => with_ticket(alloc, cached, ticket, key, times),
        _ => Ok(None),
    }
}

fn with_ticket(
    alloc: Global,
    cached: &CachedCredential,
    ticket: Ticket,
    key: Key,
    times: TicketTimes,
) -> Result<Option<Credential>, AllocError> {
    let realm: Result<_, AllocError> = ticket.0.realm.0.clone();
    let service: Result<_, AllocError> = ticket.0.sname.0.clone();
    let flags = flags_of(alloc, cached.flags);
    let (ticket, (realm, (service, flags))) = both(Ok(ticket), both(realm, both(service, flags)))?;
    Ok(Some(Credential::new(ticket, key, realm, service, times, flags)))
}

// The session key, if it is one of its etype.
fn key_of(cached: &CachedCredential) -> Option<Key> {
    let suite = CipherSuite::try_from(usize::from(cached.key.kind)).ok()?;
    Key::new(suite, &cached.key.octets).ok()
}

fn times_of(times: &CredentialTimes) -> Option<TicketTimes> {
    let authtime = after_epoch(u64::from(times.authtime), 0)?;
    let starttime = after_epoch(u64::from(times.starttime), 0)?;
    let endtime = after_epoch(u64::from(times.endtime), 0)?;
    let renew_till = after_epoch(u64::from(times.renew_till), 0)?;
    Some(TicketTimes {
        authtime: authtime.second(),
        starttime: starttime.second(),
        endtime: endtime.second(),
        renew_till: if times.renew_till == 0 {
            None
        } else {
            Some(renew_till.second())
        },
    })
}

fn flags_of(alloc: Global, flags: u32) -> Result<KerberosFlags, AllocError> {
    match KerberosFlags::new(alloc, &flags.to_be_bytes(), 0) {
        Ok(flags) => Ok(flags),
        Err(_) => Err(AllocError),
    }
}
