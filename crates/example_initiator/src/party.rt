//! The client of a credential cache, with its credential for the service.

use crate::arguments::Asked;
use krb_client::{AskRefusal, Client, Credential, TicketTimes};
use krb_commands::{FileKind, Stop, octets_of, refused};
use krb_crypto::{CipherSuite, Key};
use krb_file_formats::{
    CacheFault, CachePrincipal, CachedCredential, CredentialCache, CredentialTimes,
};
use krb_messages::data_types::{KerberosFlags, PrincipalName, Ticket};
use krb_messages::krbtgt;
use krb_time::after_epoch;
use picky_asn1::date::GeneralizedTime;
use picky_asn1::wrapper::GeneralStringAsn1;
use picky_asn1_der::{both, read_whole};
use std::alloc::{AllocError, Global};

/// The flag forwarded (RFC 4120, section 5.3).
const FORWARDED: u32 = 0x8000_0000 >> 2;

/// A client, with its credential for a service.
#[derive(Drop)]
pub(crate) struct Party {
    pub(crate) client: Client,
    pub(crate) credential: Credential,
    /// The forwarded ticket-granting ticket that is delegated, if one is.
    pub(crate) forwarded: Option<Credential>,
}

/// The client of the cache, with its first credential for the service, and with what is delegated.
pub(crate) fn party_in(rt: &HostRuntime, asked: &Asked<'_>) -> Result<Party, Stop> {
    let cache = cache_in(rt, asked.settings.cache)?;
    let party = party_of(rt.alloc(), &cache, asked);
    drop(cache);
    party
}

fn cache_in(rt: &HostRuntime, path: &str) -> Result<CredentialCache, Stop> {
    let octets = octets_of(rt, path, FileKind::Cache)?;
    match CredentialCache::from_bytes(rt.alloc(), &octets) {
        Ok(cache) => Ok(cache),
        Err(CacheFault::Memory) => Err(Stop::Memory),
        Err(fault) => Err(refused(rt.alloc(), format_args!("{path}: {fault}"))),
    }
}

fn party_of(alloc: Global, cache: &CredentialCache, asked: &Asked<'_>) -> Result<Party, Stop> {
    let client = client_of(alloc, &cache.default_principal);
    let credential = credential_in(alloc, cache, asked);
    let (client, credential) = both(client, credential)?;
    match (client, credential) {
        (Some(client), Some(credential)) => with_forwarded(alloc, cache, asked, client, credential),
        _ => Err(refused(
            alloc,
            format_args!(
                "{}: expected a user with a ticket for {} and a key of a known etype",
                asked.settings.cache, asked.service.argument
            ),
        )),
    }
}

// The client and its credential, with the ticket that is delegated, if that is asked for.
fn with_forwarded(
    alloc: Global,
    cache: &CredentialCache,
    asked: &Asked<'_>,
    client: Client,
    credential: Credential,
) -> Result<Party, Stop> {
    match delegated_in(alloc, cache, asked) {
        Ok(forwarded) => Ok(Party {
            client,
            credential,
            forwarded,
        }),
        Err(stop) => {
            drop(client);
            drop(credential);
            Err(stop)
        }
    }
}

// The ticket that is delegated, if that is asked for.
fn delegated_in(
    alloc: Global,
    cache: &CredentialCache,
    asked: &Asked<'_>,
) -> Result<Option<Credential>, Stop> {
    if !asked.settings.delegates {
        return Ok(None);
    }
    match forwarded_in(alloc, cache)? {
        Some(forwarded) => Ok(Some(forwarded)),
        None => Err(refused(
            alloc,
            format_args!(
                "{}: expected a forwarded ticket-granting ticket and a key of a known etype",
                asked.settings.cache
            ),
        )),
    }
}

// The first forwarded ticket-granting ticket of the client's realm, if it is one that can be used.
fn forwarded_in(alloc: Global, cache: &CredentialCache) -> Result<Option<Credential>, AllocError> {
    for credential in &cache.credentials {
        if is_granting(credential) && credential.flags & FORWARDED != 0 {
            return credential_of(alloc, credential);
        }
    }
    Ok(None)
}

// Whether the ticket is for the ticket-granting service of the client's realm (RFC 4120, section 7.3).
fn is_granting(credential: &CachedCredential) -> bool {
    let realm = credential.client.realm.as_bytes();
    match credential.server.components.as_slice() {
        [first, second] => {
            first.as_bytes() == krbtgt()
                && second.as_bytes() == realm
                && credential.server.realm.as_bytes() == realm
        }
        _ => false,
    }
}

// The client of this name. Its suite doesn't count.
fn client_of(alloc: Global, principal: &CachePrincipal) -> Result<Option<Client>, AllocError> {
    let name = octets_of_all(alloc, &principal.components)?;
    let suite = CipherSuite::Aes256CtsHmacSha196;
    match Client::new(alloc, principal.realm.as_bytes(), &name, suite) {
        Ok(client) => Ok(Some(client)),
        Err(AskRefusal::Memory) => Err(AllocError),
        Err(_) => Ok(None),
    }
}

fn octets_of_all(
    alloc: Global,
    components: &[GeneralStringAsn1],
) -> Result<Vec<Vec<u8>>, AllocError> {
    let mut octets = Vec::with_capacity(alloc, components.len())?;
    for component in components {
        octets.push(Vec::from_slice(alloc, component.as_bytes())?)?;
    }
    Ok(octets)
}

// The first credential for the service, if it is one that can be used.
fn credential_in(
    alloc: Global,
    cache: &CredentialCache,
    asked: &Asked<'_>,
) -> Result<Option<Credential>, AllocError> {
    for credential in &cache.credentials {
        if asked.service.is_of(&credential.server) {
            return credential_of(alloc, credential);
        }
    }
    Ok(None)
}

// The credential of a cache's one, if its key is of a known etype and its ticket is one.
fn credential_of(
    alloc: Global,
    cached: &CachedCredential,
) -> Result<Option<Credential>, AllocError> {
    let ticket: Option<Ticket> = read_whole(alloc, &cached.ticket)?;
    match (ticket, key_of(cached), times_of(&cached.times)) {
        (Some(ticket), Some(key), Some(times)) => with_ticket(alloc, cached, ticket, key, times),
        _ => Ok(None),
    }
}

fn with_ticket(
    alloc: Global,
    cached: &CachedCredential,
    ticket: Ticket,
    key: Key,
    times: TicketTimes,
) -> Result<Option<Credential>, AllocError> {
    let realm: Result<_, AllocError> = ticket.0.realm.0.clone();
    let service: Result<_, AllocError> = ticket.0.sname.0.clone();
    let flags = flags_of(alloc, cached.flags);
    let (ticket, (realm, (service, flags))) = both(Ok(ticket), both(realm, both(service, flags)))?;
    Ok(Some(Credential::new(ticket, key, realm, service, times, flags)))
}

// The session key, if it is one of its etype.
fn key_of(cached: &CachedCredential) -> Option<Key> {
    let suite = CipherSuite::try_from(usize::from(cached.key.kind)).ok()?;
    Key::new(suite, &cached.key.octets).ok()
}

fn times_of(times: &CredentialTimes) -> Option<TicketTimes> {
    let authtime = time_of(times.authtime);
    let starttime = time_of(times.starttime);
    let endtime = time_of(times.endtime);
    match (authtime, starttime, endtime) {
        (Some(authtime), Some(starttime), Some(endtime)) => Some(TicketTimes {
            authtime,
            starttime,
            endtime,
            renew_till: renew_till_of(times),
        }),
        _ => None,
    }
}

// Until when a ticket may be renewed, if it is renewable.
fn renew_till_of(times: &CredentialTimes) -> Option<GeneralizedTime> {
    match times.renew_till {
        0 => None,
        seconds => time_of(seconds),
    }
}

fn time_of(seconds: u32) -> Option<GeneralizedTime> {
    let moment = after_epoch(u64::from(seconds), 0)?;
    Some(moment.second())
}

fn flags_of(alloc: Global, flags: u32) -> Result<KerberosFlags, AllocError> {
    match KerberosFlags::new(alloc, &flags.to_be_bytes(), 0) {
        Ok(flags) => Ok(flags),
        Err(_) => Err(AllocError),
    }
}
