//! What a client delegates, as a credential cache.

use gss_acceptor::Delegated;
use krb_commands::{FileKind, Stop, refused, write_file};
use krb_constants::types::{NT_PRINCIPAL, NT_SRV_INST};
use krb_file_formats::{
    CachePrincipal, CacheWriteFault, CachedCredential, CredentialCache, CredentialTimes,
    TypedOctets, u32_be,
};
use krb_messages::KrbCredInfo;
use krb_messages::data_types::{
    EncryptionKey, KerberosFlags, KerberosTime, PrincipalName, Realm, Ticket,
};
use krb_time::seconds_since_epoch;
use picky_asn1::wrapper::GeneralStringAsn1;
use picky_asn1_der::{ExplicitContextTag, both, to_vec};
use std::alloc::{AllocError, Global};

/// Writes a credential cache of what a client delegated in the place of the file at a path. The cache is the first ticket's client's.
pub(crate) fn write_delegated(
    rt: &HostRuntime,
    path: &str,
    delegated: &Delegated,
) -> Result<(), Stop> {
    let alloc = rt.alloc();
    let Some(cache) = cache_of(alloc, delegated)? else {
        return Err(refused(
            alloc,
            "the delegation: expected the client of each ticket, and the etype of its key in 16 bits",
        ));
    };
    let written = cache.to_bytes(alloc);
    drop(cache);
    match written {
        Ok(octets) => write_file(rt, path, FileKind::Cache, &[], &octets),
        Err(CacheWriteFault::Memory) => Err(Stop::Memory),
        Err(fault) => Err(refused(alloc, format_args!("the delegation: {fault}"))),
    }
}

// The cache of these tickets, if each has what a cache has to have.
fn cache_of(alloc: Global, delegated: &Delegated) -> Result<Option<CredentialCache>, AllocError> {
    let [first, ..] = delegated.infos.as_slice() else {
        return Ok(None);
    };
    let credentials = credentials_of(
        alloc,
        delegated.tickets.as_slice(),
        delegated.infos.as_slice(),
    );
    let (default_principal, credentials) = both(client_of(alloc, first), credentials)?;
    match (default_principal, credentials) {
        (Some(default_principal), Some(credentials)) => Ok(Some(CredentialCache {
            tags: Vec::new(alloc),
            default_principal,
            credentials,
        })),
        _ => Ok(None),
    }
}

fn credentials_of(
    alloc: Global,
    tickets: &[Ticket],
    infos: &[KrbCredInfo],
) -> Result<Option<Vec<CachedCredential>>, AllocError> {
    let mut credentials = Vec::with_capacity(alloc, tickets.len())?;
    for (ticket, info) in tickets.iter().zip(infos) {
        let Some(credential) = credential_of(alloc, ticket, info)? else {
            return Ok(None);
        };
        credentials.push(credential)?;
    }
    Ok(Some(credentials))
}

// A ticket with what is told of it, if its client is told.
fn credential_of(
    alloc: Global,
    ticket: &Ticket,
    info: &KrbCredInfo,
) -> Result<Option<CachedCredential>, AllocError> {
    let first = both(client_of(alloc, info), key_of(alloc, &info.key.0));
    let last = both(server_of(alloc, ticket), ticket_bytes(alloc, ticket));
    let flags = flags_of(alloc, info);
    let ((client, key), ((server, ticket), flags)) = both(first, both(last, flags))?;
    match (client, key) {
        (Some(client), Some(key)) => Ok(Some(CachedCredential {
            client,
            server,
            key,
            times: times_of(info),
            is_skey: 0,
            flags,
            addresses: Vec::new(alloc),
            authorization_data: Vec::new(alloc),
            ticket,
            second_ticket: Vec::new(alloc),
        })),
        _ => Ok(None),
    }
}

// The client of a ticket, if it is told.
fn client_of(alloc: Global, info: &KrbCredInfo) -> Result<Option<CachePrincipal>, AllocError> {
    match (&info.prealm.0, &info.pname.0) {
        (Some(realm), Some(name)) => {
            let client = principal(alloc, NT_PRINCIPAL, &realm.0, &name.0)?;
            Ok(Some(client))
        }
        _ => Ok(None),
    }
}

// The service of a ticket, which the ticket itself names.
fn server_of(alloc: Global, ticket: &Ticket) -> Result<CachePrincipal, AllocError> {
    principal(alloc, NT_SRV_INST, &ticket.0.realm.0, &ticket.0.sname.0)
}

fn principal(
    alloc: Global,
    name_type: u8,
    realm: &Realm,
    name: &PrincipalName,
) -> Result<CachePrincipal, AllocError> {
    let realm: Result<_, AllocError> = realm.clone();
    let components = copies_of(alloc, name.name_string.0.as_slice());
    let (realm, components) = both(realm, components)?;
    Ok(CachePrincipal {
        name_type: u32::from(name_type),
        realm,
        components,
    })
}

fn copies_of(
    alloc: Global,
    components: &[GeneralStringAsn1],
) -> Result<Vec<GeneralStringAsn1>, AllocError> {
    let mut copies = Vec::with_capacity(alloc, components.len())?;
    for component in components {
        copies.push(component.clone()?)?;
    }
    Ok(copies)
}

// The session key with its etype, if that has 16 bits.
fn key_of(alloc: Global, key: &EncryptionKey) -> Result<Option<TypedOctets>, AllocError> {
    let Some(kind) = etype_of(key) else {
        return Ok(None);
    };
    let octets = Vec::from_slice(alloc, key.key_value.0.as_bytes())?;
    Ok(Some(TypedOctets { kind, octets }))
}

fn etype_of(key: &EncryptionKey) -> Option<u16> {
    let number = key.key_type.0.to_i64()?;
    u16::try_from(number).ok()
}

fn ticket_bytes(alloc: Global, ticket: &Ticket) -> Result<Vec<u8>, AllocError> {
    match to_vec(alloc, ticket) {
        Ok(bytes) => Ok(bytes),
        Err(_) => Err(AllocError),
    }
}

// The times of a ticket. One that isn't told is 0.
fn times_of(info: &KrbCredInfo) -> CredentialTimes {
    CredentialTimes {
        authtime: seconds_in(&info.auth_time.0),
        starttime: seconds_in(&info.start_time.0),
        endtime: seconds_in(&info.end_time.0),
        renew_till: seconds_in(&info.renew_till.0),
    }
}

fn seconds_in<const N: u8>(time: &Option<ExplicitContextTag<N, KerberosTime>>) -> u32 {
    match time {
        Some(tagged) => seconds_since_epoch(tagged.0.0),
        None => 0,
    }
}

// The first 32 flags of a ticket as a number. Flags that aren't told are 0.
fn flags_of(alloc: Global, info: &KrbCredInfo) -> Result<u32, AllocError> {
    match &info.flags.0 {
        Some(flags) => flags_number(alloc, &flags.0),
        None => Ok(0),
    }
}

fn flags_number(alloc: Global, flags: &KerberosFlags) -> Result<u32, AllocError> {
    let mut octets = Vec::from_slice(alloc, flags.as_bytes())?;
    octets.extend_from_slice(&[0; 4])?;
    Ok(u32_be(&octets, 0))
}
