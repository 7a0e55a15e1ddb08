//! The credentials of a cache.
ghost use Rattle.std.specs.Prelude.{◌≡◌, IfOk};
ghost use Rattle.krb_client_exchanges.specs.LoginCaches.{cached_credential, cached_key, cached_renew_till, cached_times, client_principal, flags_number, service_principal, ticket_bytes};

use krb_client::{Client, Credential};
use krb_constants::types::{NT_PRINCIPAL, NT_SRV_INST, TICKET_TYPE};
use krb_file_formats::{CachePrincipal, CachedCredential, CredentialTimes, TypedOctets, u32_be};
use krb_messages::data_types::{KerberosFlags, Ticket, TicketInner};
use krb_time::seconds_since_epoch;
use picky_asn1::wrapper::GeneralStringAsn1;
use picky_asn1_der::{both, tagged_encoding};
use std::alloc::{AllocError, Global};

/// What a client was granted, as a cache has it.
pub(crate) fn cached_of(
    alloc: Global,
    client: &Client,
    credential: &Credential,
) -> Result<CachedCredential, AllocError>
    ensures { IfOk result (λ cached. cached ≡ cached_credential client.now credential.now) }
{
    let own = client_principal(alloc, client);
    let server = service_principal(alloc, credential);
    let key = cached_key(alloc, credential);
    let flags = flags_number(alloc, credential.flags());
    let ticket = ticket_bytes(alloc, credential.ticket());
    let contents = both(key, both(flags, ticket));
    let ((own, server), (key, (flags, ticket))) = both(both(own, server), contents)?;
    Ok(CachedCredential {
        client: own,
        server,
        key,
        times: cached_times(credential),
        is_skey: 0,
        flags,
        addresses: Vec::new(alloc),
        authorization_data: Vec::new(alloc),
        ticket,
        second_ticket: Vec::new(alloc),
    })
}

/// The client as a principal of a cache.
pub(crate) fn client_principal(alloc: Global, client: &Client) -> Result<CachePrincipal, AllocError>
    ensures { IfOk result (λ principal. principal ≡ client_principal client.now) }
{
    principal(alloc, NT_PRINCIPAL, client.realm(), client.components())
}

// The service of a credential as a principal of a cache.
fn service_principal(alloc: Global, credential: &Credential) -> Result<CachePrincipal, AllocError>
    ensures { IfOk result (λ principal. principal ≡ service_principal credential.now) }
{
    let components = credential.service().name_string.0.as_slice();
    principal(alloc, NT_SRV_INST, credential.realm(), components)
}

fn principal(
    alloc: Global,
    name_type: u8,
    realm: &GeneralStringAsn1,
    components: &[GeneralStringAsn1],
) -> Result<CachePrincipal, AllocError>
    ensures { IfOk result (λ made. made ≡ record { name_type = name_type; realm = realm.now; components = components.now }) }
{
    let realm: Result<_, AllocError> = realm.clone();
    let (realm, components) = both(realm, copies_of(alloc, components))?;
    Ok(CachePrincipal {
        name_type: u32::from(name_type),
        realm,
        components,
    })
}

fn copies_of(
    alloc: Global,
    components: &[GeneralStringAsn1],
) -> Result<Vec<GeneralStringAsn1>, AllocError>
    ensures { IfOk result (λ copies. copies.items ≡ components.now) }
{
    let mut copies = Vec::with_capacity(alloc, components.len())?;
    for component in components {
        copies.push(component.clone()?)?;
    }
    Ok(copies)
}

// The session key with its etype.
fn cached_key(alloc: Global, credential: &Credential) -> Result<TypedOctets, AllocError>
    ensures { IfOk result (λ key. key ≡ cached_key credential.now) }
{
    let octets = Vec::from_slice(alloc, credential.key().as_bytes())?;
    Ok(TypedOctets {
        kind: u16::from(u8::from(credential.suite())),
        octets,
    })
}

// The times of a credential.
fn cached_times(credential: &Credential) -> CredentialTimes
    ensures { result ≡ cached_times credential.now }
{
    CredentialTimes {
        authtime: seconds_since_epoch(credential.authtime()),
        starttime: seconds_since_epoch(credential.starttime()),
        endtime: seconds_since_epoch(credential.endtime()),
        renew_till: cached_renew_till(credential),
    }
}

// The end of the renewals of a credential, which is 0 where it isn't renewable.
fn cached_renew_till(credential: &Credential) -> u32
    ensures { result ≡ cached_renew_till credential.now }
{
    match credential.renew_till() {
        Some(time) => seconds_since_epoch(time),
        None => 0,
    }
}

// The first 32 flags as a number. Flags that are missing are 0.
fn flags_number(alloc: Global, flags: &KerberosFlags) -> Result<u32, AllocError>
    ensures { IfOk result (λ number. number ≡ flags_number flags.now) }
{
    let mut octets = Vec::from_slice(alloc, flags.as_bytes())?;
    octets.extend_from_slice(&[0; 4])?;
    Ok(u32_be(&octets, 0))
}

// The encoding of a ticket.
#[tactic(auto, unfolding(crate::specs::LoginCaches::ticket_bytes))]
fn ticket_bytes(alloc: Global, ticket: &Ticket) -> Result<Vec<u8>, AllocError>
    ensures { IfOk result (λ bytes. bytes.items ≡ ticket_bytes ticket.now.0) }
{
    let copy = ticket.clone()?;
    let bytes = tagged_encoding::<TicketInner, TICKET_TYPE>(alloc, copy.0)?;
    Ok(bytes)
}
