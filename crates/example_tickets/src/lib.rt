//! A program of one's own that gets tickets, over `krb_client_exchanges`.
//!
//! By the keys of a keytab it gets a ticket for a service, and gives the credential cache from which other programs take it. Which requests
//! it sends, and what it makes of the replies, is `cached_login`.
#![tactic(auto)]

ghost use Rattle.krb_realm_accounts.specs.Names.{parts};
ghost use Rattle.krb_client_exchanges.specs.Courses.{Runs};
ghost use Rattle.example_tickets.specs.CachedLogins.{cached_login};

use krb_client::Client;
use krb_client_exchanges::{ExchangeFault, Kdc, Wanted, cache_of, log_in_by_keytab, ticket_for};
use krb_file_formats::{CredentialCache, KeytabRecord};
use std::alloc::Global;

/// A credential cache with a ticket for the service, for a client that has its keys in a keytab.
pub fn cache_by_keytab<K: Kdc>(
    alloc: Global,
    kdc: &mut K,
    client: &Client,
    keytab: &[KeytabRecord],
    service: &[Vec<u8>],
) -> Result<CredentialCache, ExchangeFault<K::Fault>>
    ensures { Runs (K.events kdc.old) (K.events kdc.new) (cached_login client.now keytab.now (parts service.now)) result }
{
    let granting = log_in_by_keytab(alloc, kdc, client, Wanted::Usual, keytab)?;
    let ticket = ticket_for(alloc, kdc, client, Wanted::Usual, &granting, service)?;
    let cache = cache_of(alloc, client, &granting, &[ticket])?;
    Ok(cache)
}
