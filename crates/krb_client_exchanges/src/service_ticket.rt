//! Tickets for services.
ghost use Rattle.krb_realm_accounts.specs.Names.{parts};
ghost use Rattle.krb_client_exchanges.specs.Suites.{suites_of};
ghost use Rattle.krb_client_exchanges.specs.Courses.{Runs};
ghost use Rattle.krb_client_exchanges.specs.Logins.{ticket_for};

use crate::Wanted;
use crate::fault::ExchangeFault;
use crate::kdc::Kdc;
use crate::sending::ask_by_ticket;
use crate::taking::take_further;
use krb_client::{Client, Credential};
use krb_crypto::CipherSuite;
use std::alloc::Global;

/// Gets a ticket for a service of the client's realm by a credential, mostly that of a ticket-granting ticket (RFC 4120, section 3.3). The
/// client's own suite doesn't count.
///
/// The one request lists the wanted suites, of which the KDC chooses one for the session key. A name of the service that isn't of 1 to 16
/// components of 1 to 255 characters below 128 is refused, and nothing is sent.
pub fn ticket_for<K: Kdc>(
    alloc: Global,
    kdc: &mut K,
    client: &Client,
    wanted: Wanted<'_>,
    credential: &Credential,
    service: &[Vec<u8>],
) -> Result<Credential, ExchangeFault<K::Fault>>
    ensures { Runs (K.events kdc.old) (K.events kdc.new) (ticket_for client.now (suites_of wanted.entry) credential.now (parts service.now)) result }
{
    ticket_of(alloc, kdc, client, wanted.suites(), credential, service)
}

// Gets a ticket by one request that lists the suites.
fn ticket_of<K: Kdc>(
    alloc: Global,
    kdc: &mut K,
    client: &Client,
    suites: &[CipherSuite],
    credential: &Credential,
    service: &[Vec<u8>],
) -> Result<Credential, ExchangeFault<K::Fault>>
    ensures { Runs (K.events kdc.old) (K.events kdc.new) (ticket_for client.now suites.now credential.now (parts service.now)) result }
{
    let (asked, reply) = ask_by_ticket(alloc, kdc, client, suites, credential, service)?;
    take_further(alloc, client, suites, &asked, &reply)
}
