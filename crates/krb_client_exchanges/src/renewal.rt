//! Renewals of ticket-granting tickets.
ghost use Rattle.krb_client_exchanges.specs.Suites.{suites_of};
ghost use Rattle.krb_client_exchanges.specs.Courses.{Runs};
ghost use Rattle.krb_client_exchanges.specs.Logins.{renewed_ticket};

use crate::Wanted;
use crate::fault::ExchangeFault;
use crate::kdc::Kdc;
use crate::sending::ask_to_renew;
use crate::taking::take_further;
use krb_client::{Client, Credential};
use krb_crypto::CipherSuite;
use std::alloc::Global;

/// Renews a ticket-granting ticket of the client's realm by the credential that has it (RFC 4120, section 3.3.3). The client's own suite
/// doesn't count.
///
/// The one request has the option renew, and the options for the flags that the ticket has. It lists the wanted suites, of which the KDC
/// chooses one for the session key. Neither the ticket's flags nor its times are judged before: the KDC refuses what isn't renewable.
pub fn renewed_ticket<K: Kdc>(
    alloc: Global,
    kdc: &mut K,
    client: &Client,
    wanted: Wanted<'_>,
    credential: &Credential,
) -> Result<Credential, ExchangeFault<K::Fault>>
    ensures { Runs (K.events kdc.old) (K.events kdc.new) (renewed_ticket client.now (suites_of wanted.entry) credential.now) result }
{
    renewed_of(alloc, kdc, client, wanted.suites(), credential)
}

// Renews a ticket by one request that lists the suites.
fn renewed_of<K: Kdc>(
    alloc: Global,
    kdc: &mut K,
    client: &Client,
    suites: &[CipherSuite],
    credential: &Credential,
) -> Result<Credential, ExchangeFault<K::Fault>>
    ensures { Runs (K.events kdc.old) (K.events kdc.new) (renewed_ticket client.now suites.now credential.now) result }
{
    let (asked, reply) = ask_to_renew(alloc, kdc, client, suites, credential)?;
    take_further(alloc, client, suites, &asked, &reply)
}
