//! Logins by certificate.
ghost use Rattle.krb_client_exchanges.specs.Suites.{suites_of};
ghost use Rattle.krb_client_exchanges.specs.Courses.{Runs};
ghost use Rattle.krb_client_exchanges.specs.Logins.{login_by_means};
ghost use Rattle.pkinit_clients.specs.Means.{by_certificate};

use crate::Wanted;
use crate::answer::suite_of;
use crate::fault::ExchangeFault;
use crate::kdc::Kdc;
use crate::sending::ask_by_means;
use crate::taking::take_in;
use krb_client::{Client, Credential, Means};
use krb_crypto::CipherSuite;
use pkinit_clients::ByCertificate;
use std::alloc::Global;
use x509_keys::KeyFunctions;

/// Gets a ticket-granting ticket of the client's realm by certificate (RFC 4556, section 3.1). The client's own suite doesn't count.
///
/// The one request has the padata PA-PK-AS-REQ, and lists the wanted suites, of which the KDC chooses one. The reply is taken if the
/// realm signed it by a certificate under the client's anchor, and its session key is of a wanted suite.
pub fn log_in_by_certificate<K: Kdc, Y: KeyFunctions>(
    alloc: Global,
    kdc: &mut K,
    client: &Client,
    wanted: Wanted<'_>,
    own: &ByCertificate<'_, Y>,
) -> Result<Credential, ExchangeFault<K::Fault>>
    ensures { Runs (K.events kdc.old) (K.events kdc.new)
        (login_by_means client.now (suites_of wanted.entry) (by_certificate own.now.certificate.now own.now.anchor.now (Y.functions own.now.keys.now))) result }
{
    log_in_by_means(alloc, kdc, client, wanted.suites(), own)
}

// Gets a ticket-granting ticket by one request with the padata of the means, which lists the suites.
fn log_in_by_means<K: Kdc, M: Means>(
    alloc: Global,
    kdc: &mut K,
    client: &Client,
    suites: &[CipherSuite],
    means: &M,
) -> Result<Credential, ExchangeFault<K::Fault>>
    ensures { Runs (K.events kdc.old) (K.events kdc.new) (login_by_means client.now suites.now (M.means means.now)) result }
{
    let (asked, reply) = ask_by_means(alloc, kdc, client, suites, means)?;
    let octets = reply.as_slice();
    let suite = suite_of(alloc, client, suites, octets)?;
    take_in(alloc, client, suite, suites, means, &asked, octets)
}
