//! Logins by certificate with algorithm agility.
ghost use Rattle.krb_client_exchanges.specs.Suites.{suites_of};
ghost use Rattle.krb_client_exchanges.specs.Courses.{Runs};
ghost use Rattle.krb_client_exchanges.specs.Logins.{login_by_kept_means};
ghost use Rattle.pkinit_clients.specs.AgileMeans.{by_agile_certificate};

use crate::Wanted;
use crate::answer::suite_of;
use crate::fault::ExchangeFault;
use crate::kdc::Kdc;
use crate::sending::ask_kept;
use crate::taking::take_in;
use krb_client::{Client, Credential};
use krb_crypto::CipherSuite;
use pkinit_clients::ByCertificate;
use pkinit_clients::agility::AgileCertificate;
use std::alloc::Global;
use x509_keys::KeyFunctions;

/// Gets a ticket-granting ticket of the client's realm by certificate with algorithm agility (RFC 8636). The client's own suite doesn't
/// count.
///
/// The one request has the padata PA-PK-AS-REQ with lists of CMS types and of key derivation functions. It lists the wanted suites, of
/// which the KDC chooses one. The reply is taken if the realm signed it by a certificate under the client's anchor, and its session key is
/// of a wanted suite.
pub fn log_in_by_agile_certificate<K: Kdc, Y: KeyFunctions>(
    alloc: Global,
    kdc: &mut K,
    client: &Client,
    wanted: Wanted<'_>,
    own: &ByCertificate<'_, Y>,
) -> Result<Credential, ExchangeFault<K::Fault>>
    ensures { Runs (K.events kdc.old) (K.events kdc.new)
        (login_by_kept_means client.now (suites_of wanted.entry) (by_agile_certificate own.now.certificate.now own.now.anchor.now (Y.functions own.now.keys.now))) result }
{
    log_in_agile(alloc, kdc, client, wanted.suites(), own)
}

// The same, by one request that lists these suites.
fn log_in_agile<K: Kdc, Y: KeyFunctions>(
    alloc: Global,
    kdc: &mut K,
    client: &Client,
    suites: &[CipherSuite],
    own: &ByCertificate<'_, Y>,
) -> Result<Credential, ExchangeFault<K::Fault>>
    ensures { Runs (K.events kdc.old) (K.events kdc.new)
        (login_by_kept_means client.now suites.now (by_agile_certificate own.now.certificate.now own.now.anchor.now (Y.functions own.now.keys.now))) result }
{
    let asking = AgileCertificate {
        own: ByCertificate {
            certificate: own.certificate,
            anchor: own.anchor,
            keys: own.keys,
        },
        as_req: &[],
    };
    let (octets, (asked, reply)) = ask_kept(alloc, kdc, client, suites, &asking)?;
    let request = octets.as_slice();
    let answer = reply.as_slice();
    let suite = suite_of(alloc, client, suites, answer)?;
    let taking = AgileCertificate {
        own: ByCertificate {
            certificate: own.certificate,
            anchor: own.anchor,
            keys: own.keys,
        },
        as_req: request,
    };
    take_in(alloc, client, suite, suites, &taking, &asked, answer)
}
