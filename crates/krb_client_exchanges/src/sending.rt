//! Requests that are made and sent.
ghost use Rattle.std.specs.Prelude.{◌≡◌, IfOk};
ghost use Rattle.krb_realm_accounts.specs.Names.{parts};
ghost use Rattle.krb_messages.specs.RandomBytes.{AreEnoughForRequest};
ghost use Rattle.krb_client_exchanges.specs.Courses.{Runs, began};
ghost use Rattle.krb_client_exchanges.specs.RequestKinds.{IsMadeAt, as_request_by, exchange, first_as_request, kept_exchange, renewal_request_by, tgs_request_by};
ghost use Rattle.krb_client_exchanges.specs.Taking.{not_asked, octets_both, octets_first, octets_last, posted, posted_kept};

use crate::asking::first_request_with;
use crate::fault::{ExchangeFault, LoginRefusal};
use crate::kdc::Kdc;
use crate::names::granting_service;
use crate::occasion::Occasion;
use krb_client::{
    AsAsked, AskRefusal, Client, Credential, Means, TgsAsked, TicketOptions, TicketRequest,
};
use krb_crypto::CipherSuite;
use std::alloc::Global;

/// Sends the first request, which has no padata. Returns what the client remembers of it, and the answer.
pub(crate) fn ask_first<K: Kdc>(
    alloc: Global,
    kdc: &mut K,
    client: &Client,
    suites: &[CipherSuite],
) -> Result<(AsAsked, Vec<u8>), ExchangeFault<K::Fault>>
    ensures { Runs (K.events kdc.old) (K.events kdc.new) (exchange (first_as_request client.now suites.now)) (octets_last result) }
{
    let occasion = begin(alloc, kdc)?;
    send(alloc, kdc, first_at(alloc, client, suites, &occasion))
}

/// Sends an AS request with the padata of the means.
pub(crate) fn ask_by_means<K: Kdc, M: Means>(
    alloc: Global,
    kdc: &mut K,
    client: &Client,
    suites: &[CipherSuite],
    means: &M,
) -> Result<(AsAsked, Vec<u8>), ExchangeFault<K::Fault>>
    ensures { Runs (K.events kdc.old) (K.events kdc.new) (exchange (as_request_by client.now suites.now (M.means means.now))) (octets_last result) }
{
    let occasion = begin(alloc, kdc)?;
    send(
        alloc,
        kdc,
        by_means_at(alloc, client, suites, means, &occasion),
    )
}

/// The same, with the octets of the request.
pub(crate) fn ask_kept<K: Kdc, M: Means>(
    alloc: Global,
    kdc: &mut K,
    client: &Client,
    suites: &[CipherSuite],
    means: &M,
) -> Result<(Vec<u8>, (AsAsked, Vec<u8>)), ExchangeFault<K::Fault>>
    ensures { Runs (K.events kdc.old) (K.events kdc.new) (kept_exchange (as_request_by client.now suites.now (M.means means.now))) (octets_both result) }
{
    let occasion = begin(alloc, kdc)?;
    send_kept(
        alloc,
        kdc,
        by_means_at(alloc, client, suites, means, &occasion),
    )
}

/// Sends a TGS request by a credential.
pub(crate) fn ask_by_ticket<K: Kdc>(
    alloc: Global,
    kdc: &mut K,
    client: &Client,
    suites: &[CipherSuite],
    credential: &Credential,
    service: &[Vec<u8>],
) -> Result<(TgsAsked, Vec<u8>), ExchangeFault<K::Fault>>
    ensures { Runs (K.events kdc.old) (K.events kdc.new) (exchange (tgs_request_by client.now suites.now credential.now (parts service.now))) (octets_last result) }
{
    let occasion = begin(alloc, kdc)?;
    send(
        alloc,
        kdc,
        by_ticket_at(alloc, client, suites, credential, service, &occasion),
    )
}

/// Sends a TGS request to renew the ticket of a credential.
pub(crate) fn ask_to_renew<K: Kdc>(
    alloc: Global,
    kdc: &mut K,
    client: &Client,
    suites: &[CipherSuite],
    credential: &Credential,
) -> Result<(TgsAsked, Vec<u8>), ExchangeFault<K::Fault>>
    ensures { Runs (K.events kdc.old) (K.events kdc.new) (exchange (renewal_request_by client.now suites.now credential.now)) (octets_last result) }
{
    let occasion = begin(alloc, kdc)?;
    send(
        alloc,
        kdc,
        renewal_at(alloc, client, suites, credential, &occasion),
    )
}

// Takes the occasion of a request.
fn begin<K: Kdc>(alloc: Global, kdc: &mut K) -> Result<Occasion, ExchangeFault<K::Fault>>
    ensures sized { IfOk result (λ occasion. AreEnoughForRequest occasion.words) }
    ensures course { Runs (K.events kdc.old) (K.events kdc.new) began result }
{
    match kdc.occasion(alloc) {
        Ok(occasion) => Ok(occasion),
        Err(fault) => Err(ExchangeFault::Kdc(fault)),
    }
}

// Sends a request, if it was made.
fn send<K: Kdc, A: Drop>(
    alloc: Global,
    kdc: &mut K,
    made: Result<(Vec<u8>, A), AskRefusal>,
) -> Result<(A, Vec<u8>), ExchangeFault<K::Fault>>
    ensures { Runs (K.events kdc.old) (K.events kdc.new) (posted (octets_first made)) (octets_last result) }
{
    match made {
        Ok((octets, asked)) => match kdc.ask(alloc, &octets) {
            Ok(reply) => Ok((asked, reply)),
            Err(fault) => Err(ExchangeFault::Kdc(fault)),
        },
        Err(refusal) => Err(not_asked(refusal)),
    }
}

// The same, with the octets that were sent.
fn send_kept<K: Kdc, A: Drop>(
    alloc: Global,
    kdc: &mut K,
    made: Result<(Vec<u8>, A), AskRefusal>,
) -> Result<(Vec<u8>, (A, Vec<u8>)), ExchangeFault<K::Fault>>
    ensures { Runs (K.events kdc.old) (K.events kdc.new) (posted_kept (octets_first made)) (octets_both result) }
{
    match made {
        Ok((octets, asked)) => match kdc.ask(alloc, &octets) {
            Ok(reply) => Ok((octets, (asked, reply))),
            Err(fault) => Err(ExchangeFault::Kdc(fault)),
        },
        Err(refusal) => Err(not_asked(refusal)),
    }
}

fn not_asked<F>(refusal: AskRefusal) -> ExchangeFault<F>
    ensures { result ≡ not_asked refusal }
{
    match refusal {
        AskRefusal::Memory => ExchangeFault::Memory,
        refusal => ExchangeFault::Refused(LoginRefusal::NotAsked(refusal)),
    }
}

// The first request at an occasion.
fn first_at(
    alloc: Global,
    client: &Client,
    suites: &[CipherSuite],
    occasion: &Occasion,
) -> Result<(Vec<u8>, AsAsked), AskRefusal>
    requires { AreEnoughForRequest occasion.now.words }
    ensures { IsMadeAt (first_as_request client.now suites.now) occasion.now (octets_first result) }
{
    client.is_well_formed();
    let service = granting_service(alloc, client)?;
    let request = TicketRequest {
        service: &service,
        till: occasion.till,
        moment: occasion.moment,
        words: &occasion.words,
    };
    first_request_with(alloc, client, suites, occasion.options, &request)
}

// The request by the means at an occasion.
fn by_means_at<M: Means>(
    alloc: Global,
    client: &Client,
    suites: &[CipherSuite],
    means: &M,
    occasion: &Occasion,
) -> Result<(Vec<u8>, AsAsked), AskRefusal>
    requires { AreEnoughForRequest occasion.now.words }
    ensures { IsMadeAt (as_request_by client.now suites.now (M.means means.now)) occasion.now (octets_first result) }
{
    client.is_well_formed();
    let service = granting_service(alloc, client)?;
    let request = TicketRequest {
        service: &service,
        till: occasion.till,
        moment: occasion.moment,
        words: &occasion.words,
    };
    client.as_request_with(alloc, means, suites, occasion.options, &request)
}

// The request by a credential at an occasion.
fn by_ticket_at(
    alloc: Global,
    client: &Client,
    suites: &[CipherSuite],
    credential: &Credential,
    service: &[Vec<u8>],
    occasion: &Occasion,
) -> Result<(Vec<u8>, TgsAsked), AskRefusal>
    requires { AreEnoughForRequest occasion.now.words }
    ensures { IsMadeAt (tgs_request_by client.now suites.now credential.now (parts service.now)) occasion.now (octets_first result) }
{
    let request = TicketRequest {
        service,
        till: occasion.till,
        moment: occasion.moment,
        words: &occasion.words,
    };
    client.tgs_request_of_suites(alloc, credential, suites, &request)
}

// The request to renew the ticket of a credential at an occasion.
fn renewal_at(
    alloc: Global,
    client: &Client,
    suites: &[CipherSuite],
    credential: &Credential,
    occasion: &Occasion,
) -> Result<(Vec<u8>, TgsAsked), AskRefusal>
    requires { AreEnoughForRequest occasion.now.words }
    ensures { IsMadeAt (renewal_request_by client.now suites.now credential.now) occasion.now (octets_first result) }
{
    client.is_well_formed();
    let service = granting_service(alloc, client)?;
    let options = TicketOptions::renewal(credential.flags());
    let request = TicketRequest {
        service: &service,
        till: occasion.till,
        moment: occasion.moment,
        words: &occasion.words,
    };
    client.tgs_request_with(alloc, credential, suites, options, &request)
}
