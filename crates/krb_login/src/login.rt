//! A login, from its arguments to the cache.

use crate::arguments::{Login, Means, Service};
use crate::certified::{Certified, certified_in};
use crate::kdc::KdcPipe;
use crate::refusals::stop_of;
use crate::reports::Expected;
use crate::secret::{Secret, secret_of};
use krb_client::{Credential, TakeRefusal};
use krb_client_exchanges::{
    ExchangeFault, LoginRefusal, cache_of, log_in_by_agile_certificate, log_in_by_certificate,
    log_in_by_keytab, log_in_by_password, renewed_ticket, ticket_for,
};
use krb_commands::{FileKind, Stop, begin, refused, write_file};
use krb_constants::error_codes::KDC_ERR_PREAUTH_FAILED;
use krb_file_formats::CacheWriteFault;
use std::alloc::Global;

/// Gets the tickets of a login, and writes the cache. It begins with a file beside the cache, which it takes away again: where none can be
/// made, or what is there is no cache, no KDC is asked.
pub(crate) fn log_in(rt: &HostRuntime, login: &Login<'_>, means: Means<'_>) -> Result<(), Stop> {
    let place = begin(rt, login.cache.as_str(), FileKind::Cache, &login.read)?;
    place.discard(rt);
    match means {
        Means::Key(file) => {
            let secret = secret_of(rt, login, file)?;
            let outcome = log_in_by_key(rt, login, &secret);
            drop(secret);
            outcome
        }
        Means::Certificate(files) => {
            let own = certified_in(rt, &files)?;
            let outcome = log_in_certified(rt, login, &own);
            drop(own);
            outcome
        }
    }
}

/// Renews the ticket-granting ticket of the cache, gets the service tickets by the renewed one, and writes the cache anew. It begins as a
/// login.
pub(crate) fn renew(
    rt: &HostRuntime,
    login: &Login<'_>,
    credential: &Credential,
) -> Result<(), Stop> {
    let place = begin(rt, login.cache.as_str(), FileKind::Cache, &login.read)?;
    place.discard(rt);
    renew_by(rt, login, credential)
}

fn renew_by<'a>(
    rt: &'a HostRuntime,
    login: &'a Login<'a>,
    credential: &Credential,
) -> Result<(), Stop> {
    let suites = login.wanted().suites();
    let name = login.user.argument;
    let mut kdc = KdcPipe::open(rt, &login.settings, name, Expected::Renewal(suites))?;
    let client = &login.user.client;
    let granted = renewed_ticket(rt.alloc(), &mut kdc, client, login.wanted(), credential);
    let granting = of_exchange(rt.alloc(), login, name, granted)?;
    log_in_with(rt, &mut kdc, login, &granting)
}

fn log_in_by_key(rt: &HostRuntime, login: &Login<'_>, secret: &Secret) -> Result<(), Stop> {
    let suites = secret.suites(login);
    let user = login.user.argument;
    let mut kdc = KdcPipe::open(rt, &login.settings, user, Expected::First(suites))?;
    let granting = granted_by_key(rt.alloc(), &mut kdc, login, secret)?;
    log_in_with(rt, &mut kdc, login, &granting)
}

// The ticket-granting ticket by a key that the client shares with the KDC.
fn granted_by_key(
    alloc: Global,
    kdc: &mut KdcPipe<'_>,
    login: &Login<'_>,
    secret: &Secret,
) -> Result<Credential, Stop> {
    let client = &login.user.client;
    let granted = match secret {
        Secret::Password(password) => {
            log_in_by_password(alloc, kdc, client, login.wanted(), password.as_slice())
        }
        Secret::Keytab(keytab, _) => {
            log_in_by_keytab(alloc, kdc, client, login.wanted(), keytab.as_slice())
        }
    };
    of_exchange(alloc, login, login.user.argument, granted)
}

fn log_in_certified<'a>(
    rt: &'a HostRuntime,
    login: &'a Login<'a>,
    own: &Certified,
) -> Result<(), Stop> {
    let suites = login.wanted().suites();
    let user = login.user.argument;
    let mut kdc = KdcPipe::open(rt, &login.settings, user, Expected::Certificate(suites))?;
    let granted = granted_certified(rt.alloc(), &mut kdc, login, own);
    let granting = of_exchange(rt.alloc(), login, user, granted)?;
    log_in_with(rt, &mut kdc, login, &granting)
}

// The ticket-granting ticket by certificate: with algorithm agility, and without where the KDC doesn't take that.
fn granted_certified(
    alloc: Global,
    kdc: &mut KdcPipe<'_>,
    login: &Login<'_>,
    own: &Certified,
) -> Result<Credential, ExchangeFault<Stop>> {
    let client = &login.user.client;
    let wanted = login.wanted();
    let granted = log_in_by_agile_certificate(alloc, kdc, client, wanted, &own.means());
    if !is_preauth_failed(&granted) {
        return granted;
    }
    drop(granted);
    log_in_by_certificate(alloc, kdc, client, wanted, &own.means())
}

// Whether the KDC refused the padata (RFC 4120, section 7.5.9). One without algorithm agility can't read it.
fn is_preauth_failed(granted: &Result<Credential, ExchangeFault<Stop>>) -> bool {
    match granted {
        Err(ExchangeFault::Refused(LoginRefusal::NotTaken(TakeRefusal::Refused(code)))) => {
            *code == KDC_ERR_PREAUTH_FAILED
        }
        _ => false,
    }
}

// What an exchange granted, or why the program stops.
fn of_exchange(
    alloc: Global,
    login: &Login<'_>,
    name: &str,
    granted: Result<Credential, ExchangeFault<Stop>>,
) -> Result<Credential, Stop> {
    match granted {
        Ok(credential) => Ok(credential),
        Err(fault) => Err(stop_of(alloc, login, name, fault)),
    }
}

// Gets the service tickets, and writes the cache.
fn log_in_with<'a>(
    rt: &HostRuntime,
    kdc: &mut KdcPipe<'a>,
    login: &'a Login<'_>,
    granting: &Credential,
) -> Result<(), Stop> {
    let further = tickets(rt.alloc(), kdc, login, granting)?;
    let octets = cached(rt.alloc(), login, granting, &further);
    drop(further);
    write_file(
        rt,
        login.cache.as_str(),
        FileKind::Cache,
        &login.read,
        &octets?,
    )
}

// A ticket for each service, in their order.
fn tickets<'a>(
    alloc: Global,
    kdc: &mut KdcPipe<'a>,
    login: &'a Login<'_>,
    granting: &Credential,
) -> Result<Vec<Credential>, Stop> {
    let mut tickets = Vec::new(alloc);
    for service in &login.services {
        tickets.push(service_ticket(alloc, kdc, login, granting, service)?)?;
    }
    Ok(tickets)
}

// A ticket for a service.
fn service_ticket<'a>(
    alloc: Global,
    kdc: &mut KdcPipe<'a>,
    login: &'a Login<'_>,
    granting: &Credential,
    service: &'a Service<'_>,
) -> Result<Credential, Stop> {
    let wanted = login.wanted();
    kdc.expect(service.argument, Expected::Ticket(wanted.suites()));
    let client = &login.user.client;
    let granted = ticket_for(alloc, kdc, client, wanted, granting, &service.components);
    of_exchange(alloc, login, service.argument, granted)
}

// The octets of the cache.
fn cached(
    alloc: Global,
    login: &Login<'_>,
    granting: &Credential,
    further: &[Credential],
) -> Result<Vec<u8>, Stop> {
    let cache = cache_of(alloc, &login.user.client, granting, further)?;
    let octets = cache.to_bytes(alloc);
    drop(cache);
    match octets {
        Ok(octets) => Ok(octets),
        Err(CacheWriteFault::Memory) => Err(Stop::Memory),
        Err(fault) => Err(refused(alloc, format_args!("{}: {fault}", login.cache))),
    }
}
