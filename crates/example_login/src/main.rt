//! A first use: a realm's reply to a recorded request, logins by password and by certificate, and a service that admits each once.
//!
//! `rt` is the machine: it has memory, random bytes and standard output.
#![tactic(auto)]

mod certificate_run;
mod replies;
mod stored_run;

use anyhow::Context;
use certificate_run::log_in_by_certificate;
use decision_tables::if_passed;
use krb_realm::{
    Admission, AsAsked, CipherSuite, Client, Credential, KeyFunctions, Moment, NoKeys, Realm,
    Service, Settings, components_of_text,
};
use replies::print_reply;
use std::alloc::Global;
use std::random::RandomSource;
use stored_run::answer_kinit;

const REALM: &[u8] = b"EXAMPLE.COM";

const USER: &str = "user";

const PASSWORD: &[u8] = b"correct horse battery staple";

const HOST: &str = "host/server";

const SUITE: CipherSuite = CipherSuite::Aes256CtsHmacSha196;

fn main(rt: HostRuntime) -> anyhow::Result<()> {
    answer_kinit(&rt, now()?)?;
    println!(rt; "a user logs in by password:")?;
    log_in_by_password(&rt)?;
    println!(rt; "a user logs in by certificate:")?;
    log_in_by_certificate(&rt)
}

/// The key functions of client and realm.
#[derive(Drop)]
struct Keys<'a, K: KeyFunctions> {
    client: &'a K,
    realm: &'a K,
}

/// The client asks its realm for a ticket by its password, and uses it. That needs no key functions.
fn log_in_by_password(rt: &HostRuntime) -> anyhow::Result<()> {
    let host_key = random_bytes::<32>(rt)?;
    let realm = make_realm(rt, &host_key)?;
    let used = use_realm(rt, &realm, &host_key);
    drop(realm);
    used
}

fn use_realm(rt: &HostRuntime, realm: &Realm, host_key: &[u8]) -> anyhow::Result<()> {
    let client = make_client(rt.alloc())?;
    let keys = Keys {
        client: &NoKeys,
        realm: &NoKeys,
    };
    let used = use_ticket(rt, realm, &client, host_key, &keys);
    drop(client);
    used
}

/// The client logs in, and presents its ticket to the service.
fn use_ticket<K: KeyFunctions>(
    rt: &HostRuntime,
    realm: &Realm,
    client: &Client,
    host_key: &[u8],
    keys: &Keys<'_, K>,
) -> anyhow::Result<()> {
    let credential = log_in(rt, realm, client, keys)?;
    let used = use_service(rt, host_key, client, &credential);
    drop(credential);
    used
}

/// The realm, with the account of a user by password and that of a service by key.
fn make_realm(rt: &HostRuntime, host_key: &[u8]) -> anyhow::Result<Realm> {
    let realm_key = random_bytes::<32>(rt)?;
    let settings = Settings::new(rt.alloc(), 300, 36_000, None, None)?; // seconds of skew, and of a ticket's life
    let mut realm = Realm::new(rt.alloc(), REALM, SUITE, &realm_key, settings)?;
    let added = add_accounts(rt.alloc(), &mut realm, host_key);
    if_passed(realm, added)
}

fn add_accounts(alloc: Global, realm: &mut Realm, host_key: &[u8]) -> anyhow::Result<()> {
    realm.add_account_by_password(alloc, &components_of_text(alloc, USER)?, SUITE, PASSWORD)?;
    realm.add_account_by_key(alloc, &components_of_text(alloc, HOST)?, SUITE, host_key)?;
    Ok(())
}

fn make_client(alloc: Global) -> anyhow::Result<Client> {
    let name = components_of_text(alloc, USER)?;
    let client = Client::by_password(alloc, REALM, &name, SUITE, PASSWORD)?;
    Ok(client)
}

/// The client asks its realm for a ticket for the service, and takes the reply.
fn log_in<K: KeyFunctions>(
    rt: &HostRuntime,
    realm: &Realm,
    client: &Client,
    keys: &Keys<'_, K>,
) -> anyhow::Result<Credential> {
    let (request, asked) = ask_realm(rt, client, keys.client)?;
    let words = random_bytes::<128>(rt)?;
    let reply = realm.answer(rt.alloc(), &request, now()?, &words, keys.realm)?;
    print_reply(rt, &reply)?;
    let credential = client.take_as_reply(rt.alloc(), &asked, &reply, keys.client)?;
    Ok(credential)
}

/// The client's request to its realm, and what the client has to remember for the reply.
fn ask_realm<K: KeyFunctions>(
    rt: &HostRuntime,
    client: &Client,
    keys: &K,
) -> anyhow::Result<(Vec<u8>, AsAsked)> {
    let host = components_of_text(rt.alloc(), HOST)?;
    let till = moment_of(b"20000101100000Z")?.second();
    let words = random_bytes::<96>(rt)?;
    let asked = client.as_request(rt.alloc(), &host, till, now()?, &words, keys)?;
    Ok(asked)
}

/// The client presents what it was granted to the service, twice.
fn use_service(
    rt: &HostRuntime,
    host_key: &[u8],
    client: &Client,
    credential: &Credential,
) -> anyhow::Result<()> {
    let request = ask_service(rt, client, credential)?;
    let mut service = make_service(rt.alloc(), host_key)?;
    present(rt, &mut service, &request, credential)?;
    println!(rt; "the same request again:")?;
    present(rt, &mut service, &request, credential)
}

/// The client's request to the service.
fn ask_service(
    rt: &HostRuntime,
    client: &Client,
    credential: &Credential,
) -> anyhow::Result<Vec<u8>> {
    let words = random_bytes::<96>(rt)?;
    let (request, _) = client.ap_request(rt.alloc(), credential, false, false, now()?, &words)?;
    Ok(request)
}

fn make_service(alloc: Global, host_key: &[u8]) -> anyhow::Result<Service> {
    let name = components_of_text(alloc, HOST)?;
    let service = Service::new(alloc, REALM, &name, SUITE, host_key, 1, 300)?; // key 1, 300 seconds of skew
    Ok(service)
}

/// Prints whether the service admits a request.
fn present(
    rt: &HostRuntime,
    service: &mut Service,
    request: &[u8],
    credential: &Credential,
) -> anyhow::Result<()> {
    let words = random_bytes::<16>(rt)?;
    match service.admit(rt.alloc(), request, now()?, &words) {
        Ok(admission) => show(rt, &admission, credential)?,
        Err(refusal) => println!(rt; "{refusal}")?,
    }
    Ok(())
}

/// Prints what the service gets of the client, and what of it the client has, too.
fn show(rt: &HostRuntime, admission: &Admission, credential: &Credential) -> anyhow::Result<()> {
    let realm = str::from_utf8(admission.realm.as_bytes())?;
    for component in admission.client.name_string.0.as_slice() {
        let component = str::from_utf8(component.as_bytes())?;
        println!(rt; "{component} of {realm} is admitted")?;
    }
    if admission.session.key_value.0.as_bytes() == credential.key().as_bytes() {
        println!(rt; "client and service hold the same session key")?;
    }
    if is_same_span(admission, credential) && &admission.flags == credential.flags() {
        println!(rt;
            "and know that the ticket is valid up to {}",
            admission.endtime
        )?;
    }
    Ok(())
}

fn is_same_span(admission: &Admission, credential: &Credential) -> bool {
    admission.authtime == credential.authtime()
        && admission.starttime == credential.starttime()
        && admission.endtime == credential.endtime()
}

/// The moment of all that happens here. In earnest it is the clock's.
fn now() -> anyhow::Result<Moment> {
    moment_of(b"20000101000000Z")
}

fn moment_of(text: &[u8]) -> anyhow::Result<Moment> {
    let moment = Moment::from_text(text).context("no time of the calendar")?;
    Ok(moment)
}

fn random_bytes<const N: usize>(rt: &HostRuntime) -> anyhow::Result<[u8; N]> {
    let mut bytes = [0; N];
    rt.fill_bytes(&mut bytes)?;
    Ok(bytes)
}
