//! A login by certificate, with a key of RSA on each side.

use crate::{HOST, Keys, REALM, SUITE, USER, random_bytes, use_ticket};
use decision_tables::if_passed;
use krb_realm::{Anchor, Client, Realm, Settings, components_of_text};
use picky_asn1_der::both;
use public_key_cryptography::Group;
use rsa_keys::{OwnKey, RsaKeys};
use std::alloc::Global;
use std::fs;
use x509_certificates::{certificate_in, private_key_in};

/// The client asks its realm for a ticket by its certificate, and uses it.
pub fn log_in_by_certificate(rt: &HostRuntime) -> anyhow::Result<()> {
    let host_key = random_bytes::<32>(rt)?;
    let realm = make_realm(rt, &host_key)?;
    let used = use_realm(rt, &realm, &host_key);
    drop(realm);
    used
}

fn use_realm(rt: &HostRuntime, realm: &Realm, host_key: &[u8]) -> anyhow::Result<()> {
    let client = make_client(rt)?;
    let used = use_keys(rt, realm, &client, host_key);
    drop(client);
    used
}

/// Client and realm have each the key of its certificate.
fn use_keys(
    rt: &HostRuntime,
    realm: &Realm,
    client: &Client,
    host_key: &[u8],
) -> anyhow::Result<()> {
    let both_keys = both(make_keys(rt, "user.key"), make_keys(rt, "realm.key"))?;
    let keys = Keys {
        client: &both_keys.0,
        realm: &both_keys.1,
    };
    let used = use_ticket(rt, realm, client, host_key, &keys);
    drop(both_keys);
    used
}

/// A client that authenticates by its certificate.
fn make_client(rt: &HostRuntime) -> anyhow::Result<Client> {
    let name = components_of_text(rt.alloc(), USER)?;
    let own = certificate_of(rt, "user.pem")?;
    let anchor = make_anchor(rt)?;
    let client = Client::by_certificate(rt.alloc(), REALM, &name, SUITE, &own, anchor)?;
    Ok(client)
}

/// A realm that grants by certificate. The user's account has a key that nobody knows.
fn make_realm(rt: &HostRuntime, host_key: &[u8]) -> anyhow::Result<Realm> {
    let realm_key = random_bytes::<32>(rt)?;
    let user_key = random_bytes::<32>(rt)?;
    let settings = certified_settings(rt)?;
    let mut realm = Realm::new(rt.alloc(), REALM, SUITE, &realm_key, settings)?;
    let added = add_accounts(rt.alloc(), &mut realm, &user_key, host_key);
    if_passed(realm, added)
}

fn add_accounts(
    alloc: Global,
    realm: &mut Realm,
    user_key: &[u8],
    host_key: &[u8],
) -> anyhow::Result<()> {
    realm.add_account_by_key(alloc, &components_of_text(alloc, USER)?, SUITE, user_key)?;
    realm.add_account_by_key(alloc, &components_of_text(alloc, HOST)?, SUITE, host_key)?;
    Ok(())
}

/// Settings with an anchor and the realm's own certificate.
fn certified_settings(rt: &HostRuntime) -> anyhow::Result<Settings> {
    let own = certificate_of(rt, "realm.pem")?;
    let settings = Settings::new(rt.alloc(), 300, 36_000, Some(make_anchor(rt)?), Some(&own))?;
    Ok(settings)
}

/// The authority that client and realm trust.
fn make_anchor(rt: &HostRuntime) -> anyhow::Result<Anchor> {
    let certificate = certificate_of(rt, "anchor.pem")?;
    let anchor = Anchor::from_certificate(rt.alloc(), &certificate)?;
    Ok(anchor)
}

/// The certificate in a file.
fn certificate_of(rt: &HostRuntime, file: &str) -> anyhow::Result<Vec<u8>> {
    let octets = fs::read(rt, file)?;
    let certificate = certificate_in(rt.alloc(), &octets)?;
    Ok(certificate)
}

/// Key functions by the private key in a file.
fn make_keys(rt: &HostRuntime, file: &str) -> anyhow::Result<RsaKeys> {
    let octets = fs::read(rt, file)?;
    let key = private_key_in(rt.alloc(), &octets)?;
    let own = OwnKey::of_private(rt.alloc(), &key);
    drop(key);
    Ok(RsaKeys::new(Group::Modp2048, Some(own??)))
}
