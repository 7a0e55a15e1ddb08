//! Parties with keys of RSA. Each is owned by one function.

use crate::certified_logins::tell_ended;
use anyhow::bail;
use decision_tables::if_passed;
use krb_realm::{Anchor, CipherSuite, Client, Realm, Service, Settings, components_of_text};
use public_key_cryptography::Group;
use rsa_keys::{OwnKey, RsaKeyRefusal, RsaKeys};
use std::alloc::Global;
use test_support::{Row, Told};
use x509_codec::from_bytes;
use x509_keys::{PublicKey, RsaPublicKey, SubjectPublicKeyInfo};

const REALM: &[u8] = b"EXAMPLE.COM";

const USER: &str = "user";

/// The service's name.
pub(crate) const HOST: &str = "host/server";

const SUITE: CipherSuite = CipherSuite::Aes256CtsHmacSha196;

const REALM_KEY: [u8; 32] = [1; 32];

const USER_KEY: [u8; 32] = [2; 32];

const HOST_KEY: [u8; 32] = [3; 32];

/// What a party has.
#[derive(Drop)]
pub(crate) struct Party {
    /// The certificate of its anchor.
    anchor: Vec<u8>,
    certificate: Vec<u8>,
    /// The public key, as SubjectPublicKeyInfo.
    key: Vec<u8>,
    /// The private exponent.
    exponent: Vec<u8>,
}

/// Key functions of both.
#[derive(Clone, Copy)]
pub(crate) struct BothRsaKeys<'a> {
    pub(crate) client: &'a RsaKeys,
    pub(crate) realm: &'a RsaKeys,
}

/// The party of the next four words.
pub(crate) fn party_of(alloc: Global, row: &mut Row<'_>) -> Party {
    Party {
        anchor: row.octets(alloc),
        certificate: row.octets(alloc),
        key: row.octets(alloc),
        exponent: row.octets(alloc),
    }
}

/// The party's key functions, unless its key is refused.
pub(crate) fn keys_of(
    alloc: Global,
    party: &Party,
) -> anyhow::Result<Result<RsaKeys, RsaKeyRefusal>> {
    let public = public_of(alloc, &party.key)?;
    let exponent = Vec::from_slice(alloc, &party.exponent)?;
    match OwnKey::new(alloc, public, exponent)? {
        Ok(own) => Ok(Ok(RsaKeys::new(Group::Modp2048, Some(own)))),
        Err(refusal) => Ok(Err(refusal)),
    }
}

fn public_of(alloc: Global, bytes: &[u8]) -> anyhow::Result<RsaPublicKey> {
    let info = from_bytes::<SubjectPublicKeyInfo>(alloc, bytes)?;
    let key = rsa_key_in(&info);
    drop(info);
    key
}

fn rsa_key_in(info: &SubjectPublicKeyInfo) -> anyhow::Result<RsaPublicKey> {
    match info.subject_public_key() {
        PublicKey::Rsa(key) => Ok(key.0.clone()?),
        _ => bail!("no key of RSA"),
    }
}

pub(crate) fn with_realm(
    alloc: Global,
    client: &Party,
    realm: &Party,
    keys: BothRsaKeys<'_>,
    told: &mut Told,
) -> anyhow::Result<()> {
    let realm = make_realm(alloc, realm)?;
    let outcome = with_client(alloc, client, keys, &realm, told);
    drop(realm);
    outcome
}

fn with_client(
    alloc: Global,
    client: &Party,
    keys: BothRsaKeys<'_>,
    realm: &Realm,
    told: &mut Told,
) -> anyhow::Result<()> {
    let client = make_client(alloc, client)?;
    let outcome = with_service(alloc, keys, realm, &client, told);
    drop(client);
    outcome
}

fn with_service(
    alloc: Global,
    keys: BothRsaKeys<'_>,
    realm: &Realm,
    client: &Client,
    told: &mut Told,
) -> anyhow::Result<()> {
    let mut service = make_service(alloc)?;
    let outcome = tell_ended(alloc, keys, realm, client, &mut service, told);
    drop(service);
    outcome
}

fn make_client(alloc: Global, party: &Party) -> anyhow::Result<Client> {
    let name = components_of_text(alloc, USER)?;
    let anchor = Anchor::from_certificate(alloc, &party.anchor)?;
    let client = Client::by_certificate(alloc, REALM, &name, SUITE, &party.certificate, anchor)?;
    Ok(client)
}

fn make_realm(alloc: Global, party: &Party) -> anyhow::Result<Realm> {
    let anchor = Anchor::from_certificate(alloc, &party.anchor)?;
    let settings = Settings::new(alloc, 300, 36_000, Some(anchor), Some(&party.certificate))?;
    let mut realm = Realm::new(alloc, REALM, SUITE, &REALM_KEY, settings)?;
    let added = add_accounts(alloc, &mut realm);
    if_passed(realm, added)
}

fn add_accounts(alloc: Global, realm: &mut Realm) -> anyhow::Result<()> {
    realm.add_account_by_key(alloc, &components_of_text(alloc, USER)?, SUITE, &USER_KEY)?;
    realm.add_account_by_key(alloc, &components_of_text(alloc, HOST)?, SUITE, &HOST_KEY)?;
    Ok(())
}

fn make_service(alloc: Global) -> anyhow::Result<Service> {
    let name = components_of_text(alloc, HOST)?;
    let service = Service::new(alloc, REALM, &name, SUITE, &HOST_KEY, 1, 300)?;
    Ok(service)
}
