//! Logins of a client and a realm with keys of RSA and certificates, at a service. `data/rsa_logins.py` writes the rows.

use crate::certified_parties::{BothRsaKeys, HOST, Party, keys_of, party_of, with_realm};
use crate::login::{input_of, moments_of};
use crate::stage::{Conditions, Random};
use anyhow::Context;
use krb_realm::{
    Admission, Client, EncryptionKey, GeneralizedTime, LoginRefusal, Moment, Realm, Service,
    components_of_text, is_honest_by_certificate, login_by_certificate,
};
use rsa_keys::RsaKeys;
use std::alloc::Global;
use test_support::rows::replay;
use test_support::{Row, Rows, Told};

#[derive(Clone, Copy)]
struct RsaLogins;

/// Replays the logins.
pub(crate) fn replay_rsa_logins(rt: &HostRuntime) -> anyhow::Result<()> {
    replay(rt, &mut RsaLogins, "rsa_logins.txt")
}

impl Rows for RsaLogins {
    const NAME: &'static str = "logins";

    fn agrees(&mut self, rt: &HostRuntime, row: &mut Row<'_>) -> anyhow::Result<bool> {
        row.want();
        let client = party_of(rt.alloc(), row);
        let realm = party_of(rt.alloc(), row);
        let mut told = Told::new(rt.alloc());
        let outcome = tell_login(rt.alloc(), &client, &realm, &mut told);
        drop((client, realm));
        outcome?;
        Ok(told.text()? == row.wanted())
    }
}

/// Writes how the login ends, or why the client's key is refused.
fn tell_login(alloc: Global, client: &Party, realm: &Party, told: &mut Told) -> anyhow::Result<()> {
    match keys_of(alloc, client)? {
        Ok(keys) => {
            let outcome = tell_by_client(alloc, client, &keys, realm, told);
            drop(keys);
            outcome
        }
        Err(refusal) => {
            told.debug(&refusal);
            Ok(())
        }
    }
}

/// Writes how the login of a client with these keys ends, or why the realm's key is refused.
fn tell_by_client(
    alloc: Global,
    client: &Party,
    client_keys: &RsaKeys,
    realm: &Party,
    told: &mut Told,
) -> anyhow::Result<()> {
    match keys_of(alloc, realm)? {
        Ok(keys) => {
            let both = BothRsaKeys {
                client: client_keys,
                realm: &keys,
            };
            let outcome = with_realm(alloc, client, realm, both, told);
            drop(keys);
            outcome
        }
        Err(refusal) => {
            told.debug(&refusal);
            Ok(())
        }
    }
}

/// The moment and the random bytes of the client. Those of the realm begin with another octet.
fn conditions() -> anyhow::Result<Conditions> {
    Ok(Conditions {
        moment: Moment::from_text(b"20270601000000Z").context("no moment")?,
        till: GeneralizedTime::from_text(b"20270601100000Z").context("no time")?,
        random: Random { first: 1, step: 1 },
    })
}

/// Writes whether the login is honest, and `one_key` where both sides have one key, or why it is refused.
pub(crate) fn tell_ended(
    alloc: Global,
    keys: BothRsaKeys<'_>,
    realm: &Realm,
    client: &Client,
    service: &mut Service,
    told: &mut Told,
) -> anyhow::Result<()> {
    let at = conditions()?;
    let random = at.random.bytes();
    let realm_random = Random {
        first: 101,
        step: 1,
    }
    .bytes();
    let name = components_of_text(alloc, HOST)?;
    let input = input_of(
        at.till,
        moments_of(at.moment),
        &name,
        &random,
        &realm_random,
    );
    let (mine, theirs) = (keys.client, keys.realm);
    let honest = is_honest_by_certificate(alloc, client, realm, service, &input, mine, theirs)?;
    let login = login_by_certificate(alloc, client, realm, service, &input, mine, theirs);
    tell_outcome(honest, login, told);
    Ok(())
}

fn tell_outcome(
    honest: bool,
    login: Result<(EncryptionKey, Admission), LoginRefusal>,
    told: &mut Told,
) {
    if honest {
        told.put("honest:");
    }
    match login {
        Ok(login) => {
            tell_keys(&login.0, &login.1, told);
            drop(login);
        }
        Err(refusal) => told.debug(&refusal),
    }
}

fn tell_keys(key: &EncryptionKey, admission: &Admission, told: &mut Told) {
    let same = key.key_value.0.as_bytes() == admission.session.key_value.0.as_bytes();
    told.put(if same { "one_key" } else { "two_keys" });
}
