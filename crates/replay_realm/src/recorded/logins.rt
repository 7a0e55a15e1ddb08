//! Whole logins by certificate, each of a client, a realm and a service of its own.

use crate::keys::{RowKeys, keys_of};
use crate::recorded::clients::made_client;
use crate::recorded::parties::{Party, party_of};
use crate::recorded::pkinit::settings_of;
use crate::recorded::replies::{Secret, add_account, realm_with};
use crate::recorded::rows::Rows;
use crate::recorded::telling::tell_login;
use crate::stage::Random;
use crate::words::{moment_of, octets_of, second_of, start, suite_of};
use decision_tables::if_passed;
use krb_realm::{
    Admission, CipherSuite, Client, EncryptionKey, GeneralizedTime, KeyFunctions, LoginInput,
    LoginMoments, LoginRefusal, Realm, Service, login_by_certificate,
};
use picky_asn1_der::both;
use std::alloc::Global;
use test_support::{Row, Told, components_of};

/// Logins. The columns of a row are divided by tabs, and the words of a column by spaces.
#[derive(Clone, Copy)]
pub(crate) struct PkinitLogins;

/// The parties of a login by their words.
#[derive(Clone, Copy)]
struct Parties<'a> {
    client: &'a str,
    realm: &'a str,
    service: ServiceWords<'a>,
    /// What changes in the realm before the login.
    change: &'a str,
}

/// A service: its suite, its key in hexadecimal, the key's kvno, and the skew.
#[derive(Clone, Copy)]
struct ServiceWords<'a> {
    suite: CipherSuite,
    key: &'a str,
    kvno: u32,
    skew: u64,
}

/// A client or a realm: the party itself, and how it signs and agrees.
#[derive(Drop)]
struct Keyed<T: Drop> {
    value: T,
    party: Party,
    keys: RowKeys,
}

/// How many logins there are, when they are, and the random bytes of each of their calls.
#[derive(Clone, Copy)]
struct Times {
    count: u64,
    moments: LoginMoments,
    till: GeneralizedTime,
    random: [u8; 128],
}

impl Rows for PkinitLogins {
    const COLUMNS: &'static str = "\t";

    const NAME: &'static str = "logins";

    const WRONG: &'static str = "differing outcomes";

    fn tell(&self, rt: &HostRuntime, row: &mut Row<'_>, told: &mut Told) -> anyhow::Result<()> {
        let _label = row.word();
        row.want();
        let count = row.number::<u64>();
        let (client, realm) = (row.word(), row.word());
        let service = service_words(row.word())?;
        let times = times_of(count, row.word())?;
        let parties = Parties {
            client,
            realm,
            service,
            change: row.word(),
        };
        tell_logins(rt.alloc(), parties, &times, told)
    }
}

/// Writes the outcome of the last of the logins of these parties, or of the first that fails.
fn tell_logins(
    alloc: Global,
    parties: Parties<'_>,
    times: &Times,
    told: &mut Told,
) -> anyhow::Result<()> {
    let sides = both(
        client_of(alloc, parties.client),
        realm_of_parties(alloc, parties),
    );
    let ((client, realm), mut service) = both(sides, service_of(alloc, parties.service))?;
    let outcome = tell_logins_by(alloc, &client, &realm, &mut service, times, told);
    drop(client);
    drop(realm);
    drop(service);
    outcome
}

/// Writes the outcome of the last login, or of the first that fails. The key functions of each party know the keys of its own anchor
/// and of the other party.
fn tell_logins_by<'a>(
    alloc: Global,
    client: &'a Keyed<Client>,
    realm: &'a Keyed<Realm>,
    service: &mut Service,
    times: &Times,
    told: &mut Told,
) -> anyhow::Result<()> {
    let known_realm = client
        .party
        .known(alloc, &client.keys, realm.party.holder());
    let known_client = realm.party.known(alloc, &realm.keys, client.party.holder());
    let (known_realm, known_client) = both(known_realm, known_client)?;
    let client_keys = client.party.functions(&client.keys, &known_realm);
    let realm_keys = realm.party.functions(&realm.keys, &known_client);
    for _ in 0..times.count {
        told.clear();
        let (client, realm) = (&client.value, &realm.value);
        let login = log_in(
            alloc,
            client,
            realm,
            service,
            times,
            &client_keys,
            &realm_keys,
        )?;
        if !tell_outcome(told, login) {
            break;
        }
    }
    Ok(())
}

fn log_in<C: KeyFunctions, R: KeyFunctions>(
    alloc: Global,
    client: &Client,
    realm: &Realm,
    service: &mut Service,
    times: &Times,
    client_keys: &C,
    realm_keys: &R,
) -> anyhow::Result<Result<(EncryptionKey, Admission), LoginRefusal>> {
    let name = components_of(alloc, "h")?;
    let random = times.random;
    let input = LoginInput {
        service: &name,
        till: times.till,
        moments: times.moments,
        words_as: &random,
        words_tgs: &random,
        words_ap: &random,
        realm_words_as: &random,
        realm_words_tgs: &random,
        service_words: &random,
    };
    Ok(login_by_certificate(
        alloc,
        client,
        realm,
        service,
        &input,
        client_keys,
        realm_keys,
    ))
}

/// Writes what a login gives, and returns whether it is granted.
fn tell_outcome(told: &mut Told, login: Result<(EncryptionKey, Admission), LoginRefusal>) -> bool {
    match login {
        Ok((key, admission)) => {
            tell_login(told, &key, &admission);
            drop(key);
            drop(admission);
            true
        }
        Err(refusal) => {
            told.debug(&refusal);
            false
        }
    }
}

/// The client `a` of these words: suite, keys, and the certificates of its anchor and its own.
fn client_of(alloc: Global, words: &str) -> anyhow::Result<Keyed<Client>> {
    let mut words = Row::new(words, " ");
    let suite = suite_of(&mut words);
    let (keys, anchor, own) = (words.word(), words.word(), words.word());
    words.ended()?;
    let client = made_client(alloc, ("R", "a"), suite, anchor, own);
    with_keys(alloc, client, keys, anchor, own)
}

/// The realm, with its key functions' words: skew, lifetime, keys, and the certificates of its anchor and its own.
fn realm_of_parties(alloc: Global, parties: Parties<'_>) -> anyhow::Result<Keyed<Realm>> {
    let mut words = Row::new(parties.realm, " ");
    let limits = (words.number::<u64>(), words.number::<u64>());
    let (keys, anchor, own) = (words.word(), words.word(), words.word());
    words.ended()?;
    let realm = realm_by(alloc, parties, limits, anchor, own);
    with_keys(alloc, realm, keys, anchor, own)
}

fn with_keys<T: Drop>(
    alloc: Global,
    value: anyhow::Result<T>,
    keys: &str,
    anchor: &str,
    own: &str,
) -> anyhow::Result<Keyed<T>> {
    let keyed = both(party_of(alloc, anchor, own), keys_of(alloc, keys));
    let (value, (party, keys)) = both(value, keyed)?;
    Ok(Keyed { value, party, keys })
}

/// The realm R with this skew and lifetime, these certificates, and the accounts of client and service, as it is after the change.
fn realm_by(
    alloc: Global,
    parties: Parties<'_>,
    limits: (u64, u64),
    anchor: &str,
    own: &str,
) -> anyhow::Result<Realm> {
    let settings = settings_of(alloc, limits, anchor, own)?;
    let mut realm = realm_with(alloc, settings, 0)?;
    let changed = add_and_change(alloc, &mut realm, parties);
    if_passed(realm, changed)
}

fn add_and_change(alloc: Global, realm: &mut Realm, parties: Parties<'_>) -> anyhow::Result<()> {
    // The client's words begin with its suite.
    let mut words = Row::new(parties.client, " ");
    let suite = suite_of(&mut words);
    add_account(alloc, realm, "a", suite, Secret::Password)?;
    add_service(alloc, realm, parties.service)?;
    change(alloc, realm, parties.change)
}

fn add_service(alloc: Global, realm: &mut Realm, words: ServiceWords<'_>) -> anyhow::Result<()> {
    let key = octets_of(alloc, words.key)?;
    let name = components_of(alloc, "h")?;
    let added = realm.add_account_by_key(alloc, &name, words.suite, &key);
    Ok(added?)
}

/// Removes an account, or changes its key: `-` for neither, a name, or name, suite and key.
fn change(alloc: Global, realm: &mut Realm, words: &str) -> anyhow::Result<()> {
    if words == "-" {
        return Ok(());
    }
    match words.split_once(' ') {
        Some((name, words)) => rekey(alloc, realm, name, words),
        None => remove(alloc, realm, words),
    }
}

fn remove(alloc: Global, realm: &mut Realm, name: &str) -> anyhow::Result<()> {
    let name = components_of(alloc, name)?;
    let removed = realm.remove_account(&name);
    Ok(removed?)
}

fn rekey(alloc: Global, realm: &mut Realm, name: &str, words: &str) -> anyhow::Result<()> {
    let mut words = Row::new(words, " ");
    let suite = suite_of(&mut words);
    let key = words.octets(alloc);
    words.ended()?;
    let name = components_of(alloc, name)?;
    let changed = realm.change_key(&name, suite, &key);
    Ok(changed?)
}

/// The service of these words: suite, key, its kvno and the skew.
fn service_words(words: &str) -> anyhow::Result<ServiceWords<'_>> {
    let mut words = Row::new(words, " ");
    let service = ServiceWords {
        suite: suite_of(&mut words),
        key: words.word(),
        kvno: words.number::<u32>(),
        skew: words.number::<u64>(),
    };
    words.ended()?;
    Ok(service)
}

/// The service `h` of these words.
fn service_of(alloc: Global, words: ServiceWords<'_>) -> anyhow::Result<Service> {
    let key = octets_of(alloc, words.key)?;
    let name = components_of(alloc, "h")?;
    let service = Service::new(
        alloc,
        b"R",
        &name,
        words.suite,
        &key,
        words.kvno,
        words.skew,
    );
    Ok(service?)
}

/// The times of these words: six moments between commas, till, and by how much each random byte is more than the one before it.
fn times_of(count: u64, words: &str) -> anyhow::Result<Times> {
    let mut words = Row::new(words, " ");
    let (moments, till) = (words.word(), words.word());
    let random = Random {
        first: 0,
        step: words.number::<u8>(),
    }
    .bytes();
    words.ended()?;
    Ok(Times {
        count,
        moments: moments_of(moments)?,
        till: second_of(till)?,
        random,
    })
}

fn moments_of(words: &str) -> anyhow::Result<LoginMoments> {
    let mut words = Row::new(words, ",");
    let mut moments = [start()?; 6];
    for moment in &mut moments {
        *moment = moment_of(words.word())?;
    }
    words.ended()?;
    let [
        client_as,
        realm_as,
        client_tgs,
        realm_tgs,
        client_ap,
        service_ap,
    ] = moments;
    Ok(LoginMoments {
        client_as,
        realm_as,
        client_tgs,
        realm_tgs,
        client_ap,
        service_ap,
    })
}
