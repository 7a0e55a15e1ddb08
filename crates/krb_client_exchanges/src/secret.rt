//! What a client and its KDC share: a password, or the keys of a keytab.
ghost use Rattle.std.specs.Prelude.{◌≡◌, length, None, IfOk, IfSome};
ghost use Rattle.decision_tables.specs.Tables.{done};
ghost use Rattle.krb_crypto.specs.Suites.{cipher_key_size};
ghost use Rattle.krb_client_exchanges.specs.HintedClients.{client_by_hint};
ghost use Rattle.krb_client_exchanges.specs.Refusals.{IsMemoryAside};
ghost use Rattle.krb_client_exchanges.specs.Courses.{Judges};
ghost use Rattle.krb_client_exchanges.specs.Taking.{judged_made, not_made};
ghost use Rattle.krb_client_exchanges.specs.SharedKeys.{is_key_of, is_newer, is_no_older, keyed_by, keyed_by_keytab, keyed_by_password, newest_after, newest_key, keytab_suites};
ghost use Rattle.std.specs.Option.{option_copied};

use crate::fault::{ExchangeFault, LoginRefusal};
use crate::names::{client_with, name_of};
use crate::{HintedClientRefusal, KeyHint, Wanted, client_by_hint};
use krb_client::{ByKey, Client};
use krb_crypto::{CipherSuite, Key};
use krb_file_formats::KeytabRecord;
use krb_messages::{is_same_name, is_same_realm};
use std::alloc::{AllocError, Global};

/// What a client shares with its KDC.
#[derive(Clone, Copy)]
pub(crate) enum Secret<'a> {
    /// A password, with the suites and salts under which the client makes a key of it.
    Password(Wanted<'a>, &'a [u8]),
    /// The records of a keytab, those of others too.
    Keytab(&'a [KeytabRecord]),
}

/// The client of the hint's suite, and its key.
pub(crate) fn keyed_by<F>(
    alloc: Global,
    client: &Client,
    secret: Secret<'_>,
    hint: &KeyHint,
) -> Result<(Client, ByKey), ExchangeFault<F>>
    ensures { Judges (λ refusal. refusal) (done (keyed_by client.now secret.entry hint.now)) result }
{
    match secret {
        Secret::Password(wanted, password) => {
            keyed_by_password(alloc, client, wanted, password, hint)
        }
        Secret::Keytab(records) => keyed_by_keytab(alloc, client, records, hint),
    }
}

fn keyed_by_password<F>(
    alloc: Global,
    client: &Client,
    wanted: Wanted<'_>,
    password: &[u8],
    hint: &KeyHint,
) -> Result<(Client, ByKey), ExchangeFault<F>>
    ensures { Judges (λ refusal. refusal) (done (keyed_by_password client.now wanted.entry password.now hint.now)) result }
{
    judged_made(
        hint.suite,
        hinted_client(alloc, client, wanted, password, hint),
    )
}

// The client of the hint's suite with the key of its password.
fn hinted_client(
    alloc: Global,
    client: &Client,
    wanted: Wanted<'_>,
    password: &[u8],
    hint: &KeyHint,
) -> Result<(Client, ByKey), HintedClientRefusal>
    ensures { IsMemoryAside result (client_by_hint wanted.entry client.now.realm client.now.components password.now hint.now) }
{
    let name = name_of(alloc, client)?;
    let realm = client.realm().as_bytes();
    client_by_hint(alloc, wanted, realm, &name, password, hint)
}

// The client and its key, or why the login ends.
fn judged_made<F>(
    suite: CipherSuite,
    made: Result<(Client, ByKey), HintedClientRefusal>,
) -> Result<(Client, ByKey), ExchangeFault<F>>
    ensures { result ≡ judged_made suite made }
{
    match made {
        Ok(own) => Ok(own),
        Err(refusal) => Err(not_made(suite, refusal)),
    }
}

fn not_made<F>(suite: CipherSuite, refusal: HintedClientRefusal) -> ExchangeFault<F>
    ensures { result ≡ not_made suite refusal }
{
    match refusal {
        HintedClientRefusal::Memory => ExchangeFault::Memory,
        refusal => ExchangeFault::Refused(LoginRefusal::NotMade(suite, refusal)),
    }
}

fn keyed_by_keytab<F>(
    alloc: Global,
    client: &Client,
    keytab: &[KeytabRecord],
    hint: &KeyHint,
) -> Result<(Client, ByKey), ExchangeFault<F>>
    ensures { Judges (λ refusal. refusal) (done (keyed_by_keytab client.now keytab.now hint.now)) result }
{
    let Some(key) = newest_key(client, hint.suite, keytab) else {
        return Err(ExchangeFault::Refused(LoginRefusal::NoKey));
    };
    let own = client_with(alloc, client, hint.suite)?;
    Ok((own, ByKey { key }))
}

/// Those of the wanted suites of which the keytab has a key of the client, in their order: what the requests of a login by keytab list.
pub fn keytab_suites(
    alloc: Global,
    client: &Client,
    wanted: Wanted<'_>,
    keytab: &[KeytabRecord],
) -> Result<Vec<CipherSuite>, AllocError>
    ensures { IfOk result (λ suites. suites.items ≡ keytab_suites client.now wanted.entry keytab.now) }
{
    let mut suites = Vec::new(alloc);
    for suite in wanted.suites() {
        if newest_key(client, *suite, keytab).is_some() {
            suites.push(*suite)?;
        }
    }
    Ok(suites)
}

// The client's key of a suite with the greatest kvno: of several such the last one.
fn newest_key(client: &Client, suite: CipherSuite, keytab: &[KeytabRecord]) -> Option<Key>
    ensures { result ≡ newest_key client.now suite keytab.now }
{
    let record = newest_record(client, suite, keytab)?;
    Key::new(suite, record.key_octets()).ok()
}

fn newest_record<'a>(
    client: &Client,
    suite: CipherSuite,
    keytab: &'a [KeytabRecord],
) -> Option<&'a KeytabRecord>
    ensures newest { option_copied result ≡ newest_after client.now suite None keytab.now }
    ensures sized { IfSome (option_copied result) (λ entry. length entry.key ≡ cipher_key_size suite) }
{
    let mut newest = None;
    for record in keytab {
        if is_newer(client, suite, newest, record) {
            newest = Some(record);
        }
    }
    newest
}

// Whether a record is a key of the client of the suite, and no older than the newest one before it.
fn is_newer(
    client: &Client,
    suite: CipherSuite,
    newest: Option<&KeytabRecord>,
    candidate: &KeytabRecord,
) -> bool
    ensures { result ≡ is_newer client.now suite (option_copied newest.entry) candidate.now }
{
    is_key_of(client, suite, candidate) && is_no_older(newest, candidate)
}

fn is_no_older(newest: Option<&KeytabRecord>, candidate: &KeytabRecord) -> bool
    ensures { result ≡ is_no_older (option_copied newest.entry) candidate.now }
{
    match newest {
        Some(other) => other.kvno() <= candidate.kvno(),
        None => true,
    }
}

// Whether a record is a key of the client of the suite.
fn is_key_of(client: &Client, suite: CipherSuite, candidate: &KeytabRecord) -> bool
    ensures { result ≡ is_key_of client.now suite candidate.now }
{
    is_same_realm(candidate.realm(), client.realm())
        && is_same_name(candidate.components(), client.components())
        && candidate.etype() == u16::from(u8::from(suite))
        && candidate.key_octets().len() == suite.key_size()
}
