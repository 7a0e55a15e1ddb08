//! A realm: its settings, its commands, and what it answers.

use crate::certificates;
use crate::stage::Stage;
use crate::told::{done, refused};
use crate::words::{given, suite_of};
use anyhow::{Context, bail};
use krb_crypto::Key;
use krb_realm::{
    Anchor, CipherSuite, KeyFunctions, NoKeys, Realm, RealmRefusal, Settings, serve_bytes,
    words_needed,
};
use krb_realm_accounts::{Account, Accounts};
use std::alloc::Global;
use test_support::{Row, Told, components_of};

const AES256: CipherSuite = CipherSuite::Aes256CtsHmacSha196;

pub(crate) fn tell_step(
    stage: &mut Stage,
    alloc: Global,
    step: &str,
    words: &mut Row<'_>,
    told: &mut Told,
) -> anyhow::Result<()> {
    match step {
        "settings" => settings(alloc, words, told),
        "reply" => told.octets(&stage.reply),
        "words_needed" => told.show(&words_needed()),
        "realm" => return realm(stage, alloc, words, told),
        "add_by_key" => return add_by_key(stage, alloc, words, told),
        "add_by_password" => return add_by_password(stage, alloc, words, told),
        "remove" => return remove(stage, alloc, words, told),
        "change_key" => return change_key(stage, alloc, words, told),
        "answer" => return answer(stage, alloc, &NoKeys, told),
        "serve" => return serve(stage, alloc, told),
        "cut_reply" => return cut_reply(stage, alloc),
        "spend_number" => return spend_number(alloc, words, told),
        _ => return certificates::tell_step(stage, alloc, step, words, told),
    }
    Ok(())
}

/// Makes settings of this skew, lifetime and certificate.
fn settings(alloc: Global, words: &mut Row<'_>, told: &mut Told) {
    let skew = words.number::<u64>();
    let lifetime = words.number::<u64>();
    let certificate = words.octets(alloc);
    match Settings::new(alloc, skew, lifetime, None, given(&certificate)) {
        Ok(_) => told.put("ok"),
        Err(refusal) => refused(told, &refusal),
    }
}

/// Makes a realm without accounts beside its own, with 300 seconds of skew and 36,000 of lifetime. Its name is given in
/// hexadecimal, and so are its key and the certificates of its anchor and its own, if it has them.
fn realm(
    stage: &mut Stage,
    alloc: Global,
    words: &mut Row<'_>,
    told: &mut Told,
) -> anyhow::Result<()> {
    let name = words.octets(alloc);
    let key = words.octets(alloc);
    let anchor = words.further_octets(alloc);
    let own = words.further_octets(alloc);
    let anchor = anchor_of(alloc, given(&anchor))?;
    match make_realm(alloc, &name, &key, anchor, given(&own)) {
        Ok(realm) => {
            drop(stage.realm.replace(realm));
            told.put("ok");
        }
        Err(refusal) => refused(told, &refusal),
    }
    Ok(())
}

fn anchor_of(alloc: Global, certificate: Option<&[u8]>) -> anyhow::Result<Option<Anchor>> {
    match certificate {
        Some(certificate) => Ok(Some(Anchor::from_certificate(alloc, certificate)?)),
        None => Ok(None),
    }
}

fn make_realm(
    alloc: Global,
    name: &[u8],
    key: &[u8],
    anchor: Option<Anchor>,
    own: Option<&[u8]>,
) -> Result<Realm, RealmRefusal> {
    let settings = Settings::new(alloc, 300, 36_000, anchor, own)?;
    Realm::new(alloc, name, AES256, key, settings)
}

fn add_by_key(
    stage: &mut Stage,
    alloc: Global,
    words: &mut Row<'_>,
    told: &mut Told,
) -> anyhow::Result<()> {
    let realm = stage.realm_mut()?;
    let name = words.name(alloc);
    let suite = suite_of(words);
    let key = words.octets(alloc);
    done(told, realm.add_account_by_key(alloc, &name, suite, &key));
    Ok(())
}

fn add_by_password(
    stage: &mut Stage,
    alloc: Global,
    words: &mut Row<'_>,
    told: &mut Told,
) -> anyhow::Result<()> {
    let realm = stage.realm_mut()?;
    let name = words.name(alloc);
    let suite = suite_of(words);
    let password = words.word().as_bytes();
    done(
        told,
        realm.add_account_by_password(alloc, &name, suite, password),
    );
    Ok(())
}

fn remove(
    stage: &mut Stage,
    alloc: Global,
    words: &mut Row<'_>,
    told: &mut Told,
) -> anyhow::Result<()> {
    let realm = stage.realm_mut()?;
    let name = words.name(alloc);
    done(told, realm.remove_account(&name));
    Ok(())
}

fn change_key(
    stage: &mut Stage,
    alloc: Global,
    words: &mut Row<'_>,
    told: &mut Told,
) -> anyhow::Result<()> {
    let realm = stage.realm_mut()?;
    let name = words.name(alloc);
    let suite = suite_of(words);
    let key = words.octets(alloc);
    done(told, realm.change_key(&name, suite, &key));
    Ok(())
}

/// Changes the key of an account whose key has this kvno.
fn spend_number(alloc: Global, words: &mut Row<'_>, told: &mut Told) -> anyhow::Result<()> {
    let number = words.number::<u32>();
    let name = components_of(alloc, "x")?;
    let mut accounts = Accounts::new(alloc);
    add_of_number(alloc, &mut accounts, &name, number)?;
    done(told, accounts.change_key(&name, AES256, &[2; 32]));
    Ok(())
}

fn add_of_number(
    alloc: Global,
    accounts: &mut Accounts,
    name: &[Vec<u8>],
    number: u32,
) -> anyhow::Result<()> {
    if number == 0 {
        bail!("numbers count from 1");
    }
    let name = krb_realm_accounts::components_of(alloc, name)?;
    let key = Key::new(AES256, &[1; 32])?;
    accounts.insert_new(name, Account::new(key, number, None))?;
    Ok(())
}

/// Answers the last request, and keeps the reply.
pub(crate) fn answer<K: KeyFunctions>(
    stage: &mut Stage,
    alloc: Global,
    keys: &K,
    told: &mut Told,
) -> anyhow::Result<()> {
    let at = stage.conditions;
    match stage
        .realm()?
        .answer(alloc, &stage.request, at.moment, &at.random.bytes(), keys)
    {
        Ok(reply) => {
            told.octets(&reply);
            stage.reply = reply;
        }
        Err(refusal) => refused(told, &refusal),
    }
    Ok(())
}

/// Serves the stream at the moment. Writes how it ends, and what is written to the stream.
fn serve(stage: &Stage, alloc: Global, told: &mut Told) -> anyhow::Result<()> {
    let at = stage.conditions;
    let words = at.random.bytes();
    let realm = stage.realm()?;
    let mut written = Vec::new(alloc);
    let end = serve_bytes(
        alloc,
        realm,
        &stage.request,
        &[at.moment],
        &words,
        &mut written,
        &NoKeys,
    );
    told.debug(&end);
    told.put(" ");
    told.octets(&written);
    Ok(())
}

/// Takes the first byte of the reply away.
fn cut_reply(stage: &mut Stage, alloc: Global) -> anyhow::Result<()> {
    let (_, rest) = stage.reply.split_first().context("no reply")?;
    stage.reply = Vec::from_slice(alloc, rest)?;
    Ok(())
}
