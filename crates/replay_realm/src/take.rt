//! A client, and the replies that it takes.

use crate::stage::Stage;
use crate::told::{done, name_text, refused, suite_key_text, times_text};
use crate::words::suite_of;
use anyhow::Context;
use krb_realm::{AskRefusal, Client, Credential, KeyFunctions, TakeRefusal};
use std::alloc::Global;
use test_support::{Row, Told};

/// Makes a client of this realm, name, suite and password.
pub(crate) fn client(stage: &mut Stage, alloc: Global, words: &mut Row<'_>, told: &mut Told) {
    let realm = words.text().as_bytes();
    let name = words.name(alloc);
    let suite = suite_of(words);
    let password = words.word().as_bytes();
    let made = Client::by_password(alloc, realm, &name, suite, password);
    keep_client(stage, made, told);
}

pub(crate) fn keep_client(stage: &mut Stage, made: Result<Client, AskRefusal>, told: &mut Told) {
    match made {
        Ok(client) => {
            drop(stage.client.replace(client));
            told.put("ok");
        }
        Err(refusal) => refused(told, &refusal),
    }
}

pub(crate) fn as_reply<K: KeyFunctions>(
    stage: &mut Stage,
    alloc: Global,
    keys: &K,
    told: &mut Told,
) -> anyhow::Result<()> {
    let asked = stage.asked.as_asked.as_ref().context("no AS request")?;
    let taken = stage
        .client()?
        .take_as_reply(alloc, asked, &stage.reply, keys);
    keep(stage, taken, told);
    Ok(())
}

pub(crate) fn tgs_reply(stage: &mut Stage, alloc: Global, told: &mut Told) -> anyhow::Result<()> {
    let asked = stage.asked.tgs_asked.as_ref().context("no TGS request")?;
    let taken = stage.client()?.take_tgs_reply(alloc, asked, &stage.reply);
    keep(stage, taken, told);
    Ok(())
}

/// Keeps the credential that was taken, and writes its key.
fn keep(stage: &mut Stage, taken: Result<Credential, TakeRefusal>, told: &mut Told) {
    match taken {
        Ok(credential) => {
            told.octets(credential.key().as_bytes());
            drop(stage.credential.replace(credential));
        }
        Err(refusal) => refused(told, &refusal),
    }
}

pub(crate) fn ap_reply(stage: &mut Stage, alloc: Global, told: &mut Told) -> anyhow::Result<()> {
    let taken = stage
        .client()?
        .take_ap_reply(alloc, stage.ap_asked()?, &stage.reply);
    done(told, taken);
    Ok(())
}

/// The times and flags of the credential's ticket.
pub(crate) fn credential_times(stage: &Stage, told: &mut Told) -> anyhow::Result<()> {
    let held = stage.credential()?;
    let (authtime, starttime) = (held.authtime(), held.starttime());
    times_text(
        told,
        authtime,
        starttime,
        held.endtime(),
        held.flags().as_bytes(),
    );
    Ok(())
}

/// What the credential is, and its ticket.
pub(crate) fn credential(stage: &Stage, told: &mut Told) -> anyhow::Result<()> {
    let held = stage.credential()?;
    name_text(told, held.service());
    told.put(" in ");
    told.utf8(held.realm().as_bytes());
    told.put(" key ");
    suite_key_text(told, held.suite(), held.key().as_bytes());
    ticket_text(told, held);
    Ok(())
}

fn ticket_text(told: &mut Told, credential: &Credential) {
    let ticket = &credential.ticket().0;
    told.put(" ticket for ");
    name_text(told, &ticket.sname.0);
    told.put(" in ");
    told.utf8(ticket.realm.0.as_bytes());
    told.put(" sealed by ");
    match ticket.enc_part.0.etype.0.to_i64() {
        Some(kind) => told.show(&kind),
        None => told.put("a suite of more than 64 bits"),
    }
}
