//! Reads recorded messages of Kerberos, tokens of the GSS-API, credentials of CredSSP, and messages of PKINIT and PKU2U as their
//! types, compares them with what is expected, and writes them back. `pacs` reads buffers of PACs. `x509`: the same of X.509 values,
//! certificates and requests, also where a spelling deviates from DER, and their printed text.
//!
//! Then it replays rows on files. The first are what holds the accounts of a realm: databases, files of a realm with the entries of its log,
//! and texts of accounts. Then come keytabs, credential caches and hints of keys, which a client reads. It compares each outcome with that
//! of an independent reader or writer, and each reply with that of an independent implementation of RFC 4120's rules.
//!
//! With the name of a cache as its argument, it writes that cache's credentials in reverse order to standard output, in a cache without
//! header tags. `examples/cache_readers.sh` has stock programs read it.
#![tactic(auto)]

mod account_files;
mod account_texts;
mod client_files;
mod copies;
mod credentials;
mod databases;
mod file_realms;
mod names;
mod odd;
mod pacs;
mod private;
mod replies;
mod requests;
mod sealed;
mod tickets;
mod tokens;
mod x509;

use anyhow::bail;
use client_files::write_reversed;
use picky_asn1_der::Deserialize;
use std::alloc::Global;
use std::env;
use test_support::{Answer, Lines, Recorded, is_told, recorded_of, replay};

/// Messages, and what they hold.
struct Messages;

impl Lines for Messages {
    const NAME: &'static str = "messages";

    fn agrees(&self, alloc: Global, line: &str) -> anyhow::Result<bool> {
        agrees(alloc, line)
    }
}

/// Tokens and credentials.
struct TokensAndCredentials;

impl Lines for TokensAndCredentials {
    const NAME: &'static str = "tokens";

    fn agrees(&self, alloc: Global, line: &str) -> anyhow::Result<bool> {
        agrees(alloc, line)
    }
}

fn main(rt: HostRuntime) -> anyhow::Result<()> {
    match env::args(&rt)?.nth(1) {
        Some(name) => write_reversed(&rt, name.as_str()),
        None => replay_all(&rt),
    }
}

fn replay_all(rt: &HostRuntime) -> anyhow::Result<()> {
    replay_messages(rt)?;
    x509::replay_x509(rt)?;
    replay_files(rt)
}

fn replay_messages(rt: &HostRuntime) -> anyhow::Result<()> {
    for file in &["messages.txt", "clients.txt", "odd.txt"] {
        replay(rt, &Messages, file)?;
    }
    replay_tokens(rt)?;
    pacs::replay_pacs(rt)?;
    replay(rt, &Messages, "pkinit.txt")?;
    tokens::print_first(rt, "pkinit.txt")
}

fn replay_files(rt: &HostRuntime) -> anyhow::Result<()> {
    databases::replay_databases(rt)?;
    account_files::replay_account_files(rt)?;
    file_realms::replay_file_realms(rt)?;
    account_texts::replay_account_texts(rt)?;
    client_files::replay_client_files(rt)
}

fn replay_tokens(rt: &HostRuntime) -> anyhow::Result<()> {
    for file in &["tokens.txt", "published_tokens.txt", "odd_tokens.txt"] {
        replay(rt, &TokensAndCredentials, file)?;
    }
    Ok(())
}

/// Whether what a line tells of is read as expected, and written back.
fn agrees(alloc: Global, line: &str) -> anyhow::Result<bool> {
    let recorded = recorded_of(alloc, line)?;
    answered(recorded.type_name, answer_of(alloc, &recorded))
}

fn answered(type_name: &str, answer: Option<Answer>) -> anyhow::Result<bool> {
    match answer {
        Some(answer) => Ok(answer?),
        None => bail!("no type {type_name}"),
    }
}

fn answer_of(alloc: Global, recorded: &Recorded<'_>) -> Option<Answer> {
    first_of(&[
        names::agrees(alloc, recorded),
        sealed::agrees(alloc, recorded),
        tickets::agrees(alloc, recorded),
        requests::agrees(alloc, recorded),
        replies::agrees(alloc, recorded),
        private::agrees(alloc, recorded),
        credentials::agrees(alloc, recorded),
        odd::agrees(alloc, recorded),
        tokens::agrees(alloc, recorded),
    ])
}

/// The first answer that is given. Each type of messages is one call in an array of answers.
fn first_of<A: Copy>(answers: &[Option<A>]) -> Option<A> {
    for answer in answers {
        if answer.is_some() {
            return *answer;
        }
    }
    None
}

/// Whether a message is read and written as expected, if the line names this type; none for any other type.
fn told_as<T: Deserialize + Drop>(
    alloc: Global,
    recorded: &Recorded<'_>,
    type_name: &str,
) -> Option<Answer> {
    if recorded.type_name != type_name {
        return None;
    }
    Some(is_told::<T>(alloc, recorded))
}
