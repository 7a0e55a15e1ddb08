//! The server of the program's arguments.

use crate::keytab_file::KeytabFile;
use crate::server::{Server, Time};
use crate::service_keys::ServiceKeys;
use anyhow::{Context, bail};
use byte_streams::Watched;
use gss_acceptor::{Acceptor, AcceptorTerms};
use krb_file_formats::Keytab;
use krb_messages::{PrincipalText, principal_of_text};
use krb_service::KeytabService;
use krb_time::Moment;
use std::alloc::Global;
use std::env;
use std::fs::{self, Files};

/// The clock skew in seconds.
const SKEW: u64 = 300;

/// The server of the program's arguments: a keytab, a file of random octets, a moment and a service's name with its realm. With `subkey`
/// behind them the acceptor's subkeys protect the contexts. With `delegated` and a path what clients delegate is written there.
pub(crate) fn server_of(
    rt: &HostRuntime,
) -> anyhow::Result<Server<Watched<<HostRuntime as Files>::File>>> {
    let mut arguments = env::args(rt)?.skip(1);
    let (Some(keytab), Some(random), Some(moment), Some(service)) = (
        arguments.next(),
        arguments.next(),
        arguments.next(),
        arguments.next(),
    ) else {
        bail!("expected: a keytab, a file of random octets, a moment and a service with its realm");
    };
    let mut words = Vec::new(rt.alloc());
    for word in arguments {
        words.push(word)?;
    }
    let Further { terms, delegated } = further_of(words).context(
        "expected: subkey, delegated CACHE, both or nothing after the service",
    )?;
    let time = time_of(moment.as_str()).context("no moment: expected now or YYYYMMDDHHMMSSZ")?;
    let mut keytab = KeytabFile::new(keytab);
    let (service, keys) = service_in(rt, &mut keytab, service.as_str())?;
    let words = fs::open(rt, random.as_str())?;
    Ok(Server {
        acceptor: Acceptor::new(service, terms),
        keytab,
        keys,
        words: Watched::new(words),
        time,
        delegated,
    })
}

// What the arguments after the service say.
#[derive(Drop)]
struct Further {
    terms: AcceptorTerms,
    // The path of the credential cache of what clients delegate, if it is kept.
    delegated: Option<String>,
}

// What the words after the service say, if they are such words.
fn further_of(mut words: Vec<String>) -> Option<Further> {
    let asked = asked_by(words.as_slice());
    let path = words.pop();
    drop(words);
    match asked {
        Some((with_subkey, true)) => Some(further_by(with_subkey, path)),
        Some((with_subkey, false)) => Some(further_by(with_subkey, None)),
        None => None,
    }
}

// Whether the words ask for a subkey, and whether for a cache, whose path is then the last word.
fn asked_by(words: &[String]) -> Option<(bool, bool)> {
    match words {
        [] => Some((false, false)),
        [word] if word.as_str() == "subkey" => Some((true, false)),
        [word, _] if word.as_str() == "delegated" => Some((false, true)),
        [first, word, _] if first.as_str() == "subkey" && word.as_str() == "delegated" => {
            Some((true, true))
        }
        _ => None,
    }
}

// The sample protocol has no channel bindings.
fn further_by(with_subkey: bool, delegated: Option<String>) -> Further {
    let terms = AcceptorTerms {
        with_subkey,
        ..AcceptorTerms::PLAIN
    };
    Further { terms, delegated }
}

// The moments of this text.
fn time_of(text: &str) -> Option<Time> {
    if text == "now" {
        return Some(Time::Now);
    }
    let moment = Moment::from_text(text.as_bytes())?;
    Some(Time::Fixed(moment))
}

// The service of this name, with its keys in a keytab, and these keys.
fn service_in(
    rt: &HostRuntime,
    keytab_file: &mut KeytabFile,
    name: &str,
) -> anyhow::Result<(KeytabService, ServiceKeys)> {
    let keytab = match keytab_file.read(rt) {
        Ok(keytab) => keytab,
        Err(stop) => bail!("{stop}"),
    };
    let service = service_of(rt.alloc(), &keytab, name);
    drop(keytab);
    let path = keytab_file.path();
    match service {
        Ok(service) => Ok(service),
        Err(fault) => bail!("{path}: {name}: {fault}"),
    }
}

fn service_of(
    alloc: Global,
    keytab: &Keytab,
    name: &str,
) -> anyhow::Result<(KeytabService, ServiceKeys)> {
    let PrincipalText { components, realm } = principal_of_text(alloc, name)?;
    let realm = realm.context("expected its realm after a @")?;
    let made = KeytabService::new(alloc, &realm, &components, keytab, SKEW);
    let service = made?;
    let mut keys = ServiceKeys::new(alloc, realm, components);
    keys.replace(alloc, keytab)?;
    Ok((service, keys))
}
