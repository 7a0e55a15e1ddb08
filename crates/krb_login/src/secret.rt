//! What the client has its key of: a password, or the keys of a keytab.

use crate::arguments::{KeyFile, Login};
use krb_client::Client;
use krb_client_exchanges::keytab_suites;
use krb_commands::{Stop, keytab_in, refused, unread};
use krb_crypto::CipherSuite;
use krb_file_formats::KeytabRecord;
use krb_messages::{is_same_name, is_same_realm};
use krb_programs::read_front;

/// How many octets a password may have.
const PASSWORD_LIMIT: usize = 4_096;

/// A password, or the client's records of a keytab with the wanted suites of their keys.
#[derive(Drop)]
pub(crate) enum Secret {
    Password(Vec<u8>),
    Keytab(Vec<KeytabRecord>, Vec<CipherSuite>),
}

/// The secret of a login.
pub(crate) fn secret_of(
    rt: &HostRuntime,
    login: &Login<'_>,
    file: KeyFile<'_>,
) -> Result<Secret, Stop> {
    match file {
        KeyFile::Password(path) => password_in(rt, path),
        KeyFile::Keytab(path) => records_in(rt, path, login),
    }
}

// The first line of a file.
fn password_in(rt: &HostRuntime, path: &str) -> Result<Secret, Stop> {
    let octets = front_of(rt, path)?;
    let line = first_line(&octets);
    if line.is_empty() || PASSWORD_LIMIT < line.len() {
        return Err(refused(
            rt.alloc(),
            format_args!("{path}: expected a password of 1 to 4096 octets in its first line"),
        ));
    }
    Ok(Secret::Password(Vec::from_slice(rt.alloc(), line)?))
}

// The octets of a file, of which one more than a password may have.
fn front_of(rt: &HostRuntime, path: &str) -> Result<Vec<u8>, Stop> {
    match read_front(rt, path, PASSWORD_LIMIT as u64 + 1) {
        Ok(octets) => Ok(octets),
        Err(fault) => Err(unread(rt.alloc(), path, fault)),
    }
}

// What precedes the first line feed.
fn first_line(octets: &[u8]) -> &[u8] {
    match octets.iter().position(|octet| *octet == b'\n') {
        Some(end) => &octets[..end],
        None => octets,
    }
}

// The client's records of a keytab.
fn records_in(rt: &HostRuntime, path: &str, login: &Login<'_>) -> Result<Secret, Stop> {
    let mut records = keytab_in(rt, path)?.into_records();
    let user = login.user.argument;
    records.retain(|record| is_of(&login.user.client, record));
    if records.is_empty() {
        return Err(refused(
            rt.alloc(),
            format_args!("{path}: expected a key of {user} of a known etype"),
        ));
    }
    let suites = keytab_suites(rt.alloc(), &login.user.client, login.wanted(), &records)?;
    if suites.is_empty() {
        return Err(refused(
            rt.alloc(),
            format_args!(
                "{path}: no key of {user} is of a suite that is asked for: -e SUITE asks for others, as -e des3-cbc-sha1-kd"
            ),
        ));
    }
    Ok(Secret::Keytab(records, suites))
}

// Whether a record is of the client, and its key of a known suite.
fn is_of(client: &Client, record: &KeytabRecord) -> bool {
    is_same_realm(record.realm(), client.realm())
        && is_same_name(record.components(), client.components())
        && record.cipher_key().is_some()
}

impl Secret {
    /// The suites that the first request lists.
    pub(crate) fn suites<'a>(&'a self, login: &'a Login<'_>) -> &'a [CipherSuite] {
        match self {
            Secret::Password(_) => login.wanted().suites(),
            Secret::Keytab(_, suites) => suites.as_slice(),
        }
    }
}
