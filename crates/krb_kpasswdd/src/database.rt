//! The database of a text.

use cdb::{Record, WriteFault};
use krb_account_texts::{AccountLine, Line, RealmLine};
use krb_commands::{Stop, refused};
use krb_realm_files::{RealmParameters, record_of_account, write_records};
use std::alloc::Global;

/// The octets of the database of the lines of a text: its realm, and the accounts that aren't disabled.
pub(crate) fn database_of(alloc: Global, path: &str, lines: Vec<Line>) -> Result<Vec<u8>, Stop> {
    let mut records = Vec::new(alloc);
    let mut realm = None;
    for line in lines {
        match line {
            Line::Comment(_text) => {}
            Line::Realm(own) => realm = Some(own),
            Line::Account(own) => put_record(alloc, path, &own, &mut records)?,
        }
    }
    let Some(realm) = realm else {
        return Err(refused(alloc, format_args!("{path}: expected the line of a realm")));
    };
    match write_records(alloc, &parameters_of(realm), records) {
        Ok(octets) => Ok(octets),
        Err(fault) => Err(unwritten(alloc, path, fault)),
    }
}

fn put_record(
    alloc: Global,
    path: &str,
    own: &AccountLine,
    records: &mut Vec<Record>,
) -> Result<(), Stop> {
    if own.is_disabled {
        return Ok(());
    }
    match record_of_account(alloc, own.name.name_string.0.as_slice(), &own.account) {
        Ok(record) => {
            records.push(record)?;
            Ok(())
        }
        Err(fault) => Err(unwritten(alloc, path, fault)),
    }
}

fn parameters_of(realm: RealmLine) -> RealmParameters {
    RealmParameters {
        name: realm.name,
        settings: realm.settings,
        pkinit: realm.pkinit,
    }
}

// The stop where no database is made of a text.
fn unwritten(alloc: Global, path: &str, fault: WriteFault) -> Stop {
    match fault {
        WriteFault::Memory => Stop::Memory,
        WriteFault::Large | WriteFault::Unsound => refused(
            alloc,
            format_args!("{path}: expected a text of which krb_accounts makes a database"),
        ),
    }
}
