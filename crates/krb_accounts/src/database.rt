//! The commands `make`, `warnings` and `check`.

use crate::arguments::expected;
use crate::records::{RealmRecords, records_in, unwritten};
use crate::texts::finish;
use crate::warner::Warner;
use crate::warnings::Stream;
use cdb::{FileAt, Record, answers_as, find};
use krb_commands::{FileKind, Stop, begin, octets_of, refused};
use krb_realm_files::{REALM_KEY, RECORD_ROOM, RealmParameters, record_of_realm, write_records};
use std::alloc::Global;
use std::fs;

/// `make TEXT DATABASE`: makes the database of a text.
pub(crate) fn make(rt: &HostRuntime, arguments: &[String]) -> Result<(), Stop> {
    let [path, database] = arguments else {
        return Err(expected(rt.alloc(), "make TEXT DATABASE"));
    };
    let new_file = begin(rt, database.as_str(), FileKind::Database, &[path.as_str()])?;
    let octets = if new_file.is_first() || has_realm(rt, database.as_str()) {
        made(rt, path.as_str())
    } else {
        Err(refused(
            rt.alloc(),
            format_args!(
                "{database} is there, and has no realm: expected a database, or no such file"
            ),
        ))
    };
    finish(rt, new_file, octets)
}

// Whether a constant database has the record of a realm. Else it is one of another program.
fn has_realm(rt: &HostRuntime, path: &str) -> bool {
    match fs::open(rt, path) {
        Ok(file) => find(&FileAt { file }, &[REALM_KEY]).is_ok_and(|found| found.is_some()),
        Err(_) => false,
    }
}

// The octets of the database of a text.
fn made(rt: &HostRuntime, path: &str) -> Result<Vec<u8>, Stop> {
    let (realm, records) = warned_records(rt, path, Stream::Error)?;
    database_of(rt.alloc(), path, &realm, records)
}

// The realm of a text and the records of its accounts, of which it warns.
fn warned_records(
    rt: &HostRuntime,
    path: &str,
    stream: Stream,
) -> Result<(RealmParameters, Vec<Record>), Stop> {
    let warner = Warner::new(rt.alloc(), stream);
    let RealmRecords {
        realm,
        records,
        warner,
    } = records_in(rt, path, Some(warner))?;
    if let Some(warner) = warner {
        warner.warn_of_shared(rt, path, &records)?;
    }
    Ok((realm, records))
}

// The octets of the database of these records.
fn database_of(
    alloc: Global,
    path: &str,
    realm: &RealmParameters,
    records: Vec<Record>,
) -> Result<Vec<u8>, Stop> {
    match write_records(alloc, realm, records) {
        Ok(octets) => Ok(octets),
        Err(fault) => Err(unwritten(alloc, path, fault)),
    }
}

/// `warnings TEXT`: prints what `make` warns of.
pub(crate) fn warnings(rt: &HostRuntime, arguments: &[String]) -> Result<(), Stop> {
    let [path] = arguments else {
        return Err(expected(rt.alloc(), "warnings TEXT"));
    };
    let _ = warned_records(rt, path.as_str(), Stream::Output)?;
    Ok(())
}

/// `check TEXT DATABASE`: says whether the database answers each name as the text does, and whether its realm is the text's.
pub(crate) fn check(rt: &HostRuntime, arguments: &[String]) -> Result<(), Stop> {
    let [path, database] = arguments else {
        return Err(expected(rt.alloc(), "check TEXT DATABASE"));
    };
    let records = all_records_in(rt, path.as_str())?;
    compare(rt, path.as_str(), database.as_str(), &records)
}

// The records of the database of a text, in the order of their keys.
fn all_records_in(rt: &HostRuntime, path: &str) -> Result<Vec<Record>, Stop> {
    let RealmRecords {
        realm,
        mut records,
        warner: _,
    } = records_in(rt, path, None)?;
    match record_of_realm(rt.alloc(), &realm) {
        Ok(own) => records.push(own)?,
        Err(fault) => return Err(unwritten(rt.alloc(), path, fault)),
    }
    Ok(records)
}

fn compare(rt: &HostRuntime, path: &str, database: &str, records: &[Record]) -> Result<(), Stop> {
    let alloc = rt.alloc();
    let octets = octets_of(rt, database, FileKind::Database)?;
    let mut room = vec![in alloc; 0; RECORD_ROOM]?;
    match answers_as(&octets.as_slice(), records, &mut room) {
        Ok(true) => Ok(()),
        Ok(false) => Err(refused(
            alloc,
            format_args!("{database} does not answer as {path} does: expected what make writes"),
        )),
        Err(fault) => Err(refused(alloc, format_args!("{database}: {fault}"))),
    }
}
