//! The command `keytab`.

use crate::accounts::refusal_of;
use crate::arguments::{expected, name_of};
use crate::texts::finish;
use krb_account_texts::{AccountLine, EditRefusal, Line};
use krb_commands::{FileKind, Stop, account_among, begin, keytab_in, lines_of, realm_of, refused};
use krb_constants::types::NT_PRINCIPAL;
use krb_crypto::Key;
use krb_file_formats::{Keytab, KeytabRecord, KeytabWriteFault};
use krb_messages::is_same_name;
use picky_asn1::wrapper::GeneralStringAsn1;
use std::alloc::{AllocError, Global};
use std::time::{SystemTime, UNIX_EPOCH};

/// `keytab TEXT KEYTAB NAME..`: writes all keys of these accounts to a keytab, those before their own too. What the keytab has already is
/// kept, but for keys of the same name, kvno and etype.
pub(crate) fn keytab(rt: &HostRuntime, arguments: &[String]) -> Result<(), Stop> {
    let [path, keytab, _, ..] = arguments else {
        return Err(expected(rt.alloc(), "keytab TEXT KEYTAB NAME.."));
    };
    let new_file = begin(rt, keytab.as_str(), FileKind::Keytab, &[path.as_str()])?;
    let old = if new_file.is_first() {
        None
    } else {
        Some(keytab.as_str())
    };
    let octets = written(rt, path.as_str(), keytab.as_str(), old, &arguments[2..]);
    finish(rt, new_file, octets)
}

// The octets of the keytab, with the records of the old one, if there is one.
fn written(
    rt: &HostRuntime,
    path: &str,
    keytab: &str,
    old: Option<&str>,
    names: &[String],
) -> Result<Vec<u8>, Stop> {
    let lines = lines_of(rt, path)?;
    let records = records_of(rt, path, old, &lines, names);
    drop(lines);
    keytab_of(rt.alloc(), keytab, records?)
}

// The records of the old keytab, with those of the accounts of these names.
fn records_of(
    rt: &HostRuntime,
    path: &str,
    old: Option<&str>,
    lines: &[Line],
    names: &[String],
) -> Result<Vec<KeytabRecord>, Stop> {
    let realm = realm_of(rt, path, lines)?;
    let mut records = kept(rt, old)?;
    for name in names {
        put_records(rt, &mut records, &realm.name, lines, name.as_str())?;
    }
    Ok(records)
}

// The octets of the keytab of these records.
fn keytab_of(alloc: Global, keytab: &str, records: Vec<KeytabRecord>) -> Result<Vec<u8>, Stop> {
    match Keytab::new(records).to_bytes(alloc) {
        Ok(octets) => Ok(octets),
        Err(KeytabWriteFault::Memory) => Err(Stop::Memory),
        Err(fault) => Err(refused(alloc, format_args!("{keytab}: {fault}"))),
    }
}

// The records of the old keytab, if there is one.
fn kept(rt: &HostRuntime, old: Option<&str>) -> Result<Vec<KeytabRecord>, Stop> {
    let Some(path) = old else {
        return Ok(Vec::new(rt.alloc()));
    };
    let keytab = keytab_in(rt, path)?;
    Ok(keytab.into_records())
}

// Puts the keys of the account of a name at the end, the oldest first.
fn put_records(
    rt: &HostRuntime,
    records: &mut Vec<KeytabRecord>,
    realm: &GeneralStringAsn1,
    lines: &[Line],
    name: &str,
) -> Result<(), Stop> {
    let own = account_named(rt.alloc(), lines, name)?;
    for older in own.account.former().iter().rev() {
        put_record(rt, records, realm, own, older.kvno(), older.key())?;
    }
    put_record(
        rt,
        records,
        realm,
        own,
        own.account.kvno(),
        own.account.key(),
    )
}

// Puts a key of an account at the end, in place of one of the same kvno and etype.
fn put_record(
    rt: &HostRuntime,
    records: &mut Vec<KeytabRecord>,
    realm: &GeneralStringAsn1,
    own: &AccountLine,
    kvno: u32,
    key: &Key,
) -> Result<(), Stop> {
    let record = record_of(rt, realm, own, kvno, key)?;
    records.retain(|other| !is_same_key(other, &record));
    records.push(record)?;
    Ok(())
}

// The account of the name that an argument writes.
fn account_named<'a>(
    alloc: Global,
    lines: &'a [Line],
    name: &str,
) -> Result<&'a AccountLine, Stop> {
    let principal = name_of(alloc, name)?;
    match account_among(lines, principal.name_string.0.as_slice()) {
        Some(own) => Ok(own),
        None => Err(refusal_of(alloc, &principal, EditRefusal::Unknown)),
    }
}

fn record_of(
    rt: &HostRuntime,
    realm: &GeneralStringAsn1,
    own: &AccountLine,
    kvno: u32,
    key: &Key,
) -> Result<KeytabRecord, AllocError> {
    let alloc = rt.alloc();
    Ok(KeytabRecord::new(
        realm.clone()?,
        copy_of(alloc, own.name.name_string.0.as_slice())?,
        u32::from(NT_PRINCIPAL),
        seconds_now(rt),
        kvno,
        u16::from(u8::from(key.suite())),
        Vec::from_slice(alloc, key.as_bytes())?,
    ))
}

fn is_same_key(record: &KeytabRecord, other: &KeytabRecord) -> bool {
    record.kvno() == other.kvno()
        && record.etype() == other.etype()
        && record.realm() == other.realm()
        && is_same_name(record.components(), other.components())
}

// The seconds since the start of 1970, or 0 where the clock says none of 32 bits.
fn seconds_now(rt: &HostRuntime) -> u32 {
    let Ok(time) = SystemTime::now(rt) else {
        return 0;
    };
    let Ok(elapsed) = time.duration_since(UNIX_EPOCH) else {
        return 0;
    };
    u32::try_from(elapsed.as_secs()).unwrap_or(0)
}

// A copy of the components of a name.
fn copy_of(
    alloc: Global,
    name: &[GeneralStringAsn1],
) -> Result<Vec<GeneralStringAsn1>, AllocError> {
    let mut components = Vec::new(alloc);
    for component in name {
        components.push(component.clone()?)?;
    }
    Ok(components)
}
