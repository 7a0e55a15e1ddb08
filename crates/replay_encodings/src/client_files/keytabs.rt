//! Keytabs of MIT's and Heimdal's `ktutil`, damaged copies of them, and files of an independent writer. What each is read as is compared with
//! what an independent reader says, and what is written again with the independent writer's octets. `data/keytabs.py` says what the
//! rows are.

use krb_file_formats::{Keytab, KeytabFault, KeytabRecord};
use std::alloc::Global;
use test_support::rows::replay;
use test_support::{Row, Rows, Told};

#[derive(Clone, Copy)]
struct Keytabs;

/// Replays the rows on keytabs.
pub(crate) fn replay_keytabs(rt: &HostRuntime) -> anyhow::Result<()> {
    replay(rt, &mut Keytabs, "rows.txt")
}

impl Rows for Keytabs {
    const COLUMNS: &'static str = "|";

    fn agrees(&mut self, rt: &HostRuntime, row: &mut Row<'_>) -> anyhow::Result<bool> {
        let alloc = rt.alloc();
        let octets = row.octets(alloc);
        let expected = row.word();
        let written = row.octets(alloc);
        match Keytab::from_bytes(alloc, &octets) {
            Ok(keytab) => is_keytab(alloc, &keytab, expected, &written),
            Err(fault) => is_fault(alloc, fault, expected),
        }
    }
}

/// Returns whether a fault has this text.
fn is_fault(alloc: Global, fault: KeytabFault, expected: &str) -> anyhow::Result<bool> {
    let text = format!(in alloc; "{fault}")?;
    Ok(text.as_str() == expected)
}

/// Returns whether a keytab has this text, and is written as these octets.
fn is_keytab(
    alloc: Global,
    keytab: &Keytab,
    expected: &str,
    written: &[u8],
) -> anyhow::Result<bool> {
    let mut text = Told::new(alloc);
    for one in keytab.records() {
        put_record(&mut text, one);
    }
    let octets = keytab.to_bytes(alloc)?;
    Ok(text.text()? == expected && octets.as_slice() == written)
}

/// Writes a record: its components and its realm in hexadecimal, its numbers, its key, and whether a suite has the key.
fn put_record(text: &mut Told, one: &KeytabRecord) {
    for component in one.components() {
        text.put("/");
        text.octets(component.as_bytes());
    }
    text.put("@");
    text.octets(one.realm().as_bytes());
    put_numbers(text, one);
    text.put(" ");
    text.octets(one.key_octets());
    text.put(if one.cipher_key().is_some() {
        " known;"
    } else {
        " unknown;"
    });
}

/// Writes the numbers of a record.
fn put_numbers(text: &mut Told, one: &KeytabRecord) {
    text.put(" ");
    text.show(&one.name_type());
    text.put(" ");
    text.show(&one.timestamp());
    text.put(" ");
    text.show(&one.kvno());
    text.put(" ");
    text.show(&one.etype());
}
