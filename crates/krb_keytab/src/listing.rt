//! The command `list`.

use crate::mit::stop_of;
use krb_commands::{PrintableName, Stop, failed, keytab_in};
use krb_crypto::CipherSuite;
use krb_file_formats::KeytabRecord;
use krb_settings::suite_name;
use krb_time::after_epoch;
use std::alloc::{AllocError, Global};

/// `list FILE`: prints the kvno, the time, the principal and the etype of each entry, and whether MIT's library reads it.
pub(crate) fn list(rt: &HostRuntime, path: &str) -> Result<(), Stop> {
    let keytab = keytab_in(rt, path)?;
    let mut text = String::new(rt.alloc());
    for record in keytab.records() {
        put_entry(rt.alloc(), &mut text, record)?;
    }
    match print!(rt; "{text}") {
        Ok(()) => Ok(()),
        Err(_) => Err(failed(rt.alloc(), "standard output can't be written")),
    }
}

fn put_entry(alloc: Global, text: &mut String, record: &KeytabRecord) -> Result<(), AllocError> {
    let kvno = record.kvno();
    let time = time_text(alloc, record.timestamp())?;
    let principal = PrintableName {
        components: record.components(),
        realm: record.realm(),
    };
    let etype = etype_text(alloc, record.etype())?;
    let stop = stop_text(alloc, record)?;
    let line = format!(in alloc; "{kvno:>4} {time} {principal} ({etype}){stop}\n")?;
    text.push_str(line.as_str())?;
    Ok(())
}

// What a line says of an entry at which MIT's library stops.
fn stop_text(alloc: Global, record: &KeytabRecord) -> Result<String, AllocError> {
    match stop_of(record.realm(), record.components(), record.key_octets()) {
        Some(part) => format!(in alloc; ": MIT's library reads no further: {part}"),
        None => Ok(String::new(alloc)),
    }
}

// The time that is so many seconds after the start of 1970, in UTC.
fn time_text(alloc: Global, seconds: u32) -> Result<String, AllocError> {
    let text = match after_epoch(u64::from(seconds), 0) {
        Some(moment) => format!(in alloc; "{}", moment.second())?,
        None => format!(in alloc; "{seconds}")?,
    };
    Ok(text)
}

// The name of an etype, or its number if no suite has it.
fn etype_text(alloc: Global, etype: u16) -> Result<String, AllocError> {
    let text = match CipherSuite::try_from(usize::from(etype)) {
        Ok(suite) => String::from_str(alloc, suite_name(suite))?,
        Err(_) => format!(in alloc; "etype {etype}")?,
    };
    Ok(text)
}
