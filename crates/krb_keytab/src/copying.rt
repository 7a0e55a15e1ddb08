//! The command `copy`.

use crate::choice::{Choice, choice_of};
use krb_commands::{Stop, begin_first, keytab_in, refused};
use krb_file_formats::{Keytab, KeytabRecord, KeytabWriteFault};
use std::alloc::Global;

/// `copy FROM TO [--kvno N] [--etype ETYPE] [PRINCIPAL ..]`: writes the chosen entries of a keytab to a new one, in their order.
pub(crate) fn copy(rt: &HostRuntime, from: &str, to: &str, words: &[String]) -> Result<(), Stop> {
    let choice = choice_of(rt.alloc(), words)?;
    let new_file = begin_first(rt, to, &[from])?;
    match copied(rt, from, &choice) {
        Ok(octets) => new_file.finish(rt, &octets),
        Err(stop) => {
            new_file.discard(rt);
            Err(stop)
        }
    }
}

// The octets of a keytab of the chosen entries.
fn copied(rt: &HostRuntime, from: &str, choice: &Choice<'_>) -> Result<Vec<u8>, Stop> {
    let records = chosen(rt, from, choice)?;
    octets_of_keytab(rt.alloc(), from, records)
}

// The chosen entries.
fn chosen(rt: &HostRuntime, from: &str, choice: &Choice<'_>) -> Result<Vec<KeytabRecord>, Stop> {
    let mut records = keytab_in(rt, from)?.into_records();
    records.retain(|record| choice.takes(record));
    choice.check_each(rt.alloc(), &records)?;
    if records.is_empty() {
        return Err(refused(rt.alloc(), format_args!("{from}: no entry fits: see list")));
    }
    Ok(records)
}

fn octets_of_keytab(
    alloc: Global,
    from: &str,
    records: Vec<KeytabRecord>,
) -> Result<Vec<u8>, Stop> {
    match Keytab::new(records).to_bytes(alloc) {
        Ok(octets) => Ok(octets),
        Err(KeytabWriteFault::Memory) => Err(Stop::Memory),
        Err(fault) => Err(refused(alloc, format_args!("{from}: {fault}"))),
    }
}
