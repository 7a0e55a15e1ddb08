//! Outcomes of calls, and the words that rows have for them.

use cdb::{Fault, ReadAt, Record, WriteFault, answers_as, look_up, write};
use std::alloc::Global;

/// How many octets the buffer of a look-up has, where a row doesn't say it.
pub(crate) const ROOM: usize = 512;

/// Returns the word for a fault.
fn fault_word(fault: Fault) -> &'static str {
    match fault {
        Fault::Failed(_) => "failed",
        Fault::Damaged => "damaged",
        Fault::Long => "long",
    }
}

/// Returns whether a look-up with so much room has this outcome, which may have data.
pub(crate) fn is_looked_up<F: ReadAt>(
    file: &F,
    key: &[u8],
    room: usize,
    outcome: &str,
    content: &[u8],
) -> bool {
    if key.len() > cdb::KEY_LIMIT || room > ROOM {
        return false;
    }
    let mut buffer = [0; ROOM];
    let buffer = &mut buffer[..room];
    match look_up(file, key, buffer) {
        Ok(None) => outcome == "none",
        Ok(Some(size)) => outcome == "data" && &buffer[..size] == content,
        Err(fault) => outcome == fault_word(fault),
    }
}

/// Returns whether the file is judged so against these records. The word `other` is for each outcome but true.
pub(crate) fn is_judged<F: ReadAt>(file: &F, records: &[Record], outcome: &str) -> bool {
    let mut room = [0; ROOM];
    match answers_as(file, records, &mut room) {
        Ok(true) => outcome == "true",
        Ok(false) => outcome == "false" || outcome == "other",
        Err(fault) => outcome == fault_word(fault) || outcome == "other",
    }
}

/// Returns whether the file of these records is this one, octet by octet, or is refused by this word.
pub(crate) fn is_written(alloc: Global, records: &[Record], bytes: &[u8], outcome: &str) -> bool {
    match write(alloc, records, ROOM) {
        Ok(written) => outcome == "equal" && written.as_slice() == bytes,
        Err(WriteFault::Large) => outcome == "large",
        Err(WriteFault::Unsound) => outcome == "unsound",
        Err(WriteFault::Memory) => outcome == "memory",
    }
}
