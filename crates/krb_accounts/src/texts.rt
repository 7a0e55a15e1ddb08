//! Files that are made of a text of accounts.

use krb_account_texts::Line;
use krb_commands::{NewFile, Stop, whole_text};

/// Puts the octets into the place of the file that is made, or nothing if they were refused.
pub(crate) fn finish(
    rt: &HostRuntime,
    new_file: NewFile,
    octets: Result<Vec<u8>, Stop>,
) -> Result<(), Stop> {
    match octets {
        Ok(octets) => new_file.finish(rt, &octets),
        Err(stop) => {
            new_file.discard(rt);
            Err(stop)
        }
    }
}

/// Puts the changed lines into the place of the text that is made, or nothing if they were refused.
pub(crate) fn finish_text(
    rt: &HostRuntime,
    new_file: NewFile,
    changed: Result<Vec<Line>, Stop>,
) -> Result<(), Stop> {
    let text = match changed {
        Ok(lines) => whole_text(rt, &lines),
        Err(stop) => Err(stop),
    };
    match text {
        Ok(text) => new_file.finish(rt, text.as_bytes()),
        Err(stop) => {
            new_file.discard(rt);
            Err(stop)
        }
    }
}
