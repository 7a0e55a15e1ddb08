//! Settings files.

use krb_programs::read_front;
use krb_settings::SETTINGS_LIMIT;
use std::fs::Files;
use std::io;

/// The octets of the settings file at a path. Of one that is too long, one octet more than it may have.
pub fn settings_at<F: Files + AllocGlobal>(rt: &F, path: &str) -> io::Result<Vec<u8>> {
    read_front(rt, path, SETTINGS_LIMIT as u64 + 1)
}
