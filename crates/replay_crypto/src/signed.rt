//! Signed data (RFC 5652) and keys that others made: what is read, written and trusted. How many columns a line has says what it is of.

mod agreements;
mod files;
mod key_rows;
mod keys;
mod lines;
mod read;
mod signatures;
mod trusted;
mod written;

use lines::SignedLines;
use test_support::replay;

/// The recorded files.
const RECORDED: [&str; 7] = [
    "read.txt",
    "stock_clients.txt",
    "written.txt",
    "openssl.txt",
    "trusted.txt",
    "rsa_keys.txt",
    "key_files.txt",
];

/// Replays the recorded files.
pub(crate) fn replay_signed(rt: &HostRuntime) -> anyhow::Result<()> {
    for file in RECORDED {
        replay_file(rt, file)?;
    }
    Ok(())
}

/// Replays a file.
pub(crate) fn replay_file(rt: &HostRuntime, file: &str) -> anyhow::Result<()> {
    replay(rt, &SignedLines, file)
}
