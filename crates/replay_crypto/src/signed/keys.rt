//! Keys of RSA and Diffie-Hellman values, their signatures and secrets, and files of keys. `data/rsa_keys.py` and `data/key_files.py` write
//! the rows.

use crate::signed::key_rows::{KeyRow, row_of};
use crate::signed::{agreements, files, signatures};
use std::alloc::Global;

/// Whether what is made is what the line says. A line of another shape differs.
pub(crate) fn is_made(alloc: Global, line: &str) -> anyhow::Result<bool> {
    let row = row_of(alloc, line)?;
    let made = is_row_made(alloc, &row);
    drop(row);
    Ok(made == Some(true))
}

fn is_row_made(alloc: Global, row: &KeyRow<'_>) -> Option<bool> {
    match row.kind {
        "read" => agreements::is_read(alloc, row),
        "bits" => agreements::are_bits(alloc, row),
        "element" => agreements::is_element(alloc, row),
        "agree" => agreements::is_agreed(alloc, row),
        "check" => signatures::is_checked(alloc, row),
        "sign" => signatures::is_signed(alloc, row),
        "own" => signatures::is_own(alloc, row),
        "certificate" => files::is_certificate(alloc, row),
        "key" => files::is_key(alloc, row),
        _ => None,
    }
}
