//! Encryption, checksums, digests and keys of the suites.

use crate::row::{Vector, vector_of};
use crate::{aes, agreement, derivation, des, digests, suites};
use std::alloc::Global;
use test_support::rows::replay;
use test_support::{Row, Rows};

#[derive(Clone, Copy)]
struct Sealing;

/// Replays the files of vectors.
pub(crate) fn replay_sealing(rt: &HostRuntime) -> anyhow::Result<()> {
    for file in [
        "standards.txt",
        "sealing_aes.txt",
        "sealing_des3.txt",
        "sealing_sha2.txt",
        "agility.txt",
    ] {
        replay(rt, &mut Sealing, file)?;
    }
    Ok(())
}

impl Rows for Sealing {
    const COLUMNS: &'static str = " | ";

    const NAME: &'static str = "lines";

    fn agrees(&mut self, rt: &HostRuntime, row: &mut Row<'_>) -> anyhow::Result<bool> {
        let vector = vector_of(rt.alloc(), row)?;
        Ok(is_made(rt.alloc(), &vector))
    }
}

/// Returns whether what is made is what the row says. A row of another shape differs.
fn is_made(alloc: Global, row: &Vector<'_>) -> bool {
    match row.kind {
        "cbc" => aes::is_chained(alloc, row),
        "cts" => aes::is_stolen(alloc, row),
        "key" => suites::is_key(alloc, row),
        "seal" => suites::is_sealed(alloc, row),
        "checksum" => suites::is_checksum(alloc, row),
        "derive" => digests::is_derived(alloc, row),
        "mac" => digests::is_code(row),
        "hmac" => digests::is_fitted_code(alloc, row),
        "pbkdf2" => digests::is_password_key(alloc, row),
        "agree" => agreement::is_agreed(alloc, row),
        "kdf" => derivation::is_derived(alloc, row),
        "reply" => derivation::is_reply(alloc, row),
        "nfold" => digests::is_folded(alloc, row),
        "des3" => des::is_chained(alloc, row),
        "des3-seed" => des::is_seeded(alloc, row),
        "des3-derive" => des::is_derived(alloc, row),
        _ => false,
    }
}

/// Returns whether these bytes were made.
pub(crate) fn is<E: Drop>(made: Result<Vec<u8>, E>, expected: &[u8]) -> bool {
    match made {
        Ok(bytes) => bytes.as_slice() == expected,
        Err(_) => false,
    }
}
