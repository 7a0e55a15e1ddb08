//! Powers, keys, signatures and Diffie-Hellman agreements. `data/keys.py` and `data/primes.py` write the rows.

use crate::row::{Vector, vector_of};
use crate::{agreements, numbers, primes, signatures};
use std::alloc::Global;
use test_support::rows::replay;
use test_support::{Row, Rows};

#[derive(Clone, Copy)]
struct Keys;

/// Replays the lines on keys.
pub(crate) fn replay_keys(rt: &HostRuntime) -> anyhow::Result<()> {
    replay(rt, &mut Keys, "keys.txt")?;
    replay(rt, &mut Keys, "primes.txt")
}

impl Rows for Keys {
    const COLUMNS: &'static str = " | ";

    const NAME: &'static str = "lines";

    fn agrees(&mut self, rt: &HostRuntime, row: &mut Row<'_>) -> anyhow::Result<bool> {
        let vector = vector_of(rt.alloc(), row)?;
        Ok(is_made(rt.alloc(), &vector))
    }
}

/// Returns whether what is made is what the row says. A row of another shape differs.
fn is_made(alloc: Global, row: &Vector<'_>) -> bool {
    match row.kind {
        "power" => numbers::is_power(row),
        "modulus" => numbers::is_refused(row),
        "key" => signatures::is_refused(row),
        "sign" => signatures::is_signed(alloc, row),
        "primes" => primes::are_refused(alloc, row),
        "sign_by_primes" => primes::is_signed(alloc, row),
        "verify" => signatures::is_verified(row),
        "group" => agreements::is_group(row),
        "public" => agreements::is_public(alloc, row),
        "shared" => agreements::is_shared(alloc, row),
        _ => false,
    }
}
