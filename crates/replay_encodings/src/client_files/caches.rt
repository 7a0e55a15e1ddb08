//! Credential caches of MIT's and Heimdal's `kinit`, damaged copies of them, and files of an independent writer. What each is read as is
//! compared with what an independent reader says, and what is written again with the octets that were read. `data/caches.py` says what
//! the rows are.

mod reversed;
mod texts;

use krb_file_formats::{CacheFault, CredentialCache};
pub(crate) use reversed::write_reversed;
use std::alloc::Global;
use std::fs;
use test_support::rows::replay;
use test_support::{Row, Rows, Told};
use texts::put_cache;

#[derive(Clone, Copy)]
struct Caches;

/// Replays the rows on credential caches.
pub(crate) fn replay_caches(rt: &HostRuntime) -> anyhow::Result<()> {
    replay(rt, &mut Caches, "caches.txt")
}

impl Rows for Caches {
    const COLUMNS: &'static str = "|";

    /// A row has a file, the place and the octets that are changed in it, how many octets are left of it, and what they are read as.
    fn agrees(&mut self, rt: &HostRuntime, row: &mut Row<'_>) -> anyhow::Result<bool> {
        let alloc = rt.alloc();
        let whole = whole_file(rt, row.word())?;
        let place = row.number::<usize>();
        let changed = row.octets(alloc);
        let size = row.number::<usize>();
        let octets = changed_file(alloc, &whole, place, &changed, size)?;
        is_read(alloc, &octets, row.word())
    }
}

/// Returns the octets of a file, or none where it has no name.
fn whole_file(rt: &HostRuntime, name: &str) -> anyhow::Result<Vec<u8>> {
    if name.is_empty() {
        return Ok(Vec::new(rt.alloc()));
    }
    Ok(fs::read(rt, name)?)
}

/// Returns so many octets of a file, with other octets from a place on.
fn changed_file(
    alloc: Global,
    whole: &[u8],
    place: usize,
    changed: &[u8],
    size: usize,
) -> anyhow::Result<Vec<u8>> {
    let mut octets = Vec::new(alloc);
    octets.extend_from_slice(whole.get(..place).unwrap_or(&[]))?;
    octets.extend_from_slice(changed)?;
    let end = place.saturating_add(changed.len());
    octets.extend_from_slice(whole.get(end..).unwrap_or(&[]))?;
    octets.truncate(size);
    Ok(octets)
}

/// Returns whether octets are read as this text, and a cache that is read is written as they are.
fn is_read(alloc: Global, octets: &[u8], expected: &str) -> anyhow::Result<bool> {
    match CredentialCache::from_bytes(alloc, octets) {
        Ok(cache) => is_cache(alloc, &cache, octets, expected),
        Err(fault) => is_fault(alloc, fault, expected),
    }
}

/// Returns whether a fault has this text.
fn is_fault(alloc: Global, fault: CacheFault, expected: &str) -> anyhow::Result<bool> {
    let text = format!(in alloc; "{fault}")?;
    Ok(text.as_str() == expected)
}

/// Returns whether a cache has this text, and is written as these octets.
fn is_cache(
    alloc: Global,
    cache: &CredentialCache,
    octets: &[u8],
    expected: &str,
) -> anyhow::Result<bool> {
    let mut text = Told::new(alloc);
    put_cache(&mut text, cache);
    let written = cache.to_bytes(alloc)?;
    Ok(text.text()? == expected && written.as_slice() == octets)
}
