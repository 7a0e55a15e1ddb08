//! A cache of our own, which stock programs read.

use krb_file_formats::CredentialCache;
use std::fs;
use std::io::Write;

/// Writes the credentials of a cache in reverse order, in a cache without header tags.
pub(crate) fn write_reversed(rt: &HostRuntime, name: &str) -> anyhow::Result<()> {
    let octets = fs::read(rt, name)?;
    let mut cache = CredentialCache::from_bytes(rt.alloc(), &octets)?;
    cache.tags.clear();
    cache.credentials.reverse();
    let written = cache.to_bytes(rt.alloc())?;
    rt.stdout().write_all(&written)?;
    Ok(())
}
