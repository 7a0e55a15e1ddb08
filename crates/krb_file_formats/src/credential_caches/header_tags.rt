//! Tags of the header.
ghost use Rattle.krb_file_formats.specs.Caches.{header, header_tag};
ghost use Rattle.krb_file_formats.specs.Formats.{Gives, Writes};

use crate::credential_caches::fault::{CacheFault, CacheWriteFault, Found};
use crate::credential_caches::fields::{count16, put_number16, read_number16, read_octets};
use crate::credential_caches::items::{CacheItem, put_list, read_all};
use std::alloc::Global;
use std::marker::Model;

/// A tag of the header. Tag 1 has 8 octets: how many seconds and microseconds the KDC's clock is ahead of the host's, of 32 bits each.
#[derive(Drop)]
pub struct HeaderTag {
    pub kind: u16,
    pub octets: Vec<u8>,
}

impl Model for HeaderTag {
    ghost use Rattle.krb_file_formats.specs.Caches.{Tag};

    ghost Value = { Tag };

    ghost view = { λ t. record { kind = t.kind; octets = t.octets.items } };
}

impl CacheItem for HeaderTag {
    ghost format = { header_tag };

    fn read(alloc: Global, bytes: &[u8], place: usize) -> Found<HeaderTag> {
        let (kind, length) = read_number16(bytes, place)?;
        let (count, begin) = read_number16(bytes, length)?;
        let (octets, end) = read_octets(alloc, bytes, begin, usize::from(count))?;
        Ok((HeaderTag { kind, octets }, end))
    }

    fn put(&self, to: &mut Vec<u8>) -> Result<(), CacheWriteFault> {
        put_number16(to, self.kind)?;
        put_number16(to, count16(self.octets.len())?)?;
        to.extend_from_slice(self.octets.as_slice())?;
        Ok(())
    }
}

// Reads the header at `place`.
pub(crate) fn read_header(alloc: Global, bytes: &[u8], place: usize) -> Found<Vec<HeaderTag>>
    ensures { Gives (λ found. (found.0.items, found.1)) result (header.read place bytes.now) }
{
    let (count, begin) = read_number16(bytes, place)?;
    let size = usize::from(count);
    if bytes.len() - begin < size {
        return Err(CacheFault::PastEnd(begin));
    }
    let end = begin + size;
    let tags = read_all(alloc, &bytes[..end], begin)?;
    Ok((tags, end))
}

// Appends the header.
pub(crate) fn put_header(
    alloc: Global,
    to: &mut Vec<u8>,
    tags: &[HeaderTag],
) -> Result<(), CacheWriteFault>
    ensures { Writes header tags.now result to.old.items to.new.items }
{
    let mut body = Vec::new(alloc);
    put_list(&mut body, tags)?;
    let size = count16(body.len())?;
    put_number16(to, size)?;
    to.extend_from_slice(body.as_slice())?;
    Ok(())
}
