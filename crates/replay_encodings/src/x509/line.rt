//! Lines of recorded spellings.
use anyhow::{Context, bail};
use std::alloc::Global;

/// A recorded spelling, and what is expected of it; none if it is to be refused.
#[derive(Drop)]
pub struct Recorded<'a> {
    /// The name of its type.
    pub type_name: &'a str,
    /// Its bytes.
    pub bytes: Vec<u8>,
    /// What is expected.
    pub wanted: Option<Wanted>,
}

/// What is expected of a spelling.
#[derive(Drop)]
pub struct Wanted {
    /// How many deviations are in it.
    pub count: usize,
    /// The strict spelling of its value.
    pub strict: Vec<u8>,
    signed: Option<Place>,
}

// Where the part stands that is signed.
#[derive(Clone, Copy, PartialEq, Eq)]
struct Place {
    start: usize,
    len: usize,
}

impl<'a> Recorded<'a> {
    /// Whether these are the bytes at the place of the signed part.
    pub fn has_signed(&self, part: &[u8]) -> bool {
        let Some(wanted) = &self.wanted else {
            return false;
        };
        let Some(place) = wanted.signed else {
            return false;
        };
        bytes_at(&self.bytes, place) == Some(part)
    }
}

fn bytes_at(bytes: &[u8], place: Place) -> Option<&[u8]> {
    let end = place.start.checked_add(place.len)?;
    bytes.get(place.start..end)
}

/// Reads a line: type, bytes, and the word `refused` or count, strict bytes and perhaps the place of the signed part, its start
/// and its length.
pub fn recorded_of(alloc: Global, line: &str) -> anyhow::Result<Recorded<'_>> {
    let (type_name, rest) = line.split_once(" | ").context("a line of one column")?;
    let (digits, told) = rest.split_once(" | ").context("a line of two columns")?;
    let bytes = hex::decode(alloc, digits)?;
    let wanted = wanted_of(alloc, told)?;
    Ok(Recorded {
        type_name,
        bytes,
        wanted,
    })
}

fn wanted_of(alloc: Global, told: &str) -> anyhow::Result<Option<Wanted>> {
    if told == "refused" {
        return Ok(None);
    }
    let mut columns = told.split(" | ");
    let (Some(count), Some(strict)) = (columns.next(), columns.next()) else {
        bail!("no strict spelling");
    };
    let signed = match columns.next() {
        Some(text) => Some(place_of(text)?),
        None => None,
    };
    Ok(Some(Wanted {
        count: count.parse()?,
        strict: hex::decode(alloc, strict)?,
        signed,
    }))
}

fn place_of(text: &str) -> anyhow::Result<Place> {
    let (start, len) = text.split_once(' ').context("a place of one number")?;
    Ok(Place {
        start: start.parse()?,
        len: len.parse()?,
    })
}
