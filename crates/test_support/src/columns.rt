//! Lines of recorded messages.
use anyhow::bail;
use std::alloc::Global;

/// A recorded message, and what is expected of it.
#[derive(Drop)]
pub struct Recorded<'a> {
    /// The name of its type.
    pub type_name: &'a str,
    /// Its bytes.
    pub bytes: Vec<u8>,
    /// What is expected.
    pub wanted: Wanted,
}

/// What is expected of a message.
#[derive(Drop)]
pub enum Wanted {
    /// The message is read, and written back as it was.
    Itself,
    /// The message is read, and written as these bytes.
    Other(Vec<u8>),
    /// The message is read as a value that holds these octets, of which some may be missing.
    Held(Vec<Option<Vec<u8>>>),
    /// The message is refused.
    Refused,
}

/// Reads a line: type, bytes, and perhaps `refused`, `written` with other bytes, or `holds` with parts.
pub fn recorded_of(alloc: Global, line: &str) -> anyhow::Result<Recorded<'_>> {
    let mut columns = line.split('|');
    let (Some(type_name), Some(bytes)) = (columns.next(), columns.next()) else {
        bail!("a line of fewer than two columns");
    };
    let wanted = match columns.next() {
        None => Wanted::Itself,
        Some(told) => wanted_of(alloc, told.trim())?,
    };
    Ok(Recorded {
        type_name: type_name.trim(),
        bytes: hex::decode(alloc, bytes.trim())?,
        wanted,
    })
}

fn wanted_of(alloc: Global, told: &str) -> anyhow::Result<Wanted> {
    if told == "refused" {
        return Ok(Wanted::Refused);
    }
    if let Some(bytes) = told.strip_prefix("written ") {
        return Ok(Wanted::Other(hex::decode(alloc, bytes)?));
    }
    let Some(parts) = told.strip_prefix("holds ") else {
        bail!("no column {told}");
    };
    Ok(Wanted::Held(parts_of(alloc, parts)?))
}

/// Octets separated by spaces; `-` represents what is missing.
fn parts_of(alloc: Global, text: &str) -> anyhow::Result<Vec<Option<Vec<u8>>>> {
    let mut parts = Vec::new(alloc);
    for part in text.split(' ') {
        let octets = match part {
            "-" => None,
            digits => Some(hex::decode(alloc, digits)?),
        };
        parts.push(octets)?;
    }
    Ok(parts)
}
