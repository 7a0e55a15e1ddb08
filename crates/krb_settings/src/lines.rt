//! The lines of a settings file on which its keys stand.

use crate::scan::Scan;
use crate::{Field, Place};
use std::alloc::{AllocError, Global};
use toml_parser::{Key, ParseError, dotted_key};

/// A key of the file's own table or of an account's, and its line.
#[derive(Drop)]
pub(crate) struct KeyLine {
    pub(crate) place: Place,
    pub(crate) key: String,
    pub(crate) line: usize,
}

/// The keys of a text of TOML with their lines, in the text's order. A header represents the key that it names. The keys of an
/// inline table aren't among them.
pub(crate) fn key_lines(alloc: Global, text: &str) -> Result<Vec<KeyLine>, AllocError> {
    let mut keys = Vec::new(alloc);
    let mut scan = Scan::new();
    let mut section = Section::new();
    let mut number = 0usize;
    for line in text.strip_prefix("\u{feff}").unwrap_or(text).lines() {
        number = number.saturating_add(1);
        if scan.is_at_statement() {
            if let Some(key) = section.read(alloc, line, number)? {
                keys.push(key)?;
            }
        }
        scan = scan.after_line(line);
    }
    Ok(keys)
}

/// Where in a file its lines are: in which table, and behind how many accounts.
#[derive(Clone, Copy)]
pub(crate) struct Section {
    place: Option<Place>,
    accounts: usize,
}

impl Section {
    /// The section of a file's first line.
    pub(crate) fn new() -> Section {
        Section {
            place: Some(Place::File),
            accounts: 0,
        }
    }

    /// The key of a line that begins a statement. Blanks, comments, and lines of other tables have none.
    pub(crate) fn read(
        &mut self,
        alloc: Global,
        line: &str,
        number: usize,
    ) -> Result<Option<KeyLine>, AllocError> {
        let start = line.trim_start();
        if let Some(header) = start.strip_prefix("[") {
            return self.header(alloc, header.strip_prefix("[").unwrap_or(header), number);
        }
        let Some(place) = self.place else {
            return Ok(None);
        };
        let Some((key, _)) = key_of(alloc, start)? else {
            return Ok(None);
        };
        Ok(Some(key_line(place, key, number)))
    }

    // Enters the table of a header, and gives the key that it names.
    fn header(
        &mut self,
        alloc: Global,
        header: &str,
        line: usize,
    ) -> Result<Option<KeyLine>, AllocError> {
        self.place = None;
        let Some((key, below)) = key_of(alloc, header.trim_start())? else {
            return Ok(None);
        };
        if key.as_str() != Field::Account.name() {
            return Ok(Some(key_line(Place::File, key, line)));
        }
        Ok(Some(match below {
            Some(below) if 0 < self.accounts => {
                key_line(Place::Account(self.accounts), below, line)
            }
            _ => {
                self.accounts = self.accounts.saturating_add(1);
                self.place = Some(Place::Account(self.accounts));
                key_line(Place::File, key, line)
            }
        }))
    }
}

fn key_line(place: Place, key: String, line: usize) -> KeyLine {
    KeyLine { place, key, line }
}

// The first part of the key with which a text begins, and the part behind the first dot.
fn key_of(alloc: Global, text: &str) -> Result<Option<(String, Option<String>)>, AllocError> {
    let key = match dotted_key(alloc, text) {
        Ok((key, _)) => key,
        Err(ParseError::OutOfMemory) => return Err(AllocError),
        Err(_) => return Ok(None),
    };
    let Key { path, last } = key;
    let mut parts = path.into_iter();
    let first = parts.next();
    let second = parts.next();
    drop(parts);
    Ok(Some(match first {
        None => (last, None),
        Some(first) => (first, Some(second.unwrap_or(last))),
    }))
}
