//! Rows on keys: `KIND WORD WORD | OCTETS ..`, where a word may be missing.

use crate::row::columns_of;
use anyhow::Context;
use std::alloc::Global;

/// A row on keys.
#[derive(Drop)]
pub(crate) struct KeyRow<'a> {
    pub(crate) kind: &'a str,
    /// Empty where there is none.
    pub(crate) first: &'a str,
    /// Empty where there is none.
    pub(crate) second: &'a str,
    pub(crate) columns: Vec<Vec<u8>>,
}

/// Reads a row.
pub(crate) fn row_of(alloc: Global, line: &str) -> anyhow::Result<KeyRow<'_>> {
    let (head, columns) = line.split_once(" | ").context("a line with no bar")?;
    let mut words = head.split(' ');
    let kind = words.next().unwrap_or_default();
    let first = words.next().unwrap_or_default();
    let second = words.next().unwrap_or_default();
    let columns = columns_of(alloc, columns)?;
    Ok(KeyRow {
        kind,
        first,
        second,
        columns,
    })
}
