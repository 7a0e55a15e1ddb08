//! Rows `KIND WORD WORD | OCTETS ..`, where a word may be missing.

use std::alloc::Global;
use std::str::FromStr;
use test_support::Row;

/// A value of a standard or of another implementation.
#[derive(Drop)]
pub(crate) struct Vector<'a> {
    pub(crate) kind: &'a str,
    /// Empty where there is none.
    pub(crate) first: &'a str,
    /// Empty where there is none.
    pub(crate) second: &'a str,
    pub(crate) columns: Vec<Vec<u8>>,
}

impl Vector<'_> {
    /// The first word as a suite's number, or as a count of bytes, bits or rounds. It is 0 where there is none.
    pub(crate) fn size(&self) -> usize {
        number_of(self.first)
    }

    /// The second word as a usage. It is 0 where there is none.
    pub(crate) fn usage(&self) -> i32 {
        number_of(self.second)
    }
}

fn number_of<T: FromStr + Default + Drop>(word: &str) -> T
where
    T::Err: Drop,
{
    match word.parse::<T>() {
        Ok(number) => number,
        Err(_) => T::default(),
    }
}

/// Reads a row.
pub(crate) fn vector_of<'a>(alloc: Global, row: &mut Row<'a>) -> anyhow::Result<Vector<'a>> {
    let mut head = row.word().split(' ');
    let kind = head.next().unwrap_or_default();
    let first = head.next().unwrap_or_default();
    let second = head.next().unwrap_or_default();
    let columns = columns_of(alloc, row.word())?;
    Ok(Vector {
        kind,
        first,
        second,
        columns,
    })
}

/// The octets of each column, `-` for none.
pub(crate) fn columns_of(alloc: Global, text: &str) -> anyhow::Result<Vec<Vec<u8>>> {
    let mut columns = Vec::new(alloc);
    for column in text.split(' ') {
        let digits = if column == "-" { "" } else { column };
        columns.push(hex::decode(alloc, digits)?)?;
    }
    Ok(columns)
}
